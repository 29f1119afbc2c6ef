ghost use Rattle.std.specs.Prelude.{◌≡◌, ◌++◌, All, IfOk, OnOk, codes, encode_utf8_all};
ghost use Rattle.std.specs.Fmt.{decimal};
ghost use Rattle.std.specs.String.{string_bytes};
ghost use Rattle.schedule.specs.Names.{IsNamed, IsOneOf, name_of};
ghost use Rattle.schedule.specs.Texts.{event_text, schedule_text};

use mz_base::{Event, Names, NoMemory, Text};
use std::alloc::Global;

/// The lines of the events, without a line `schedule` above them.
pub fn print(alloc: Global, events: &[Event], names: &Names) -> Result<Vec<u8>, NoMemory>
    requires { All (IsNamed names.now) events.now }
    ensures { IfOk result (λ bytes. bytes.items ≡ schedule_text names.now events.now) }
{
    let mut out = String::new(alloc);
    for event in events {
        write_event(&mut out, names, *event)?;
    }
    Ok(out.into_bytes())
}

fn write_event(out: &mut String, names: &Names, event: Event) -> Result<(), NoMemory>
    requires { IsNamed names.now event }
    ensures { OnOk result (string_bytes out.new ≡ string_bytes out.old ++ event_text names.now event) }
{
    let users = names.users.as_slice();
    let clients = names.clients.as_slice();
    match event {
        Event::Job { job, outcome } => write!(out, "job\t{job}\t{outcome}\n")?,
        Event::Dict { user, reload } => {
            write_numbered(out, "dict", name_of(users, user), u64::from(reload))?
        }
        Event::Learn { client } => write_named(out, "learn", name_of(clients, client))?,
        Event::Take { client, job } => {
            write_numbered(out, "take", name_of(clients, client), u64::from(job))?
        }
        Event::Await { client, job } => {
            write_numbered(out, "await", name_of(clients, client), u64::from(job))?
        }
        Event::NotYet { client } => write_named(out, "notyet", name_of(clients, client))?,
        Event::Step { client } => write_named(out, "step", name_of(clients, client))?,
        Event::End { client } => write_named(out, "end", name_of(clients, client))?,
        Event::Close => write!(out, "close\n")?,
    }
    Ok(())
}

fn name_of(names: &[Text], number: u32) -> &Text
    requires { IsOneOf names.now number }
    ensures { result.now ≡ name_of names.now number }
{
    &names[number as usize - 1]
}

/// Writes a word and a name, and ends the line.
fn write_named(out: &mut String, word: &str, name: &Text) -> Result<(), NoMemory>
    ensures { OnOk result (string_bytes out.new ≡ string_bytes out.old ++ (word.now ++ (codes "\t" ++ (encode_utf8_all name.now ++ codes "\n")))) }
{
    write!(out, "{word}\t{name}\n")?;
    Ok(())
}

/// Writes a word, a name and a number, and ends the line.
fn write_numbered(out: &mut String, word: &str, name: &Text, number: u64) -> Result<(), NoMemory>
    ensures { OnOk result (string_bytes out.new ≡ string_bytes out.old ++ (word.now ++ (codes "\t" ++ (encode_utf8_all name.now ++ (codes "\t" ++ (decimal number ++ codes "\n")))))) }
{
    write!(out, "{word}\t{name}\t{number}\n")?;
    Ok(())
}
