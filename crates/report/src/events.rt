ghost use Rattle.std.specs.Prelude.{◌≡◌, ◌++◌, OnOk};
ghost use Rattle.std.specs.String.{string_bytes};
ghost use Rattle.report.specs.Names.{AreEventsNamed, IsEventNamed};
ghost use Rattle.report.specs.Printed.{Adds};
ghost use Rattle.report.specs.Texts.{event_text, schedule_section};

use crate::PrintError;
use crate::names::{client_name, user_name};
use crate::room::within;
use crate::text::{write_named, write_numbered};
use mz_base::{Event, Logs, NoMemory};

/// The events, in their order.
pub fn print_schedule(out: &mut String, logs: &Logs) -> Result<(), PrintError>
    requires { AreEventsNamed logs.now }
    ensures { Adds (string_bytes out.old) (schedule_section logs.now) result (string_bytes out.new) }
{
    write!(out, "schedule\n")?;
    for event in logs.events.as_slice() {
        write_event(out, logs, *event)?;
        within(out)?;
    }
    within(out)
}

fn write_event(out: &mut String, logs: &Logs, event: Event) -> Result<(), NoMemory>
    requires { IsEventNamed logs.now event }
    ensures { OnOk result (string_bytes out.new ≡ string_bytes out.old ++ event_text logs.now event) }
{
    match event {
        Event::Job { job, outcome } => write!(out, "job\t{job}\t{outcome}\n")?,
        Event::Dict { user, reload } => {
            write_numbered(out, "dict", user_name(logs, user), u64::from(reload))?
        }
        Event::Learn { client } => write_named(out, "learn", client_name(logs, client))?,
        Event::Take { client, job } => {
            write_numbered(out, "take", client_name(logs, client), u64::from(job))?
        }
        Event::Await { client, job } => {
            write_numbered(out, "await", client_name(logs, client), u64::from(job))?
        }
        Event::NotYet { client } => write_named(out, "notyet", client_name(logs, client))?,
        Event::Step { client } => write_named(out, "step", client_name(logs, client))?,
        Event::End { client } => write_named(out, "end", client_name(logs, client))?,
        Event::Close => write!(out, "close\n")?,
    }
    Ok(())
}
