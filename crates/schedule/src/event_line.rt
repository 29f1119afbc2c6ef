ghost use Rattle.std.specs.Prelude.{◌≡◌, ◌∷◌, option_map};
ghost use Rattle.mz_base.specs.Lines.{fields_of};
ghost use Rattle.mz_base.specs.declared.event.Event.TheVariants as event;
ghost use Rattle.schedule.specs.Events.{alone, both, event_in, event_of, number_in, of_client, of_two, outcome_in};
ghost use Rattle.schedule.specs.Names.{noted, who_in};

use crate::numbers::{Directory, Numbers};
use mz_base::{Event, Outcome, cut_field, number, text_of_line};

/// The highest number of a job, and of a reload.
pub const MOST_NUMBER: u64 = 4_294_967_295;

/// The event of a line.
pub fn event_of(directory: &Directory, line: &[u8]) -> Option<Event>
    ensures { result ≡ event_of (who_in directory.now) line.now }
{
    event_in(directory, text_of_line(line)?)
}

fn event_in(directory: &Directory, line: &str) -> Option<Event>
    ensures { result ≡ event_in (who_in directory.now) (fields_of line.now) }
{
    match cut_field(line) {
        (word, None) => alone(word),
        (word, Some(rest)) => with_field(directory, word, rest),
    }
}

/// A line of a word and what follows it.
fn with_field(directory: &Directory, word: &str, rest: &str) -> Option<Event>
    ensures { result ≡ event_in (who_in directory.now) (word.now ∷ fields_of rest.now) }
{
    match cut_field(rest) {
        (field, None) => of_client(&directory.clients, word, field),
        (field, Some(rest)) => with_fields(directory, word, field, rest),
    }
}

/// A line of a word, a field and what follows it.
#[tactic(auto, using(crate::proofs::FieldCounts::none_of_four))]
fn with_fields(directory: &Directory, word: &str, field: &str, rest: &str) -> Option<Event>
    ensures { result ≡ event_in (who_in directory.now) (word.now ∷ field.now ∷ fields_of rest.now) }
{
    match cut_field(rest) {
        (last, None) => of_two(directory, word, field, last),
        (_, Some(_)) => None,
    }
}

fn alone(word: &str) -> Option<Event>
    ensures { result ≡ alone word.now }
{
    if word == "close" {
        return Some(Event::Close);
    }
    None
}

#[tactic(auto, unfolding(crate::specs::Events::of_client))]
fn of_client(clients: &Numbers, word: &str, name: &str) -> Option<Event>
    ensures { result ≡ of_client (noted clients.now) word.now name.now }
{
    if word == "step" {
        let client = clients.number(name)?;
        return Some(Event::Step { client });
    }
    if word == "learn" {
        let client = clients.number(name)?;
        return Some(Event::Learn { client });
    }
    if word == "notyet" {
        let client = clients.number(name)?;
        return Some(Event::NotYet { client });
    }
    if word == "end" {
        let client = clients.number(name)?;
        return Some(Event::End { client });
    }
    None
}

#[tactic(auto, unfolding(crate::specs::Events::of_two))]
fn of_two(directory: &Directory, word: &str, field: &str, last: &str) -> Option<Event>
    ensures { result ≡ of_two (who_in directory.now) word.now field.now last.now }
{
    if word == "take" {
        return take(&directory.clients, field, last);
    }
    if word == "await" {
        return await_of(&directory.clients, field, last);
    }
    if word == "job" {
        return job(field, last);
    }
    if word == "dict" {
        return dict(&directory.users, field, last);
    }
    None
}

fn take(clients: &Numbers, name: &str, field: &str) -> Option<Event>
    ensures { result ≡ both (λ c k. event.Take c k) (noted clients.now name.now) (number_in field.now) }
{
    let client = clients.number(name)?;
    let job = number_in(field)?;
    Some(Event::Take { client, job })
}

fn await_of(clients: &Numbers, name: &str, field: &str) -> Option<Event>
    ensures { result ≡ both (λ c k. event.Await c k) (noted clients.now name.now) (number_in field.now) }
{
    let client = clients.number(name)?;
    let job = number_in(field)?;
    Some(Event::Await { client, job })
}

fn job(field: &str, word: &str) -> Option<Event>
    ensures { result ≡ both (λ j o. event.Job j o) (number_in field.now) (outcome_in word.now) }
{
    let job = number_in(field)?;
    let outcome = outcome_in(word)?;
    Some(Event::Job { job, outcome })
}

fn dict(users: &Numbers, name: &str, field: &str) -> Option<Event>
    ensures { result ≡ both (λ u r. event.Dict u r) (noted users.now name.now) (number_in field.now) }
{
    let user = users.number(name)?;
    let reload = number_in(field)?;
    Some(Event::Dict { user, reload })
}

/// The number of a job, or of a reload.
fn number_in(field: &str) -> Option<u32>
    ensures { result ≡ number_in field.now }
{
    let n = number(field)?;
    if n <= MOST_NUMBER {
        Some(n as u32)
    } else {
        None
    }
}

#[tactic(auto, unfolding(crate::specs::Events::outcome_in))]
fn outcome_in(word: &str) -> Option<Outcome>
    ensures { result ≡ outcome_in word.now }
{
    if word == "published" {
        return Some(Outcome::Published);
    }
    if word == "refused" {
        return Some(Outcome::Refused);
    }
    if word == "skipped" {
        return Some(Outcome::Skipped);
    }
    None
}
