ghost use Rattle.std.specs.Prelude.{◌≡◌, map, Some, None, IfSome, IfNone, option_map};
ghost use Rattle.std.specs.Option.{option_copied};
ghost use Rattle.std.specs.String.{string_bytes};
ghost use Rattle.mz_base.specs.Statuses.{status_number, status_text};
ghost use Rattle.mz_outside.specs.Causes.{Rose};
ghost use Rattle.mozc_cli.specs.Programs.{told_by, told_for, text_of, error_text};
ghost use Rattle.mozc_cli.specs.Reported.{Writes};
ghost use Rattle.mozc_cli.specs.Settles.{list_output};

use mz_base::Status;
use mz_outside::{Sink, write_all};

const HELP: &str = "sockflint run MANIFEST
Runs the clients of the manifest and writes the report on standard output.
sockflint replay MANIFEST FILE
Runs them by the schedule in a file, or in a report.
sockflint check MANIFEST
Reads all data of the manifest and lists its data sets.
sockflint convert MANIFEST SET KEY [BOUNDS]
Writes the best path of a key in a data set, with its certificate.
sockflint verify MANIFEST SET KEY FILE
Tests the certificate in a file.
";

const VERSION: &str = "sockflint 0.1.0
";

/// A text that the program writes when it is asked for nothing else.
#[derive(Clone, Copy)]
pub enum Told {
    Help,
    Version,
}

/// What the program does with its words.
#[derive(Clone, Copy)]
pub enum Action<'a> {
    /// Writes a text, by [`tell`].
    Tell(Told),
    /// Answers the words, by [`local`](crate::local).
    Run(&'a [String]),
    /// Ends with `Usage`: the words can't be read.
    Refuse,
}

/// What the program does with the words after its name, where they can be read.
pub fn action_for(words: Option<&[String]>) -> Action<'_>
    ensures told { IfSome words.entry (λ list. IfSome (told_for (map string_bytes list.now)) (λ told. result ≡ Action.Tell told)) }
    ensures run { IfSome words.entry (λ list. told_for (map string_bytes list.now) ≡ None → result ≡ Action.Run list) }
    ensures refused { IfNone words.entry (result ≡ Action.Refuse) }
{
    match words {
        Some(words) => action_of(words),
        None => Action::Refuse,
    }
}

fn action_of(words: &[String]) -> Action<'_>
    ensures told { IfSome (told_for (map string_bytes words.now)) (λ told. result ≡ Action.Tell told) }
    ensures run { told_for (map string_bytes words.now) ≡ None → result ≡ Action.Run words.entry }
{
    match told_for(words) {
        Some(told) => Action::Tell(told),
        None => Action::Run(words),
    }
}

fn told_for(words: &[String]) -> Option<Told>
    ensures { result ≡ told_for (map string_bytes words.now) }
{
    match words {
        [word] => told_by(word.as_str()),
        _ => None,
    }
}

fn told_by(word: &str) -> Option<Told>
    ensures { result ≡ told_by word.now }
{
    if word == "--help" {
        return Some(Told::Help);
    }
    if word == "--version" {
        return Some(Told::Version);
    }
    None
}

/// Writes a text whole, or answers that it could not.
pub fn tell<K: Sink>(told: Told, sink: &mut K) -> Status
    ensures writes { Writes (list_output (text_of told)) (K.bytes sink.old) (K.bytes sink.new) result }
    ensures write_fault { result ≡ Status.WriteFault → Rose (K.faults sink.old) (K.faults sink.new) }
{
    match write_all(sink, text_of(told).as_bytes()) {
        Ok(()) => Status::Ok,
        Err(_) => Status::WriteFault,
    }
}

fn text_of(told: Told) -> &'static str
    ensures { result.now ≡ text_of told }
{
    match told {
        Told::Help => HELP,
        Told::Version => VERSION,
    }
}

/// How the program ends: the number of its status, and the status whose text is told on standard error.
#[derive(Clone, Copy)]
pub struct Ending<'a> {
    pub number: u8,
    pub text: Option<&'a Status>,
}

pub fn ending_of(status: &Status) -> Ending<'_>
    ensures number { result.number ≡ status_number status.now }
    ensures text { option_map status_text (option_copied result.text) ≡ error_text status.now }
{
    Ending {
        number: status.number(),
        text: told_status(status),
    }
}

/// The status, where its text is told: all but `Ok`.
fn told_status(status: &Status) -> Option<&Status>
    ensures { option_map status_text (option_copied result) ≡ error_text status.now }
{
    match status {
        Status::Ok => None,
        _ => Some(status),
    }
}
