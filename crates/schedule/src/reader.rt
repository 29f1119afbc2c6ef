ghost use Rattle.std.specs.Prelude.{◌≡◌, ◌+◌, ◌∷◌, ◌<◌, ◌^◌, List, ℕ, IfOk, OnOk, length};
ghost use Rattle.mz_base.specs.Lines.{lines_of};
ghost use Rattle.schedule.specs.Drafts.{is_open, joined, nothing_yet, whole};
ghost use Rattle.schedule.specs.Names.{who_in};
ghost use Rattle.schedule.specs.Readings.{is_end, is_heading, no_event, part_of, reading_of, reading_with};

use crate::event_line::event_of;
use crate::numbers::Directory;
use mz_base::{Event, FileLines, Names, NoMemory, Seq};
use std::alloc::Global;

/// What a file reads as.
#[derive(Drop)]
pub struct Reading {
    /// The events before the first line that does not read, each with the number of its line, from 1.
    pub events: Seq<(u64, Event)>,
    /// The first line that does not read.
    pub bad: Option<u64>,
    /// How many lines the file has.
    pub lines: u64,
}

/// The schedule in a file: it stands below the first line `schedule`, or is the whole file where there is none, and goes up
/// to a line `certificates`. So a report reads as the schedule that it prints.
pub fn read(alloc: Global, bytes: &[u8], names: &Names) -> Result<Reading, NoMemory>
    requires users { length names.now.users < 2 ^ 32 }
    requires clients { length names.now.clients < 2 ^ 32 }
    ensures { IfOk result (λ reading. reading ≡ reading_of names.now (lines_of bytes.now)) }
{
    let directory = Directory::of(alloc, names)?;
    let mut draft = Draft::new(alloc, false);
    let mut number = 0;
    for line in FileLines::of(bytes) {
        number += 1;
        draft.take_line(alloc, &directory, number, line)?;
    }
    Ok(draft.into_reading(number))
}

/// How far a schedule is read.
#[derive(Clone, Copy)]
enum Stage {
    /// Its events go on.
    Open,
    /// The line `certificates` came.
    Ended,
    /// This line does not read.
    Bad(u64),
}

/// A schedule as far as it is read.
#[derive(Drop)]
struct Draft {
    /// A line `schedule` came.
    is_headed: bool,
    stage: Stage,
    events: Seq<(u64, Event)>,
}

impl Draft {
    fn new(alloc: Global, is_headed: bool) -> Draft
        ensures { result ≡ nothing_yet is_headed }
    {
        Draft {
            is_headed,
            stage: Stage::Open,
            events: Seq::from_vec(Vec::new(alloc)),
        }
    }

    /// Reads the line of this number. Before a line `schedule` comes, the file is read as if none did.
    fn take_line(
        &mut self,
        alloc: Global,
        directory: &Directory,
        number: u64,
        line: &[u8],
    ) -> Result<(), NoMemory>
        ensures { OnOk result ((lines : List (List ℕ)) → whole (who_in directory.now) self.new (number + 1) lines ≡ whole (who_in directory.now) self.old number (line.now ∷ lines)) }
    {
        if !self.is_headed && is_heading(line) {
            *self = Draft::new(alloc, true);
            return Ok(());
        }
        self.take_event(directory, number, line)
    }

    fn take_event(
        &mut self,
        directory: &Directory,
        number: u64,
        line: &[u8],
    ) -> Result<(), NoMemory>
        ensures headed { OnOk result (self.new.is_headed ≡ self.old.is_headed) }
        ensures part { OnOk result ((lines : List (List ℕ)) → joined self.new (part_of (who_in directory.now) (number + 1) lines) ≡ joined self.old (part_of (who_in directory.now) number (line.now ∷ lines))) }
    {
        if !self.is_open() || line.is_empty() {
            return Ok(());
        }
        if is_end(line) {
            self.stage = Stage::Ended;
            return Ok(());
        }
        match event_of(directory, line) {
            Some(event) => self.events.push((number, event)),
            None => {
                self.stage = Stage::Bad(number);
                Ok(())
            }
        }
    }

    fn is_open(&self) -> bool
        ensures { result ≡ is_open self.now.stage }
    {
        match self.stage {
            Stage::Open => true,
            _ => false,
        }
    }

    /// What was read, of a file of so many lines.
    fn into_reading(self, lines: u64) -> Reading
        ensures { result ≡ reading_with (joined self no_event) lines }
    {
        let bad = match self.stage {
            Stage::Bad(number) => Some(number),
            _ => None,
        };
        Reading {
            events: self.events,
            bad,
            lines,
        }
    }
}

/// Whether the schedule begins below this line.
fn is_heading(line: &[u8]) -> bool
    ensures { result ≡ is_heading line.now }
{
    line == b"schedule".as_slice()
}

/// Whether this line ends the schedule.
fn is_end(line: &[u8]) -> bool
    ensures { result ≡ is_end line.now }
{
    line == b"certificates".as_slice()
}
