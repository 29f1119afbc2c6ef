use crate::{Seq, Text};
use std::fmt;

/// What became of a command of a client.
#[derive(Clone, Copy, Debug, PartialEq, Eq)]
pub enum Word {
    Done,
    /// The mode has no row for the key.
    Pass,
    /// The preedit takes no more characters.
    Full,
    /// What was expected was found.
    Met,
    Differs,
    /// A job was waited for, and came.
    Awaited,
    NotYet,
}

/// The mode of a session: precomposition, composition, conversion.
#[derive(Clone, Copy, Debug, PartialEq, Eq)]
pub enum Mode {
    P,
    C,
    V,
}

/// The line of one command in a report.
#[derive(Drop)]
pub struct Line {
    pub word: Word,
    pub mode: Mode,
    /// The job whose data the composition keeps, 0 in precomposition.
    pub version: u32,
    /// The text that the command commits, empty where it commits nothing.
    pub result: Text,
    /// What is shown, field by field.
    pub rest: Seq<Text>,
}

impl fmt::Display for Word {
    ghost use Rattle.std.specs.Prelude.{Some};
    ghost use Rattle.mz_base.specs.Reports.{word_text};

    ghost output = { λ word. Some (word_text word) };

    fn fmt<W: fmt::Write>(&self, f: &mut fmt::Formatter<W>) -> fmt::Result {
        match self {
            Word::Done => write!(f, "done"),
            Word::Pass => write!(f, "pass"),
            Word::Full => write!(f, "full"),
            Word::Met => write!(f, "met"),
            Word::Differs => write!(f, "differs"),
            Word::Awaited => write!(f, "awaited"),
            Word::NotYet => write!(f, "notyet"),
        }
    }
}

impl fmt::Display for Mode {
    ghost use Rattle.std.specs.Prelude.{Some};
    ghost use Rattle.mz_base.specs.Reports.{mode_text};

    ghost output = { λ mode. Some (mode_text mode) };

    fn fmt<W: fmt::Write>(&self, f: &mut fmt::Formatter<W>) -> fmt::Result {
        match self {
            Mode::P => write!(f, "P"),
            Mode::C => write!(f, "C"),
            Mode::V => write!(f, "V"),
        }
    }
}
