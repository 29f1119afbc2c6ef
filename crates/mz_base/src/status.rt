ghost use Rattle.std.specs.Prelude.{◌≡◌};
ghost use Rattle.mz_base.specs.Statuses.{refusal_number, status_number};

use crate::{Fault, NoMemory, Text};
use std::alloc::{AllocError, AllocFailed};
use std::fmt;

/// The quantity that passes its limit.
#[derive(Clone, Copy, Debug, PartialEq, Eq)]
pub enum Limit {
    Bytes,
    Sets,
    Users,
    Clients,
    Dictionaries,
    Commands,
    Key,
    Report,
}

/// A data set that does not read: the file, and its fault.
#[derive(Drop)]
pub struct BadSet {
    pub path: Text,
    pub fault: Fault,
}

/// The first condition of a certificate that is false.
#[derive(Clone, Copy, Debug, PartialEq, Eq)]
pub enum CertFault {
    /// A line of the file does not read.
    Text { line: u64 },
    /// The number of potentials, wanted and found.
    Length { wanted: u64, found: u64 },
    /// The place on the path, from 0, whose entry does not follow.
    Path(u64),
    /// An edge of less cost, by ordinals; no ordinal is the start or the end.
    Edge { from: Option<u32>, to: Option<u32> },
    /// The total that is said, and the cost of the path.
    Total { said: i64, found: i64 },
}

/// Why a command writes nothing.
#[derive(Drop)]
pub enum Refusal {
    Memory,
    ReadFault,
    /// A file that is not there, by name.
    Absent(Text),
    /// The line of the manifest.
    BadManifest(u64),
    /// A script, and the line.
    BadScript(Text, u64),
    /// The first data set that does not read.
    BadData(BadSet),
    TooLarge(Limit),
    /// The line of the schedule.
    BadSchedule(u64),
    BadCertificate(CertFault),
    /// A data set that the manifest does not name.
    NoSet(Text),
    /// A file, and the line whose form is not built yet.
    Unbuilt(Text, u64),
}

/// What a call of the program answers.
#[derive(Drop)]
pub enum Status {
    /// The whole output was written.
    Ok,
    /// The words match no command.
    Usage,
    WriteFault,
    /// The whole report was written, and it has a line `differs` or `notyet`.
    Unmet,
    /// Nothing was written.
    Refused(Refusal),
}

impl Refusal {
    fn number(&self) -> u8
        ensures { result ≡ refusal_number self.now }
    {
        match self {
            Refusal::Memory => 1,
            Refusal::ReadFault => 3,
            Refusal::Absent(_) => 5,
            Refusal::BadManifest(_) => 6,
            Refusal::BadScript(..) => 7,
            Refusal::BadData(_) => 8,
            Refusal::TooLarge(_) => 9,
            Refusal::BadSchedule(_) => 10,
            Refusal::BadCertificate(_) => 11,
            Refusal::NoSet(_) => 13,
            Refusal::Unbuilt(..) => 20,
        }
    }
}

impl Status {
    /// The number with which the program ends.
    pub fn number(&self) -> u8
        ensures { result ≡ status_number self.now }
    {
        match self {
            Status::Ok => 0,
            Status::Usage => 2,
            Status::WriteFault => 4,
            Status::Unmet => 12,
            Status::Refused(refusal) => refusal.number(),
        }
    }
}

impl From<NoMemory> for Refusal {
    ghost use Rattle.mz_base.specs.declared.status.Refusal.TheVariants.{Memory};

    ghost from_gives = { λ _ e. e ≡ Memory };

    fn from(_error: NoMemory) -> Refusal {
        Refusal::Memory
    }
}

impl From<AllocError> for Refusal {
    ghost use Rattle.mz_base.specs.declared.status.Refusal.TheVariants.{Memory};

    ghost from_gives = { λ _ e. e ≡ Memory };

    fn from(_error: AllocError) -> Refusal {
        Refusal::Memory
    }
}

impl<T: Drop> From<AllocFailed<T>> for Refusal {
    ghost use Rattle.mz_base.specs.declared.status.Refusal.TheVariants.{Memory};

    ghost from_gives = { λ _ e. e ≡ Memory };

    fn from(_error: AllocFailed<T>) -> Refusal {
        Refusal::Memory
    }
}

impl fmt::Display for Limit {
    ghost use Rattle.std.specs.Prelude.{Some};
    ghost use Rattle.mz_base.specs.Statuses.{limit_text};

    ghost output = { λ limit. Some (limit_text limit) };

    fn fmt<W: fmt::Write>(&self, f: &mut fmt::Formatter<W>) -> fmt::Result {
        let name = match self {
            Limit::Bytes => "Bytes",
            Limit::Sets => "Sets",
            Limit::Users => "Users",
            Limit::Clients => "Clients",
            Limit::Dictionaries => "Dictionaries",
            Limit::Commands => "Commands",
            Limit::Key => "Key",
            Limit::Report => "Report",
        };
        write!(f, "{name}")
    }
}

impl fmt::Display for CertFault {
    ghost use Rattle.std.specs.Prelude.{Some};
    ghost use Rattle.mz_base.specs.Statuses.{certificate_text};

    ghost output = { λ fault. Some (certificate_text fault) };

    fn fmt<W: fmt::Write>(&self, f: &mut fmt::Formatter<W>) -> fmt::Result {
        match self {
            CertFault::Text { line } => write!(f, "Text {line}"),
            CertFault::Length { wanted, found } => write!(f, "Length {wanted} {found}"),
            CertFault::Path(place) => write!(f, "Path {place}"),
            CertFault::Edge {
                from: None,
                to: None,
            } => write!(f, "Edge start end"),
            CertFault::Edge {
                from: None,
                to: Some(to),
            } => write!(f, "Edge start {to}"),
            CertFault::Edge {
                from: Some(from),
                to: None,
            } => write!(f, "Edge {from} end"),
            CertFault::Edge {
                from: Some(from),
                to: Some(to),
            } => write!(f, "Edge {from} {to}"),
            CertFault::Total { said, found } => write!(f, "Total {said} {found}"),
        }
    }
}

impl fmt::Display for Refusal {
    ghost use Rattle.std.specs.Prelude.{Some};
    ghost use Rattle.mz_base.specs.Statuses.{refusal_text};

    ghost output = { λ refusal. Some (refusal_text refusal) };

    fn fmt<W: fmt::Write>(&self, f: &mut fmt::Formatter<W>) -> fmt::Result {
        match self {
            Refusal::Memory => write!(f, "Memory"),
            Refusal::ReadFault => write!(f, "ReadFault"),
            Refusal::Absent(name) => write!(f, "Absent {name}"),
            Refusal::BadManifest(line) => write!(f, "BadManifest {line}"),
            Refusal::BadScript(file, line) => write!(f, "BadScript {file} {line}"),
            Refusal::BadData(set) => {
                let kind = set.fault.kind;
                write!(f, "BadData {} {kind}", set.path)
            }
            Refusal::TooLarge(limit) => write!(f, "TooLarge {limit}"),
            Refusal::BadSchedule(line) => write!(f, "BadSchedule {line}"),
            Refusal::BadCertificate(fault) => write!(f, "BadCertificate {fault}"),
            Refusal::NoSet(name) => write!(f, "NoSet {name}"),
            Refusal::Unbuilt(file, line) => write!(f, "Unbuilt {file} {line}"),
        }
    }
}

impl fmt::Display for Status {
    ghost use Rattle.std.specs.Prelude.{Some};
    ghost use Rattle.mz_base.specs.Statuses.{status_text};

    ghost output = { λ status. Some (status_text status) };

    fn fmt<W: fmt::Write>(&self, f: &mut fmt::Formatter<W>) -> fmt::Result {
        match self {
            Status::Ok => write!(f, "Ok"),
            Status::Usage => write!(f, "Usage"),
            Status::WriteFault => write!(f, "WriteFault"),
            Status::Unmet => write!(f, "Unmet"),
            Status::Refused(refusal) => write!(f, "{refusal}"),
        }
    }
}
