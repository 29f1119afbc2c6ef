use std::fmt;

/// What became of a job, which builds a data set.
#[derive(Clone, Copy, Debug, PartialEq, Eq)]
pub enum Outcome {
    Published,
    /// Its files have a fault.
    Refused,
    /// A higher job stood published already.
    Skipped,
}

/// One atomic step of the server. Jobs, users, reloads of a user and clients count from 1.
#[derive(Clone, Copy, Debug, PartialEq, Eq)]
pub enum Event {
    Job { job: u32, outcome: Outcome },
    /// A user's dictionary is read anew.
    Dict { user: u32, reload: u32 },
    /// A client's commit enters its user's journal.
    Learn { client: u32 },
    /// A client takes this job's data and its user's state.
    Take { client: u32, job: u32 },
    /// A client that waited for a job saw this one.
    Await { client: u32, job: u32 },
    /// No job that the client waits for will come.
    NotYet { client: u32 },
    /// A client carries out its next command.
    Step { client: u32 },
    /// A client has carried out all its commands.
    End { client: u32 },
    /// No further job comes.
    Close,
}

impl fmt::Display for Outcome {
    ghost use Rattle.std.specs.Prelude.{Some};
    ghost use Rattle.mz_base.specs.Reports.{outcome_text};

    ghost output = { λ outcome. Some (outcome_text outcome) };

    fn fmt<W: fmt::Write>(&self, f: &mut fmt::Formatter<W>) -> fmt::Result {
        match self {
            Outcome::Published => write!(f, "published"),
            Outcome::Refused => write!(f, "refused"),
            Outcome::Skipped => write!(f, "skipped"),
        }
    }
}
