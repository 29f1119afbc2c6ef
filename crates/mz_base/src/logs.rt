use crate::{Certificate, Event, Fault, Line, Pair, Seq, Text};

/// What a run notes: each client's lines, the jobs, each user's journal, the events, and certificates where they are
/// kept. Clients, users, jobs and reloads of a user count from 1.
#[derive(Drop)]
pub struct Logs {
    pub clients: Seq<ClientLog>,
    /// In the order in which the jobs came.
    pub jobs: Seq<JobEntry>,
    /// No further job comes.
    pub closed: bool,
    pub users: Seq<UserLog>,
    pub events: Seq<Event>,
    /// By client, then by command.
    pub certificates: Option<Seq<CertEntry>>,
}

/// What one client did.
#[derive(Drop)]
pub struct ClientLog {
    pub name: Text,
    pub user: u32,
    /// One for each command.
    pub lines: Seq<Line>,
    /// The client's own events, in its order.
    pub own: Seq<Own>,
}

/// An event of a client.
#[derive(Clone, Copy)]
pub struct Own {
    pub event: Event,
    /// The entries of the user's journal that a take saw, else 0.
    pub prefix: u64,
}

/// What became of a job.
#[derive(Drop)]
pub enum JobEntry {
    Published { job: u32 },
    /// The file at fault, and its first fault.
    Refused { job: u32, path: Text, fault: Fault },
    /// The higher job that stood published.
    Skipped { job: u32, by: u32 },
}

/// A user's reloads, and the user's journal.
#[derive(Drop)]
pub struct UserLog {
    pub name: Text,
    pub dicts: Seq<DictNote>,
    pub entries: Seq<UserEntry>,
}

/// What a reload of a user's dictionary gave. A number alone is the line that refused it.
#[derive(Clone, Copy)]
pub enum DictNote {
    Read { kept: u64, skipped: u64 },
    NotUtf8(u64),
    Limit(u64),
}

/// An entry of a user's journal.
#[derive(Drop)]
pub enum UserEntry {
    /// A client's commit, the client's seq-th, from 1.
    Learn {
        client: u32,
        seq: u64,
        pairs: Seq<Pair>,
    },
    /// A reload is in force from here on, where it reads.
    Dict {
        reload: u32,
    },
    /// A client's end, and the number of its learns.
    End {
        client: u32,
        count: u64,
    },
}

/// The certificate of a conversion: the client, the number of the command, the version of the data, and the key.
#[derive(Drop)]
pub struct CertEntry {
    pub client: u32,
    pub number: u32,
    pub version: u32,
    pub key: Text,
    pub cert: Certificate,
}

/// The names of users and clients, in manifest order.
#[derive(Drop)]
pub struct Names {
    pub users: Seq<Text>,
    pub clients: Seq<Text>,
}
