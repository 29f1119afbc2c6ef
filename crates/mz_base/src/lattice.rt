use crate::{Seq, Text};

/// The most characters of a key.
pub const MOST_KEY: usize = 256;

/// What a lattice entry stands for.
#[derive(Clone, Copy)]
pub enum Source {
    /// A row of the user's dictionary, by its place.
    User(u32),
    /// A word row of the data set, by its place.
    Word(u32),
    /// The character itself.
    Char,
    /// A run of characters of one class itself.
    Run,
}

/// A way to read a part of a key. Positions count characters.
#[derive(Clone, Copy)]
pub struct Entry {
    pub begin: u16,
    pub end: u16,
    /// The left id, which the entry before sees.
    pub lid: u16,
    /// The right id, which the entry after sees.
    pub rid: u16,
    pub cost: i32,
    pub source: Source,
}

/// All entries of a key. An entry's ordinal is its place in the list.
#[derive(Drop)]
pub struct Lattice {
    pub key: Seq<char>,
    /// The positions that no entry crosses, rising.
    pub bounds: Seq<u16>,
    /// By begin, then by end.
    pub entries: Seq<Entry>,
    /// The ordinals by the end of their entry, then rising.
    pub by_end: Seq<u32>,
}

/// A part of a key, and the ids beside it: the right id of what stands before, the left id of what stands after.
#[derive(Clone, Copy)]
pub struct Span {
    pub begin: u16,
    pub end: u16,
    pub left: u16,
    pub right: u16,
}

/// A path, and potentials that show that none costs less.
#[derive(Drop)]
pub struct Certificate {
    pub bounds: Seq<u16>,
    /// The ordinals of the entries, from the first to the last.
    pub path: Seq<u32>,
    /// One for each entry of the span, by rising ordinal.
    pub potentials: Seq<i64>,
    pub total: i64,
}

/// A value for a segment. A value that a rule added has no cost.
#[derive(Drop)]
pub struct Candidate {
    pub value: Text,
    pub cost: Option<i64>,
}

/// A reading and the value that was chosen for it.
#[derive(Drop)]
pub struct Pair {
    pub key: Text,
    pub value: Text,
}
