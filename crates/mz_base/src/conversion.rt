use crate::{Candidate, Certificate, Pair, Seq};

/// A part of a converted key, in characters, and what may stand for it. The first candidate is shown first.
#[derive(Drop)]
pub struct Segment {
    pub begin: u16,
    pub end: u16,
    pub candidates: Seq<Candidate>,
}

/// The answer of a key.
#[derive(Drop)]
pub struct Conversion {
    pub certificate: Certificate,
    /// They touch, from the key's begin to its end.
    pub segments: Seq<Segment>,
}

/// What a rewriting rule sees beside the candidates: the data set, the history, newest first, and the segment's key.
#[derive(Clone, Copy)]
pub struct Ask<'a, D> {
    pub set: &'a D,
    pub history: &'a [Pair],
    pub key: &'a [char],
}
