/// Why a line was skipped.
#[derive(Clone, Copy, Debug, PartialEq, Eq)]
pub enum Skip {
    /// It has fewer than three fields.
    Fields,
    /// Its reading is empty.
    Reading,
    /// Its word is empty.
    Word,
    /// Its reading or its word is too long, or its reading has as many rows as may be.
    Limit,
}

/// A line that was skipped, by its number from 1.
#[derive(Clone, Copy)]
pub struct SkippedLine {
    pub line: u64,
    pub why: Skip,
}
