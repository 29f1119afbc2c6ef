ghost use Rattle.std.specs.Prelude.{◌≡◌, ◌≤◌, [], IfOk, length};
ghost use Rattle.mz_base.specs.declared.user.TheConstants.{MOST_USER_ROWS};

use crate::by_reading::ByReading;
use crate::skipped::SkippedLine;
use mz_base::{MOST_USER_ROWS, NoMemory, UserRow, UserWords};
use std::alloc::Global;

/// A user's dictionary: the rows that were kept, in the order of their lines, and the lines that were skipped.
#[derive(Drop)]
pub struct UserDict {
    kept: ByReading,
    skipped: Vec<SkippedLine>,
    ghost few: { length kept ≤ MOST_USER_ROWS },
}

impl UserDict {
    ghost use Rattle.user_dict.specs.Dictionaries.{taken_in};

    /// No rows, and no line was skipped. Takes no memory.
    pub fn empty(alloc: Global) -> UserDict
        ensures rows { ⟦<UserDict as UserWords>⟧.rows result ≡ [] }
        ensures skipped { (taken_in result).skipped ≡ [] }
    {
        UserDict {
            kept: ByReading::none(alloc),
            skipped: Vec::new(alloc),
        }
    }

    /// The dictionary of these rows.
    pub(crate) fn of(
        alloc: Global,
        rows: Vec<UserRow>,
        skipped: Vec<SkippedLine>,
    ) -> Result<UserDict, NoMemory>
        requires { length rows.items ≤ MOST_USER_ROWS }
        ensures rows { IfOk result (λ dict. ⟦<UserDict as UserWords>⟧.rows dict ≡ rows.items) }
        ensures skipped { IfOk result (λ dict. dict.skipped.items ≡ skipped.items) }
    {
        let kept = ByReading::of(alloc, rows)?;
        Ok(UserDict { kept, skipped })
    }

    /// The rows that were kept, in the order of their lines.
    pub fn rows(&self) -> &[UserRow]
        ensures { result.now ≡ ⟦<UserDict as UserWords>⟧.rows self.now }
    {
        self.kept.rows()
    }

    /// The lines that were skipped, in order.
    pub fn skipped(&self) -> &[SkippedLine]
        ensures { result.now ≡ (taken_in self.now).skipped }
    {
        self.skipped.as_slice()
    }
}

impl UserWords for UserDict {
    ghost rows = { λ dict. dict.kept };

    ghost few = { λ dict. dict.few };

    fn rows_of(&self, reading: &[char]) -> &[u32] {
        self.kept.places_of(reading)
    }

    fn row(&self, place: u32) -> &UserRow {
        self.kept.row(place)
    }

    fn longest_reading(&self) -> usize {
        self.kept.longest()
    }
}
