ghost use Rattle.std.specs.Prelude.{◌≡◌, ◌<◌, ◌≤◌, List, length};
ghost use Rattle.mz_base.specs.Users.{longest_reading, user_rows_with, user_row_at};
ghost use Rattle.mz_base.specs.declared.user.UserRow.{UserRow};

use crate::Text;

/// The most rows of a user's dictionary.
pub const MOST_USER_ROWS: usize = 100_000;
/// The most rows of a user's dictionary that have one reading.
pub const MOST_USER_HOMOPHONES: usize = 500;

/// A row of a user's dictionary.
#[derive(Drop)]
pub struct UserRow {
    pub reading: Text,
    pub word: Text,
    /// The part of speech, by its name in the data set.
    pub pos: Text,
    /// The line of the file, from 1.
    pub line: u64,
}

/// The words of a user's dictionary. No call takes memory.
pub trait UserWords {
    ghost use Rattle.mz_base.specs.declared.user.TheConstants.{MOST_USER_ROWS};

    /// The rows, in the dictionary's order.
    ghost rows: { Self → List UserRow };

    /// The places of the rows with this reading, rising.
    fn rows_of(&self, reading: &[char]) -> &[u32]
        ensures { result.now ≡ user_rows_with (rows self.now) reading.now };

    fn row(&self, place: u32) -> &UserRow
        requires { place < length (rows self.now) }
        ensures { result.now ≡ user_row_at (rows self.now) place };

    /// The most characters of a reading, 0 where there are no rows.
    fn longest_reading(&self) -> usize
        ensures { result ≡ longest_reading (rows self.now) };

    /// There are not too many.
    ghost few: { (x : Self) → length (rows x) ≤ MOST_USER_ROWS };
}
