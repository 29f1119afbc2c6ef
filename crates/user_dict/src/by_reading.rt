ghost use Rattle.std.specs.Prelude.{◌≡◌, ◌<◌, ◌≤◌, [], IfOk, length};
ghost use Rattle.std.specs.Cmp.Lexicographic.{slice_cmp};
ghost use Rattle.std.specs.Ordering.{nat_cmp};
ghost use Rattle.mz_base.specs.Users.{longest_reading, user_row_at, user_rows_with};
ghost use Rattle.mz_base.specs.declared.user.TheConstants.{MOST_USER_ROWS};
ghost use Rattle.dict_index.specs.Order.{IsIndex, text_at};
ghost use Rattle.user_dict.specs.Readings.{user_readings};

use mz_base::{MOST_USER_ROWS, NoMemory, UserRow};
use std::alloc::Global;
use std::cmp::Ordering;
use std::marker::Model;

/// Rows, and their places in the order of their readings. Seen as the rows.
#[derive(Drop)]
pub struct ByReading {
    rows: Vec<UserRow>,
    places: Vec<u32>,
    /// The most characters of a reading.
    longest: usize,
}

impl Model for ByReading {
    ghost use Rattle.std.specs.Prelude.{◌≡◌, List};
    ghost use Rattle.mz_base.specs.Users.{longest_reading};
    ghost use Rattle.mz_base.specs.declared.user.UserRow.{UserRow};
    ghost use Rattle.dict_index.specs.Order.{IsIndex};
    ghost use Rattle.user_dict.specs.Readings.{user_readings};

    ghost Value = { List UserRow };

    ghost view = { λ r. r.rows.items };

    ghost invariant = { λ r. IsIndex (user_readings r.rows.items) r.places.items × (r.longest ≡ longest_reading r.rows.items) };
}

impl ByReading {
    /// No rows. Takes no memory.
    #[tactic(auto, using(crate::proofs::PlaceLemmas::no_places), unfolding(mz_base::specs::Users::longest_reading))]
    pub fn none(alloc: Global) -> ByReading
        ensures { result ≡ [] }
    {
        ByReading {
            rows: Vec::new(alloc),
            places: Vec::new(alloc),
            longest: 0,
        }
    }

    pub fn of(alloc: Global, rows: Vec<UserRow>) -> Result<ByReading, NoMemory>
        requires { length rows.items ≤ MOST_USER_ROWS }
        ensures { IfOk result (λ made. made ≡ rows.items) }
    {
        let places = places_in_order(alloc, rows.as_slice())?;
        let longest = longest_of(rows.as_slice());
        Ok(ByReading {
            rows,
            places,
            longest,
        })
    }

    pub fn rows(&self) -> &[UserRow]
        ensures { result.now ≡ self.now }
    {
        self.rows.as_slice()
    }

    pub fn row(&self, place: u32) -> &UserRow
        requires { place < length self.now }
        ensures { result.now ≡ user_row_at self.now place }
    {
        &self.rows[place as usize]
    }

    pub fn longest(&self) -> usize
        ensures { result ≡ longest_reading self.now }
    {
        self.longest
    }

    /// The places of the rows with this reading, rising.
    pub fn places_of(&self, reading: &[char]) -> &[u32]
        ensures { result.now ≡ user_rows_with self.now reading.now }
    {
        places_of(self.rows.as_slice(), self.places.as_slice(), reading)
    }
}

/// The places of the rows with this reading: they stand together.
fn places_of<'a>(rows: &[UserRow], places: &'a [u32], reading: &[char]) -> &'a [u32]
    requires { IsIndex (user_readings rows.now) places.now }
    ensures { result.now ≡ user_rows_with rows.now reading.now }
{
    let start = places.partition_point(|place| compare(rows, *place, reading).is_lt());
    let (_, rest) = places.split_at(start);
    let count = rest.partition_point(|place| compare(rows, *place, reading).is_le());
    let (found, _) = rest.split_at(count);
    found
}

/// How the reading of the row at a place stands to this one.
fn compare(rows: &[UserRow], place: u32, reading: &[char]) -> Ordering
    ensures { result ≡ slice_cmp nat_cmp (text_at (user_readings rows.now) place) reading.now }
{
    reading_at(rows, place).cmp(reading)
}

/// The reading of the row at a place, and no characters past the last.
fn reading_at(rows: &[UserRow], place: u32) -> &[char]
    ensures { result.now ≡ text_at (user_readings rows.now) place }
{
    match rows.get(place as usize) {
        Some(row) => row.reading.as_chars(),
        None => &[],
    }
}

/// The places of the rows, in the order of the readings.
fn places_in_order(alloc: Global, rows: &[UserRow]) -> Result<Vec<u32>, NoMemory>
    requires { length rows.now ≤ MOST_USER_ROWS }
    ensures { IfOk result (λ places. IsIndex (user_readings rows.now) places.items) }
{
    let mut places: Vec<u32> = (0..rows.len() as u32).collect(alloc)?;
    places.sort_by(|place, other| reading_at(rows, *place).cmp(reading_at(rows, *other)))?;
    Ok(places)
}

/// The most characters of a reading.
#[tactic(auto, unfolding(mz_base::specs::Users::longest_reading))]
fn longest_of(rows: &[UserRow]) -> usize
    ensures { result ≡ longest_reading rows.now }
{
    let mut longest = 0;
    for row in rows {
        longest = longest.max(row.reading.as_chars().len());
    }
    longest
}
