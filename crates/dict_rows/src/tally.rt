ghost use Rattle.std.specs.Prelude.{◌≡◌, ◌++◌, ◌∷◌, [], List, IfOk, length, nat_le};
ghost use Rattle.mz_base.specs.declared.data.TheConstants.{MOST_HOMOPHONES};
ghost use Rattle.mz_base.specs.Data.{times_in};
ghost use Rattle.dict_rows.specs.declared.bucket.TheConstants.{BUCKETS};

use crate::bucket::{BUCKETS, bucket_of};
use mz_base::{MOST_HOMOPHONES, NoMemory, Text, WordRow};
use std::alloc::Global;

/// How many rows have a reading of each bucket, up to `MOST_HOMOPHONES`.
///
/// A bucket is a hash of a reading, so different readings may share one, and no reading is kept.
/// Only where a bucket is full, the rows with exactly the reading are counted.
#[derive(Drop)]
pub struct Tally {
    counts: Vec<u16>,
}

impl Tally {
    ghost use Rattle.mz_base.specs.declared.data.WordRow.{WordRow};
    ghost use Rattle.dict_rows.specs.Tally.{IsTally, count_of};

    /// The tally of these rows.
    pub fn of(alloc: Global, rows: &[WordRow]) -> Result<Tally, NoMemory>
        ensures { IfOk result (λ tally. IsTally tally rows.now) }
    {
        let mut tally = Tally {
            counts: vec![in alloc; 0u16; BUCKETS]?,
        };
        for row in rows {
            tally.note(&row.reading);
        }
        Ok(tally)
    }

    /// Whether as many of these rows have this reading as may.
    pub fn is_full(&self, rows: &[WordRow], reading: &Text) -> bool
        requires { IsTally self.now rows.now }
        ensures { result ≡ nat_le MOST_HOMOPHONES (times_in rows.now reading.now) }
    {
        MOST_HOMOPHONES <= self.count(reading) && MOST_HOMOPHONES <= times_in(rows, reading)
    }

    /// One row more has this reading.
    pub fn note(&mut self, reading: &Text)
        requires { length self.old.counts.items ≡ BUCKETS }
        ensures { (rows : List WordRow) (row : WordRow) → IsTally self.old rows → row.reading ≡ reading.now → IsTally self.new (rows ++ row ∷ []) }
    {
        if self.count(reading) < MOST_HOMOPHONES {
            self.counts[bucket_of(reading.as_chars())] += 1;
        }
    }

    /// The count of the reading's bucket.
    fn count(&self, reading: &Text) -> usize
        requires { length self.now.counts.items ≡ BUCKETS }
        ensures { result ≡ count_of self.now reading.now }
    {
        self.counts[bucket_of(reading.as_chars())] as usize
    }
}

/// How many of these rows have exactly this reading.
fn times_in(rows: &[WordRow], reading: &Text) -> usize
    ensures { result ≡ times_in rows.now reading.now }
{
    rows.iter()
        .filter(|row| row.reading.as_chars() == reading.as_chars())
        .count()
}
