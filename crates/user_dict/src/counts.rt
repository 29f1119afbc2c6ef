ghost use Rattle.std.specs.Prelude.{◌≡◌, ◌+◌, ◌<◌, List, ℕ, OnOk, if◌then◌else◌};
ghost use Rattle.std.specs.Str.{bytes_eq};
ghost use Rattle.mz_base.specs.declared.user.TheConstants.{MOST_USER_HOMOPHONES};

use mz_base::{MOST_USER_HOMOPHONES, NoMemory};
use std::alloc::Global;
use std::collections::HashMap;

/// How many rows have each reading.
#[derive(Drop)]
pub struct Counts {
    by_reading: HashMap<Vec<char>, usize>,
}

impl Counts {
    ghost use Rattle.std.specs.Prelude.{[]};
    ghost use Rattle.user_dict.specs.Kept.{AreCounts, count_of};

    /// No rows.
    pub fn new(alloc: Global) -> Counts
        ensures { AreCounts result [] }
    {
        Counts {
            by_reading: HashMap::new(alloc),
        }
    }

    pub fn get(&self, reading: &[char]) -> usize
        ensures { result ≡ count_of self.now reading.now }
    {
        match self.by_reading.get(reading) {
            Some(count) => *count,
            None => 0,
        }
    }

    /// One row more has this reading.
    pub fn add(&mut self, reading: Vec<char>) -> Result<(), NoMemory>
        requires { count_of self.old reading.items < MOST_USER_HOMOPHONES }
        ensures { OnOk result ((text : List ℕ) → count_of self.new text ≡ count_of self.old text + (if bytes_eq text reading.items then 1 else 0)) }
    {
        let count = self.get(reading.as_slice());
        self.by_reading.insert(reading, count + 1)?;
        Ok(())
    }
}
