ghost use Rattle.std.specs.Prelude.{◌≡◌, ◌≤◌, [], IfOk, length, map, slice_index_or};
ghost use Rattle.mz_base.specs.declared.data.TheConstants.{MOST_WORDS};
ghost use Rattle.mz_base.specs.declared.data.WordRow.{WordRow};

use mz_base::{NoMemory, WordRow};
use std::alloc::Global;
use std::marker::Model;

/// Texts in one list of characters.
#[derive(Drop)]
pub struct Packed {
    letters: Vec<char>,
    /// Where each text starts, and where the last one ends.
    starts: Vec<usize>,
}

impl Model for Packed {
    ghost use Rattle.std.specs.Prelude.{ℕ, List};
    ghost use Rattle.dict_index.specs.Packed.{IsPacked, texts_of};

    ghost Value = { List (List ℕ) };

    ghost view = { λ p. texts_of p.letters.items p.starts.items };

    ghost invariant = { λ p. IsPacked p.letters.items p.starts.items };
}

impl Packed {
    /// The readings of the rows.
    pub fn of_readings(alloc: Global, rows: &[WordRow]) -> Result<Packed, NoMemory>
        requires { length rows.now ≤ MOST_WORDS }
        ensures { IfOk result (λ texts. texts ≡ map (λ (row : WordRow). row.reading) rows.now) }
    {
        let mut letters = Vec::new(alloc);
        let mut starts = Vec::with_capacity(alloc, rows.len() + 1)?;
        starts.push(0)?;
        for row in rows {
            letters.extend_from_slice(row.reading.as_chars())?;
            starts.push(letters.len())?;
        }
        letters.shrink_to_fit();
        Ok(Packed { letters, starts })
    }

    /// The text at this place, and no characters past the last.
    pub fn get(&self, place: u32) -> &[char]
        ensures { result.now ≡ slice_index_or self.now place [] }
    {
        let place = place as usize;
        if self.starts.len() <= place + 1 {
            return &[];
        }
        let start = self.starts[place];
        let (front, _) = self.letters.as_slice().split_at(self.starts[place + 1]);
        let (_, text) = front.split_at(start);
        text
    }

    /// How many texts there are.
    pub fn len(&self) -> usize
        ensures { result ≡ length self.now }
    {
        self.starts.len() - 1
    }
}
