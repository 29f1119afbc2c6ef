use crate::heads::Head;
use crate::packed::Packed;
use mz_base::NoMemory;
use std::alloc::Global;

/// How many letters the longest prefix with a guess has.
const GUESSED_LETTERS: usize = 4;
/// The factor of the letters before the last, in a hash.
const FACTOR: u32 = 0x9E37_79B1;

/// Where the heads of a prefix may start and end. Nothing is promised of it: whoever uses a guess tests it.
#[derive(Clone, Copy)]
pub struct Guess {
    pub start: u32,
    pub end: u32,
}

/// Guesses by a hash of the prefix. Prefixes that share a slot spoil each other's guess, and no more.
#[derive(Drop)]
pub struct Guesses {
    slots: Vec<Guess>,
}

impl Guesses {
    /// Guesses from the heads of texts in the order of the texts.
    pub fn of(alloc: Global, texts: &Packed, heads: &[Head]) -> Result<Guesses, NoMemory> {
        let none = Guess { start: 0, end: 0 };
        let mut guesses = Guesses {
            slots: vec![in alloc; none; heads.len()]?,
        };
        let mut place = 0;
        for head in heads {
            guesses.note(texts.get(head.place), place);
            place = next(place);
        }
        Ok(guesses)
    }

    /// The head at this place has this text.
    fn note(&mut self, text: &[char], place: u32) {
        let mut hash = 0;
        for letter in text.iter().take(GUESSED_LETTERS) {
            hash = longer(hash, *letter);
            self.put(hash, place);
        }
    }

    /// The head at this place has a prefix with this hash.
    fn put(&mut self, hash: u32, place: u32) {
        let slot = slot_of(hash, self.slots.len());
        if let Some(guess) = self.slots.get_mut(slot) {
            if guess.end != place {
                guess.start = place;
            }
            guess.end = next(place);
        }
    }

    /// The guess for a prefix with this hash.
    pub fn at(&self, hash: u32) -> Guess {
        match self.slots.get(slot_of(hash, self.slots.len())) {
            Some(guess) => *guess,
            None => Guess { start: 0, end: 0 },
        }
    }
}

fn next(place: u32) -> u32 {
    place.wrapping_add(1)
}

/// The slot of a hash among so many: its share of them.
fn slot_of(hash: u32, slots: usize) -> usize {
    ((hash as u128 * slots as u128) >> 32) as usize
}

/// The hash of a prefix that is one letter longer.
pub fn longer(hash: u32, letter: char) -> u32 {
    (hash ^ letter as u32).wrapping_mul(FACTOR)
}
