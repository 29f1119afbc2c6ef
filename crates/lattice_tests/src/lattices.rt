//! Small lattices of the example's set, and all their lists of touching entries, one by one.
ghost use Rattle.std.specs.Prelude.{◌≤◌, ◌≤ℤ◌, neg_ℤ, pos, IfOk};
ghost use Rattle.conversion_meaning.specs.Lattices.{IsWellFormed};
ghost use Rattle.conversion_meaning.specs.Examples.{set};

use example_set::{ExampleSet, HA, KYOU, KYOUHA, Row, kyouha_lattice, lattice_of};
use mz_base::{DataSet, Entry, Lattice, NoMemory};
use std::alloc::Global;

pub const LATTICES: usize = 7;

// The lattice of きょうは with a bound after き.
const CUT: [Row; 6] = [
    (0, 1, 1, 5000),
    (1, 2, 1, 5000),
    (2, 3, 1, 5000),
    (3, 4, 2, 100),
    (3, 4, 1, 600),
    (3, 4, 1, 5000),
];

// は (the word), 葉, は (the character).
const HA_ROWS: [Row; 3] = [(0, 1, 2, 100), (0, 1, 1, 600), (0, 1, 1, 5000)];

// 藻, 喪, も.
const MO_ROWS: [Row; 3] = [(0, 1, 1, 300), (0, 1, 1, 300), (0, 1, 1, 5000)];

// A character that no word explains.
const A_ROWS: [Row; 1] = [(0, 1, 1, 5000)];

// All paths cost the same: a connection of 400 is saved where an entry costs 400 more.
const EQUAL: [Row; 9] = [
    (0, 1, 1, 0),
    (0, 1, 1, 0),
    (0, 2, 1, 400),
    (0, 3, 1, 800),
    (1, 2, 1, 0),
    (1, 2, 1, 0),
    (1, 3, 1, 400),
    (2, 3, 1, 0),
    (2, 3, 1, 0),
];

// All ids, and costs below 0.
const MIXED: [Row; 13] = [
    (0, 1, 0, -5),
    (0, 1, 2, -5),
    (0, 2, 1, 0),
    (1, 2, 0, 10),
    (1, 2, 1, 10),
    (1, 3, 2, -100),
    (1, 4, 0, 3),
    (2, 3, 0, 0),
    (2, 3, 2, 0),
    (2, 4, 1, 7),
    (3, 4, 0, 1),
    (3, 4, 1, 1),
    (3, 4, 2, 1),
];

/// One of the lattices, by its number.
pub fn lattice_at(alloc: Global, number: usize) -> Result<Lattice, NoMemory>
    ensures { IfOk result (IsWellFormed set) }
{
    match number {
        0 => kyouha_lattice(alloc),
        1 => lattice_of(alloc, &KYOUHA, &CUT, &[0, 1, 2, 3, 4, 5]),
        2 => lattice_of(alloc, &HA, &HA_ROWS, &[0, 1, 2]),
        3 => lattice_of(alloc, &HA, &MO_ROWS, &[0, 1, 2]),
        4 => lattice_of(alloc, &HA, &A_ROWS, &[0]),
        5 => lattice_of(alloc, &KYOU, &EQUAL, &[0, 1, 2, 4, 5, 3, 6, 7, 8]),
        _ => lattice_of(
            alloc,
            &KYOUHA,
            &MIXED,
            &[0, 1, 2, 3, 4, 5, 7, 8, 6, 9, 10, 11, 12],
        ),
    }
}

/// The end of the key, of at most 4 characters.
pub fn end_of(lattice: &Lattice) -> u16
    ensures { result ≤ 4 }
{
    lattice.key.as_slice().len().min(4) as u16
}

/// A list of touching entries, where it ends, and what it costs up to there.
#[derive(Drop)]
pub struct Try {
    pub ordinals: Vec<u32>,
    pub end: u16,
    pub rid: u16,
    pub cost: i64,
}

/// The lists that begin at a position, after an entry with this right id, and end no later than another.
pub fn tries_of(
    alloc: Global,
    entries: &[Entry],
    begin: u16,
    end: u16,
    left: u16,
) -> Result<Vec<Try>, NoMemory> {
    let mut tries = Vec::new(alloc);
    tries.push(Try {
        ordinals: Vec::new(alloc),
        end: begin,
        rid: left,
        cost: 0,
    })?;
    for place in 0..1000 {
        push_longer(alloc, entries, end, place, &mut tries)?;
    }
    Ok(tries)
}

// Adds the lists that are longer by one entry than the one of this place.
fn push_longer(
    alloc: Global,
    entries: &[Entry],
    last: u16,
    place: usize,
    tries: &mut Vec<Try>,
) -> Result<(), NoMemory> {
    for ordinal in 0..entries.len().min(100) as u32 {
        let entry = entries[ordinal as usize];
        if place < tries.len() && tries[place].end == entry.begin && entry.end <= last {
            let mut ordinals = Vec::from_slice(alloc, tries[place].ordinals.as_slice())?;
            ordinals.push(ordinal)?;
            let step = connection(tries[place].rid, entry.lid) + i64::from(entry.cost);
            let cost = tries[place].cost.wrapping_add(step);
            tries.push(Try {
                ordinals,
                end: entry.end,
                rid: entry.rid,
                cost,
            })?;
        }
    }
    Ok(())
}

pub fn connection(r: u16, l: u16) -> i64
    ensures low { neg_ℤ (pos 2147483648) ≤ℤ result }
    ensures high { result ≤ℤ pos 2147483647 }
{
    if r < 3 && l < 3 {
        i64::from(ExampleSet.conn(r, l))
    } else {
        0
    }
}
