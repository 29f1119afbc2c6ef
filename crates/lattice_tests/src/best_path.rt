ghost use Rattle.conversion_meaning.specs.Lattices.{IsWellFormed};
ghost use Rattle.conversion_meaning.specs.Examples.{set};

use crate::lattices::{LATTICES, Try, connection, end_of, lattice_at, tries_of};
use example_set::ExampleSet;
use mz_base::{Lattice, NoMemory, Span};
use std::alloc::Global;
use std::test::Fail;
use viterbi::solve;

// A lattice by its number, and the path, the total and the potentials over the whole key.
const WHOLE: [(usize, &str); 5] = [
    (0, "1 5 | 750 | 5100 400 450 10500 15900 550 1400 5800 "),
    (1, "0 1 2 3 | 16250 | 5100 10500 15900 16050 16900 21300 "),
    (2, "0 | 800 | 600 700 5100 "),
    (3, "0 | 500 | 400 400 5100 "),
    (4, "0 | 5200 | 5100 "),
];

#[test]
fn gives_the_path_of_a_whole_key(rt: HostRuntime) -> Result<(), Fail> {
    for (number, wanted) in WHOLE {
        let lattice = lattice_at(rt.alloc(), number)?;
        let end = end_of(&lattice);
        let text = solved(rt.alloc(), &lattice, 0, end, 0, 0)?;
        assert_eq!(rt; text.as_str(), wanted, "at {number}");
    }
    Ok(())
}

// A lattice by its number, a span, and the path, the total and the potentials over it.
const INNER: [(usize, u16, u16, u16, u16, &str); 4] = [
    (0, 3, 4, 1, 0, "5 | 350 | 150 1000 5400 "),
    (0, 1, 3, 2, 1, "3 4 | 10900 | 5100 10500 "),
    (5, 1, 3, 1, 1, "6 | 1200 | 400 400 800 800 800 "),
    (6, 1, 3, 2, 0, "3 7 | 210 | 210 110 700 210 160 "),
];

#[test]
fn gives_the_path_of_a_span(rt: HostRuntime) -> Result<(), Fail> {
    for (number, begin, end, left, right, wanted) in INNER {
        let lattice = lattice_at(rt.alloc(), number)?;
        let text = solved(rt.alloc(), &lattice, begin, end, left, right)?;
        assert_eq!(rt; text.as_str(), wanted, "at {number} {begin} {end}");
    }
    Ok(())
}

#[test]
fn agrees_with_all_paths(rt: HostRuntime) -> Result<(), Fail> {
    for number in 0..LATTICES {
        let lattice = lattice_at(rt.alloc(), number)?;
        for begin in 0..end_of(&lattice) {
            for end in begin + 1..end_of(&lattice) + 1 {
                for (left, right) in [(0, 0), (0, 2), (1, 0), (1, 1), (2, 1), (2, 2)] {
                    let text = solved(rt.alloc(), &lattice, begin, end, left, right)?;
                    let wanted = tried(rt.alloc(), &lattice, begin, end, left, right)?;
                    assert_eq!(rt; text.as_str(), wanted.as_str(), "at {number} {begin} {end}");
                }
            }
        }
    }
    Ok(())
}

// What `solve` gives; nothing for what is no span.
fn solved(
    alloc: Global,
    lattice: &Lattice,
    begin: u16,
    end: u16,
    left: u16,
    right: u16,
) -> Result<String, NoMemory>
    requires { IsWellFormed set lattice.now }
{
    if begin >= end || usize::from(end) > lattice.key.as_slice().len() || left >= 3 || right >= 3 {
        return Ok(String::new(alloc));
    }
    let span = Span {
        begin,
        end,
        left,
        right,
    };
    let certificate = solve(alloc, &ExampleSet, lattice, &span)?;
    text_of(
        alloc,
        certificate.path.as_slice(),
        certificate.total,
        certificate.potentials.as_slice(),
    )
}

fn text_of(
    alloc: Global,
    path: &[u32],
    total: i64,
    potentials: &[i64],
) -> Result<String, NoMemory> {
    let mut text = String::new(alloc);
    for ordinal in path {
        write!(text, "{ordinal} ")?;
    }
    write!(text, "| {total} | ")?;
    for potential in potentials {
        write!(text, "{potential} ")?;
    }
    Ok(text)
}

// The same by all lists of touching entries, one by one.
fn tried(
    alloc: Global,
    lattice: &Lattice,
    begin: u16,
    end: u16,
    left: u16,
    right: u16,
) -> Result<String, NoMemory> {
    let entries = lattice.entries.as_slice();
    let tries = tries_of(alloc, entries, begin, end, left)?;
    let tries = tries.as_slice();
    let mut potentials = Vec::new(alloc);
    for ordinal in 0..entries.len() {
        if begin <= entries[ordinal].begin && entries[ordinal].end <= end {
            potentials.push(least_to(tries, ordinal))?;
        }
    }
    let (path, total) = best_to(alloc, tries, end, right)?;
    text_of(alloc, path.as_slice(), total, potentials.as_slice())
}

// The least cost of a list that ends with the entry.
fn least_to(tries: &[Try], ordinal: usize) -> i64 {
    let mut least = i64::MAX;
    for other in tries {
        match other.ordinals.as_slice().last() {
            Some(last) if *last as usize == ordinal && other.cost < least => least = other.cost,
            _ => {}
        }
    }
    least
}

// The least of the whole paths, and of several the one whose ordinals from the last are lower.
fn best_to(
    alloc: Global,
    tries: &[Try],
    end: u16,
    right: u16,
) -> Result<(Vec<u32>, i64), NoMemory> {
    let mut total = i64::MAX;
    let mut best: &[u32] = &[];
    for other in tries {
        let cost = other.cost.wrapping_add(connection(other.rid, right));
        let path = other.ordinals.as_slice();
        if other.end == end && (cost < total || cost == total && is_lower(path, best)) {
            total = cost;
            best = path;
        }
    }
    Ok((Vec::from_slice(alloc, best)?, total))
}

fn is_lower(path: &[u32], other: &[u32]) -> bool {
    for (a, b) in path.iter().rev().zip(other.iter().rev()) {
        if a != b {
            return a < b;
        }
    }
    false
}
