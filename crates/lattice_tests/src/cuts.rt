ghost use Rattle.std.specs.Prelude.{◌≤◌, length, IfOk};
ghost use Rattle.conversion_meaning.specs.Examples.{set};
ghost use Rattle.conversion_meaning.specs.Lattices.{IsKey, IsWellFormed};

use example_set::ExampleSet;
use lattice::build;
use mz_base::{Lattice, MOST_KEY, NoMemory, NoUserWords, Span};
use segments::{cut, resize};
use std::alloc::Global;
use std::test::Fail;
use viterbi::solve;

// A key, a bound in it, none at 0, and the segments of its best path: the ids of きょう and は join, and so do those of う
// and は; those of other neighbours do not.
const CUTS: [(&str, u16, &str); 7] = [
    ("きょうは", 0, "0 4, "),
    ("きょうは", 1, "0 1, 1 2, 2 4, "),
    ("きょうは", 2, "0 2, 2 4, "),
    ("きょうは", 3, "0 3, 3 4, "),
    ("きょうは", 4, "0 4, "),
    ("あああ", 0, "0 1, 1 2, 2 3, "),
    ("あああ", 2, "0 2, 2 3, "),
];

#[test]
fn cuts_a_path_at_bounds_and_where_ids_do_not_join(rt: HostRuntime) -> Result<(), Fail> {
    for (key, bound, wanted) in CUTS {
        let parts = parts_of(rt.alloc(), key, bound)?;
        assert_eq!(rt; parts.as_str(), wanted, "at {key} {bound}");
    }
    Ok(())
}

// A place among the segments 0 to 1, 1 to 2 and 2 to 4 of four characters, the change of the segment's length, and the
// bounds.
const RESIZES: [(usize, i32, &str); 10] = [
    (0, 1, "2 "),
    (0, 3, "4 "),
    (0, 4, "none"),
    (0, -1, "none"),
    (1, 2, "1 4 "),
    (1, 0, "1 2 "),
    (1, -1, "none"),
    (2, -1, "1 2 3 "),
    (2, i32::MAX, "none"),
    (2, i32::MIN, "none"),
];

#[test]
fn gives_the_bounds_of_a_wider_segment(rt: HostRuntime) -> Result<(), Fail> {
    for (place, by, wanted) in RESIZES {
        let bounds = resized(rt.alloc(), place, by)?;
        assert_eq!(rt; bounds.as_str(), wanted, "at {place} {by}");
    }
    Ok(())
}

fn parts_of(alloc: Global, text: &str, bound: u16) -> Result<String, NoMemory> {
    let key: Vec<char> = text.chars().collect(alloc)?;
    if key.is_empty() || key.len() > MOST_KEY || usize::from(bound) > key.len() {
        return Ok(String::new(alloc));
    }
    let lattice = lattice_of(alloc, key.as_slice(), bound)?;
    parts_in(alloc, &lattice)
}

fn lattice_of(alloc: Global, key: &[char], bound: u16) -> Result<Lattice, NoMemory>
    requires key { IsKey key.now }
    requires bound { bound ≤ length key.now }
    ensures { IfOk result (IsWellFormed set) }
{
    let user = NoUserWords::new(alloc);
    if bound == 0 {
        build(alloc, &ExampleSet, &user, key, &[])
    } else {
        build(alloc, &ExampleSet, &user, key, &[bound])
    }
}

fn parts_in(alloc: Global, lattice: &Lattice) -> Result<String, NoMemory>
    requires { IsWellFormed set lattice.now }
{
    let end = lattice.key.as_slice().len() as u16;
    let span = Span {
        begin: 0,
        end,
        left: 0,
        right: 0,
    };
    let solved = solve(alloc, &ExampleSet, lattice, &span)?;
    let parts = cut(alloc, &ExampleSet, lattice, solved.path.as_slice())?;
    let mut text = String::new(alloc);
    for (begin, end) in &parts {
        write!(text, "{begin} {end}, ")?;
    }
    Ok(text)
}

fn resized(alloc: Global, place: usize, by: i32) -> Result<String, NoMemory> {
    let mut text = String::new(alloc);
    if place >= 3 {
        return Ok(text);
    }
    match resize(alloc, &[(0, 1), (1, 2), (2, 4)], place, by, 4)? {
        Some(bounds) => {
            for bound in &bounds {
                write!(text, "{bound} ")?;
            }
        }
        None => text.push_str("none")?,
    }
    Ok(text)
}
