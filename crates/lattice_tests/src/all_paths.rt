ghost use Rattle.std.specs.Prelude.{◌≡◌, ◌≤◌, length, IfOk, []};
ghost use Rattle.conversion_meaning.specs.Lattices.{IsKey, IsLatticeOf, IsWellFormed};
ghost use Rattle.conversion_meaning.specs.Examples.{set};
ghost use Rattle.lattice_tests.specs.Spans.{is_span};

use crate::lattices::{LATTICES, connection, end_of, lattice_at, tries_of};
use example_set::ExampleSet;
use lattice::build;
use mz_base::{Candidate, Lattice, MOST_KEY, NoMemory, NoUserWords, Span};
use nbest::{Found, NBest, distinct};
use std::alloc::Global;
use std::test::Fail;
use viterbi::solve;

// A lattice by its number, a span with the ids beside it, and all paths over it in order, each with its cost; then a
// point for each call that gives none.
const PATHS: [(usize, u16, u16, u16, u16, &str); 8] = [
    (
        0,
        0,
        4,
        0,
        0,
        "1 5 = 750, 2 5 = 800, 1 6 = 1500, 2 6 = 1550, 1 7 = 5900, 2 7 = 5950, 0 3 4 5 = 16250, 0 3 4 6 = 17000, 0 3 4 7 = 21400, ....................................",
    ),
    (
        0,
        3,
        4,
        1,
        0,
        "5 = 350, 6 = 1100, 7 = 5500, ..........................................",
    ),
    (
        3,
        0,
        1,
        0,
        0,
        "0 = 500, 1 = 500, 2 = 5200, ..........................................",
    ),
    (
        4,
        0,
        1,
        0,
        0,
        "0 = 5200, ............................................",
    ),
    (
        5,
        0,
        3,
        0,
        0,
        "3 = 1000, 0 6 = 1000, 1 6 = 1000, 2 7 = 1000, 0 4 7 = 1000, 1 4 7 = 1000, 0 5 7 = 1000, 1 5 7 = 1000, 2 8 = 1000, 0 4 8 = 1000, 1 4 8 = 1000, 0 5 8 = 1000, 1 5 8 = 1000, ................................",
    ),
    (
        5,
        1,
        3,
        1,
        1,
        "6 = 1200, 4 7 = 1200, 5 7 = 1200, 4 8 = 1200, 5 8 = 1200, ........................................",
    ),
    (
        6,
        0,
        4,
        0,
        0,
        "0 6 = -2, 0 3 7 10 = 6, 2 7 10 = 201, 0 4 7 10 = 206, 0 3 7 11 = 206, 0 3 9 = 212, 2 8 10 = 351, 2 8 11 = 351, 0 4 8 10 = 356, 0 4 8 11 = 356, 2 7 11 = 401, 0 4 7 11 = 406, 0 5 10 = 596, 0 5 11 = 596, 2 9 = 607, 0 4 9 = 612, 1 6 = 698, 1 3 7 10 = 706, 1 4 7 10 = 706, 0 3 8 10 = 706, 0 3 8 11 = 706, 0 3 7 12 = 706, 1 4 8 10 = 856, 1 4 8 11 = 856, 2 7 12 = 901, 1 3 7 11 = 906, 1 4 7 11 = 906, 0 4 7 12 = 906, 1 3 9 = 912, 1 4 9 = 1112, 2 8 12 = 1151, 0 4 8 12 = 1156, 1 5 10 = 1396, 1 5 11 = 1396, 0 5 12 = 1396, 1 3 8 10 = 1406, 1 3 8 11 = 1406, 1 3 7 12 = 1406, 1 4 7 12 = 1406, 0 3 8 12 = 1506, 1 4 8 12 = 1656, 1 5 12 = 2196, 1 3 8 12 = 2206, ..",
    ),
    (
        6,
        1,
        3,
        2,
        0,
        "3 7 = 210, 4 7 = 210, 4 8 = 360, 5 = 900, 3 8 = 910, ........................................",
    ),
];

#[test]
fn gives_all_paths_in_order(rt: HostRuntime) -> Result<(), Fail> {
    for (number, begin, end, left, right, wanted) in PATHS {
        let lattice = lattice_at(rt.alloc(), number)?;
        let span = Span {
            begin,
            end,
            left,
            right,
        };
        let text = paths_of(rt.alloc(), &lattice, &span)?;
        assert_eq!(rt; text.as_str(), wanted, "at {number} {begin} {end}");
    }
    Ok(())
}

// What 45 calls of `next` give; nothing for what is no span.
fn paths_of(alloc: Global, lattice: &Lattice, span: &Span) -> Result<String, NoMemory>
    requires { IsWellFormed set lattice.now }
{
    let mut text = String::new(alloc);
    if !is_span(lattice, span) {
        return Ok(text);
    }
    let solved = solve(alloc, &ExampleSet, lattice, span)?;
    let mut search = NBest::new(alloc, &ExampleSet, lattice, span, &solved)?;
    for _place in 0..45 {
        match search.next(&ExampleSet, lattice)? {
            Some(found) => push_path(&mut text, &found)?,
            None => text.push('.')?,
        }
    }
    Ok(text)
}

fn is_span(lattice: &Lattice, span: &Span) -> bool
    ensures { result ≡ is_span (length lattice.now.key) span.now }
{
    span.begin < span.end
        && usize::from(span.end) <= lattice.key.as_slice().len()
        && span.left < 3
        && span.right < 3
}

fn push_path(text: &mut String, found: &Found) -> Result<(), NoMemory> {
    for ordinal in found.path.as_slice() {
        write!(text, "{ordinal} ")?;
    }
    let cost = found.cost;
    write!(text, "= {cost}, ")?;
    Ok(())
}

#[test]
fn agrees_with_all_paths(rt: HostRuntime) -> Result<(), Fail> {
    for number in 0..LATTICES {
        let lattice = lattice_at(rt.alloc(), number)?;
        for begin in 0..end_of(&lattice) {
            for end in begin + 1..end_of(&lattice) + 1 {
                for (left, right) in [(0, 0), (0, 2), (1, 0), (1, 1), (2, 1), (2, 2)] {
                    let span = Span {
                        begin,
                        end,
                        left,
                        right,
                    };
                    let text = paths_to_end(rt.alloc(), &lattice, &span)?;
                    let wanted = listed(rt.alloc(), &lattice, &span)?;
                    assert_eq!(rt; text.as_str(), wanted.as_str(), "at {number} {begin} {end}");
                }
            }
        }
    }
    Ok(())
}

// What `next` gives up to the second call that gives none; nothing for what is no span.
fn paths_to_end(alloc: Global, lattice: &Lattice, span: &Span) -> Result<String, NoMemory>
    requires { IsWellFormed set lattice.now }
{
    let mut text = String::new(alloc);
    if !is_span(lattice, span) {
        return Ok(text);
    }
    let solved = solve(alloc, &ExampleSet, lattice, span)?;
    let mut search = NBest::new(alloc, &ExampleSet, lattice, span, &solved)?;
    let mut ended = false;
    for _place in 0..1000 {
        match search.next(&ExampleSet, lattice)? {
            Some(found) => push_path(&mut text, &found)?,
            None => {
                text.push('.')?;
                if ended {
                    return Ok(text);
                }
                ended = true;
            }
        }
    }
    Ok(text)
}

// A whole path: what is less comes first.
#[derive(PartialEq, Eq, PartialOrd, Ord, Drop)]
struct Whole {
    cost: i64,
    back: Vec<u32>,
}

// The same by all lists of touching entries, in order.
fn listed(alloc: Global, lattice: &Lattice, span: &Span) -> Result<String, NoMemory> {
    let tries = tries_of(
        alloc,
        lattice.entries.as_slice(),
        span.begin,
        span.end,
        span.left,
    )?;
    let mut paths = Vec::new(alloc);
    for other in &tries {
        if other.end == span.end {
            let mut back = Vec::from_slice(alloc, other.ordinals.as_slice())?;
            back.as_mut_slice().reverse();
            let cost = other.cost.wrapping_add(connection(other.rid, span.right));
            paths.push(Whole { cost, back })?;
        }
    }
    paths.sort_unstable();
    let mut text = String::new(alloc);
    for path in &paths {
        for ordinal in path.back.iter().rev() {
            write!(text, "{ordinal} ")?;
        }
        let cost = path.cost;
        write!(text, "= {cost}, ")?;
    }
    text.push_str("..")?;
    Ok(text)
}

// A key, a bound or 0 for none, a span with the id on its left, and its values with their costs.
const VALUES: [(&str, u16, u16, u16, u16, &str); 6] = [
    (
        "きょうは",
        0,
        0,
        4,
        0,
        "今日は 750, 京は 800, 今日葉 1500, 京葉 1550, きょうは 16250, きょう葉 17000, ",
    ),
    ("きょうは", 1, 2, 4, 1, "うは 5750, う葉 6500, "),
    ("も", 0, 0, 1, 0, "藻 500, 喪 500, も 5200, "),
    ("1203", 0, 0, 4, 0, "1203 6200, "),
    (
        "もももも",
        0,
        0,
        4,
        0,
        "藻藻藻藻 2600, 喪藻藻藻 2600, 藻喪藻藻 2600, 喪喪藻藻 2600, 藻藻喪藻 2600, 喪藻喪藻 2600, 藻喪喪藻 2600, 喪喪喪藻 2600, 藻藻藻喪 2600, 喪藻藻喪 2600, 藻喪藻喪 2600, 喪喪藻喪 2600, 藻藻喪喪 2600, 喪藻喪喪 2600, 藻喪喪喪 2600, 喪喪喪喪 2600, も藻藻藻 7300, も喪藻藻 7300, 藻も藻藻 7300, 喪も藻藻 7300, も藻喪藻 7300, も喪喪藻 7300, 藻も喪藻 7300, 喪も喪藻 7300, 藻藻も藻 7300, 喪藻も藻 7300, 藻喪も藻 7300, 喪喪も藻 7300, も藻藻喪 7300, も喪藻喪 7300, 藻も藻喪 7300, 喪も藻喪 7300, も藻喪喪 7300, も喪喪喪 7300, 藻も喪喪 7300, 喪も喪喪 7300, 藻藻も喪 7300, 喪藻も喪 7300, 藻喪も喪 7300, 喪喪も喪 7300, 藻藻藻も 7300, 喪藻藻も 7300, 藻喪藻も 7300, 喪喪藻も 7300, 藻藻喪も 7300, 喪藻喪も 7300, 藻喪喪も 7300, 喪喪喪も 7300, もも藻藻 12000, もも喪藻 12000, ",
    ),
    (
        "アアあアアあアアあアアあアアあアアあアアあアアあアアあアアあ",
        0,
        0,
        30,
        0,
        "アアあアアあアアあアアあアアあアアあアアあアアあアアあアアあ 117800, ",
    ),
];

#[test]
fn gives_each_value_once(rt: HostRuntime) -> Result<(), Fail> {
    for (key, bound, begin, end, left, wanted) in VALUES {
        let key: Vec<char> = key.chars().collect(rt.alloc())?;
        let span = Span {
            begin,
            end,
            left,
            right: 0,
        };
        let text = values_of(rt.alloc(), key.as_slice(), bound, &span)?;
        assert_eq!(rt; text.as_str(), wanted, "at {begin} {end}");
    }
    Ok(())
}

fn values_of(alloc: Global, key: &[char], bound: u16, span: &Span) -> Result<String, NoMemory> {
    if key.is_empty() || key.len() > MOST_KEY || usize::from(bound) > key.len() {
        return Ok(String::new(alloc));
    }
    let user = NoUserWords::new(alloc);
    let lattice = lattice_for(alloc, &user, key, bound)?;
    if !is_span(&lattice, span) {
        return Ok(String::new(alloc));
    }
    let values = distinct(alloc, &ExampleSet, &user, &lattice, span)?;
    text_of(alloc, values.as_slice())
}

fn lattice_for(
    alloc: Global,
    user: &NoUserWords,
    key: &[char],
    bound: u16,
) -> Result<Lattice, NoMemory>
    requires key { IsKey key.now }
    requires bound { bound ≤ length key.now }
    ensures { IfOk result (IsLatticeOf set []) }
{
    if bound == 0 {
        build(alloc, &ExampleSet, user, key, &[])
    } else {
        build(alloc, &ExampleSet, user, key, &[bound])
    }
}

fn text_of(alloc: Global, values: &[Candidate]) -> Result<String, NoMemory> {
    let mut text = String::new(alloc);
    for candidate in values {
        for letter in candidate.value.as_chars() {
            text.push(*letter)?;
        }
        match candidate.cost {
            Some(cost) => write!(text, " {cost}, ")?,
            None => text.push_str(" -, ")?,
        }
    }
    Ok(text)
}
