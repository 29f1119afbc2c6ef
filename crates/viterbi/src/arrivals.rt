ghost use Rattle.std.specs.Prelude.{◌≡◌, ℕ, ◌+◌, ◌*◌, ◌<◌, ◌≤◌, ◌+ℤ◌, [], length, IfOk};
ghost use Rattle.mz_base.specs.declared.lattice.TheConstants.{MOST_KEY};
ghost use Rattle.conversion_meaning.specs.Bounds.{IsWithin};
ghost use Rattle.conversion_meaning.specs.Lattices.{IsByEnd, IsCursor, entry};
ghost use Rattle.viterbi.specs.Arrivals.{AreAllArrivals, AreSound, IsChoice, IsFirstLeast, IsLesser, IsReachedBy, cost_at};
ghost use Rattle.viterbi.specs.Table.{most_reached, reached};

use crate::rows::Rows;
use crate::table::{Reached, Target, not_reached};
use lattice::{first_at, first_from};
use mz_base::{DataSet, Entry, NoMemory, Span};
use std::alloc::Global;

/// An entry that ends where another begins.
#[derive(Clone, Copy)]
pub struct Arrival {
    /// The least cost up to its end.
    pub cost: i64,
    pub ordinal: u32,
    pub rid: u16,
}

/// The arrival that is chosen, with its cost and that of the connection.
#[derive(Clone, Copy)]
pub struct Choice {
    pub cost: i64,
    pub ordinal: u32,
}

/// What an arrival costs before a left id, and its place among the arrivals.
#[derive(Clone, Copy)]
pub struct Offer {
    pub cost: i64,
    pub place: usize,
}

/// The entries of a span that end at one position.
#[derive(Drop)]
pub struct Arrivals {
    /// The position.
    pub to: u16,
    /// The place in the order of ends from which on entries end behind the position.
    pub past: usize,
    pub list: Vec<Arrival>,
}

/// Those at the begin of a span, where no entry of it ends.
pub fn arrivals_at_begin(alloc: Global, entries: &[Entry], by_end: &[u32], span: &Span) -> Arrivals
    requires by_end { IsByEnd entries.now by_end.now }
    requires inside { span.now.begin < MOST_KEY }
    ensures to { result.to ≡ span.now.begin }
    ensures past { IsCursor entries.now by_end.now (span.now.begin + 1) result.past }
    ensures none { result.list.items ≡ [] }
{
    Arrivals {
        to: span.begin,
        past: first_at(entries, by_end, span.begin + 1),
        list: Vec::new(alloc),
    }
}

/// The arrivals at `to`; reuses `here` where it has them already.
pub fn arrivals_from(
    entries: &[Entry],
    by_end: &[u32],
    table: &Rows,
    span: &Span,
    here: Arrivals,
    to: u16,
) -> Result<Arrivals, NoMemory>
    requires by_end { IsByEnd entries.now by_end.now }
    requires here { AreAllArrivals entries.now by_end.now span.now table.now here }
    requires later { here.to ≤ to }
    requires reached { (o : ℕ) → o < length entries.now → (entry entries.now o).end ≡ to → o < length table.now }
    requires small { (o : ℕ) → o < length table.now → IsWithin most_reached (reached table.now o).cost }
    ensures to { IfOk result (λ there. there.to ≡ to) }
    ensures all { IfOk result (AreAllArrivals entries.now by_end.now span.now table.now) }
{
    if here.to == to {
        return Ok(here);
    }
    let cursor = first_from(entries, by_end, here.past, to);
    arrivals_at(entries, by_end, table, span, here.list, cursor, to)
}

/// The arrivals at the end of the span.
pub fn arrivals_at_end(
    alloc: Global,
    entries: &[Entry],
    by_end: &[u32],
    table: &Rows,
    span: &Span,
) -> Result<Arrivals, NoMemory>
    requires by_end { IsByEnd entries.now by_end.now }
    requires reached { (o : ℕ) → o < length entries.now → (entry entries.now o).end ≡ span.now.end → o < length table.now }
    requires small { (o : ℕ) → o < length table.now → IsWithin most_reached (reached table.now o).cost }
    ensures to { IfOk result (λ there. there.to ≡ span.now.end) }
    ensures all { IfOk result (AreAllArrivals entries.now by_end.now span.now table.now) }
{
    let cursor = first_at(entries, by_end, span.end);
    arrivals_at(
        entries,
        by_end,
        table,
        span,
        Vec::new(alloc),
        cursor,
        span.end,
    )
}

/// The entries of the span that end at the position `to`, from its cursor on, in place of those in the list.
fn arrivals_at(
    entries: &[Entry],
    by_end: &[u32],
    table: &Rows,
    span: &Span,
    mut list: Vec<Arrival>,
    cursor: usize,
    to: u16,
) -> Result<Arrivals, NoMemory>
    requires by_end { IsByEnd entries.now by_end.now }
    requires at { IsCursor entries.now by_end.now to cursor }
    requires reached { (o : ℕ) → o < length entries.now → (entry entries.now o).end ≡ to → o < length table.now }
    requires small { (o : ℕ) → o < length table.now → IsWithin most_reached (reached table.now o).cost }
    ensures to { IfOk result (λ there. there.to ≡ to) }
    ensures all { IfOk result (AreAllArrivals entries.now by_end.now span.now table.now) }
{
    list.clear();
    for past in cursor..by_end.len() {
        let ordinal = by_end[past];
        let entry = entries[ordinal as usize];
        if entry.end != to {
            return Ok(Arrivals { to, past, list });
        }
        if span.begin <= entry.begin {
            list.push(Arrival {
                cost: table.at(ordinal as usize).cost,
                ordinal,
                rid: entry.rid,
            })?;
        }
    }
    let past = by_end.len();
    Ok(Arrivals { to, past, list })
}

/// The target reached from the span's left id at its begin, and elsewhere by the cheapest arrival.
pub fn reach<D: DataSet>(set: &D, arrivals: &[Arrival], span: &Span, target: &Target) -> Reached
    requires sound { AreSound (D.lists set.now) arrivals.now }
    requires left { span.now.left < (D.lists set.now).ids }
    requires target { target.now.lid < (D.lists set.now).ids }
    ensures { IsReachedBy (D.lists set.now) span.now arrivals.now target.now result }
{
    if target.begin == span.begin {
        let connection = i64::from(set.conn(span.left, target.lid));
        return Reached {
            cost: plus(connection, target.cost),
            before: None,
        };
    }
    match cheapest(set, arrivals, target.lid) {
        Some(choice) => Reached {
            cost: plus(choice.cost, target.cost),
            before: Some(choice.ordinal),
        },
        None => not_reached(),
    }
}

fn cheapest<D: DataSet>(set: &D, arrivals: &[Arrival], lid: u16) -> Option<Choice>
    requires sound { AreSound (D.lists set.now) arrivals.now }
    requires target { lid < (D.lists set.now).ids }
    ensures { IsChoice (D.lists set.now) arrivals.now lid result }
{
    if arrivals.is_empty() {
        return None;
    }
    let least = first_least(set, arrivals, lid);
    Some(Choice {
        cost: least.cost,
        ordinal: arrivals[least.place].ordinal,
    })
}

/// The first of the least costs before the left id. Ordinals rise, so of several it has the least.
fn first_least<D: DataSet>(set: &D, arrivals: &[Arrival], lid: u16) -> Offer
    requires some { 0 < length arrivals.now }
    requires sound { AreSound (D.lists set.now) arrivals.now }
    requires target { lid < (D.lists set.now).ids }
    ensures { IsFirstLeast (D.lists set.now) arrivals.now lid (length arrivals.now) result }
{
    let mut best = offer_at(set, arrivals, lid, 0);
    for place in 1..arrivals.len() {
        best = lesser(best, offer_at(set, arrivals, lid, place));
    }
    best
}

fn offer_at<D: DataSet>(set: &D, arrivals: &[Arrival], lid: u16, place: usize) -> Offer
    requires inside { place < length arrivals.now }
    requires sound { AreSound (D.lists set.now) arrivals.now }
    requires target { lid < (D.lists set.now).ids }
    ensures place { result.place ≡ place }
    ensures cost { result.cost ≡ cost_at (D.lists set.now) arrivals.now lid place }
{
    let arrival = arrivals[place];
    Offer {
        cost: plus(arrival.cost, set.conn(arrival.rid, lid)),
        place,
    }
}

// A choice between two values needs no branch, which processors would often guess wrong.
fn lesser(best: Offer, other: Offer) -> Offer
    ensures { IsLesser best other result }
{
    if other.cost < best.cost { other } else { best }
}

fn plus(cost: i64, more: i32) -> i64
    requires { IsWithin (2 * most_reached) cost }
    ensures { result ≡ cost +ℤ more }
{
    cost + i64::from(more)
}
