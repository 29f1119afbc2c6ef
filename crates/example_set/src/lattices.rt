ghost use Rattle.std.specs.Prelude.{◌≡◌, map, true, IfOk};
ghost use Rattle.conversion_meaning.specs.Examples.{kyouha, set};
ghost use Rattle.conversion_meaning.specs.Lattices.{IsWellFormed};
ghost use Rattle.conversion_meaning.specs.SmallLattices.{is_well, small_entry, small_lattice};
ghost use Rattle.example_set.specs.HandMade.{kyouha_characters};

use mz_base::{Entry, Lattice, NoMemory, Seq, Source};
use std::alloc::Global;

/// The begin, the end, the id on both sides and the cost of an entry.
pub type Row = (u16, u16, u16, i32);

/// The key きょうは.
pub const KYOUHA: [char; 4] = ['き', 'ょ', 'う', 'は'];

// き, 今日, 京, ょ, う, は (the word), 葉, は (the character).
const KYOUHA_ROWS: [Row; 8] = [
    (0, 1, 1, 5000),
    (0, 3, 1, 300),
    (0, 3, 1, 350),
    (1, 2, 1, 5000),
    (2, 3, 1, 5000),
    (3, 4, 2, 100),
    (3, 4, 1, 600),
    (3, 4, 1, 5000),
];

/// The lattice of きょうは, but that each entry's source is the character.
pub fn kyouha_lattice(alloc: Global) -> Result<Lattice, NoMemory>
    ensures key { IfOk result (λ lattice. lattice.key ≡ kyouha) }
    ensures entries { IfOk result (λ lattice. lattice.entries ≡ kyouha_characters) }
    ensures well_formed { IfOk result (IsWellFormed set) }
{
    lattice_of(alloc, &KYOUHA, &KYOUHA_ROWS, &[0, 3, 1, 2, 4, 5, 6, 7])
}

/// The lattice of these entries, without bounds; `by_end` is the order of their ends.
pub fn lattice_of(
    alloc: Global,
    key: &[char],
    rows: &[Row],
    by_end: &[u32],
) -> Result<Lattice, NoMemory>
    requires { is_well 3 key.now (map small_entry rows.now) by_end.now ≡ true }
    ensures made { IfOk result (λ lattice. lattice ≡ small_lattice key.now rows.now by_end.now) }
    ensures well_formed { IfOk result (IsWellFormed set) }
{
    Ok(Lattice {
        key: Seq::from_vec(Vec::from_slice(alloc, key)?),
        bounds: Seq::from_vec(Vec::new(alloc)),
        entries: Seq::from_vec(entries_of(alloc, rows)?),
        by_end: Seq::from_vec(Vec::from_slice(alloc, by_end)?),
    })
}

fn entries_of(alloc: Global, rows: &[Row]) -> Result<Vec<Entry>, NoMemory>
    ensures { IfOk result (λ entries. entries.items ≡ map small_entry rows.now) }
{
    let entries = rows.iter().map(|row| entry_of(row)).collect(alloc)?;
    Ok(entries)
}

fn entry_of(row: &Row) -> Entry
    ensures { result ≡ small_entry row.now }
{
    let (begin, end, id, cost) = *row;
    Entry {
        begin,
        end,
        lid: id,
        rid: id,
        cost,
        source: Source::Char,
    }
}
