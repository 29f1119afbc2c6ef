ghost use Rattle.std.specs.Prelude.{◌≡◌, ◌<◌, ◌≤◌, length, slice_range};
ghost use Rattle.conversion_meaning.specs.Lattices.{IsLatticeOf, entry};
ghost use Rattle.conversion_meaning.specs.Values.{value_from, value_of};
ghost use Rattle.lattice.specs.Rows.{IsThere};

use mz_base::{DataSet, Lattice, Source, UserWords};

/// The value of an entry, in the set and for the user that the lattice was built of.
pub fn value_of<'a, D: DataSet, U: UserWords>(
    lattice: &'a Lattice,
    set: &'a D,
    user: &'a U,
    ordinal: u32,
) -> &'a [char]
    requires made { IsLatticeOf (D.lists set.now) (U.rows user.now) lattice.now }
    requires inside { ordinal < length lattice.now.entries }
    ensures { result.now ≡ value_of (D.lists set.now) (U.rows user.now) lattice.now.key (entry lattice.now.entries ordinal) }
{
    let entry = lattice.entries.as_slice()[ordinal as usize];
    let text = part(lattice.key.as_slice(), entry.begin, entry.end);
    value_from(set, user, text, entry.source)
}

fn part(key: &[char], begin: u16, end: u16) -> &[char]
    requires forward { begin ≤ end }
    requires inside { end ≤ length key.now }
    ensures { result.now ≡ slice_range key.now begin end }
{
    &key[usize::from(begin)..usize::from(end)]
}

fn value_from<'a, D: DataSet, U: UserWords>(
    set: &'a D,
    user: &'a U,
    text: &'a [char],
    source: Source,
) -> &'a [char]
    requires { IsThere (D.lists set.now) (U.rows user.now) source }
    ensures { result.now ≡ value_from (D.lists set.now) (U.rows user.now) text.now source }
{
    match source {
        Source::User(place) => user.row(place).word.as_chars(),
        Source::Word(row) => set.word(row).value,
        Source::Char | Source::Run => text,
    }
}
