ghost use Rattle.std.specs.Prelude.{◌≡◌, ◌==◌, find, slice_range};
ghost use Rattle.std.specs.Option.{option_copied};
ghost use Rattle.conversion_meaning.specs.Lattices.{entry};
ghost use Rattle.conversion_meaning.specs.Segments.{id_after, id_before, span_between};

use mz_base::{Entry, Source, Span};

/// A part of the key between the ids of the path on its borders.
pub fn span_between(entries: &[Entry], path: &[u32], begin: u16, end: u16) -> Span
    ensures { result ≡ span_between entries.now path.now (begin, end) }
{
    Span {
        begin,
        end,
        left: id_before(entries, path, begin),
        right: id_after(entries, path, end),
    }
}

/// The right id of the path's entry that ends here, 0 where none does.
fn id_before(entries: &[Entry], path: &[u32], here: u16) -> u16
    ensures { result ≡ id_before entries.now path.now here }
{
    match ending(entries, path, here) {
        Some(ordinal) => entry(entries, *ordinal).rid,
        None => 0,
    }
}

fn ending<'a>(entries: &[Entry], path: &'a [u32], here: u16) -> Option<&'a u32>
    ensures { option_copied result ≡ find (λ o. (entry entries.now o).end == here) path.now }
{
    path.iter()
        .find(|ordinal| entry(entries, **ordinal).end == here)
}

/// The left id of the path's entry that begins here, 0 where none does.
fn id_after(entries: &[Entry], path: &[u32], here: u16) -> u16
    ensures { result ≡ id_after entries.now path.now here }
{
    match beginning(entries, path, here) {
        Some(ordinal) => entry(entries, *ordinal).lid,
        None => 0,
    }
}

fn beginning<'a>(entries: &[Entry], path: &'a [u32], here: u16) -> Option<&'a u32>
    ensures { option_copied result ≡ find (λ o. (entry entries.now o).begin == here) path.now }
{
    path.iter()
        .find(|ordinal| entry(entries, **ordinal).begin == here)
}

/// An entry by its ordinal; zeros where there is none.
fn entry(entries: &[Entry], ordinal: u32) -> Entry
    ensures { result ≡ entry entries.now ordinal }
{
    match entries.get(ordinal as usize) {
        Some(entry) => *entry,
        None => Entry {
            begin: 0,
            end: 0,
            lid: 0,
            rid: 0,
            cost: 0,
            source: Source::User(0),
        },
    }
}

/// The characters of the key from one position to another, as far as there are any.
pub fn part_of(key: &[char], begin: u16, end: u16) -> &[char]
    ensures { result.now ≡ slice_range key.now begin end }
{
    let (begin, end) = (usize::from(begin), usize::from(end));
    let (_, rest) = key.split_at(begin.min(key.len()));
    let (part, _) = rest.split_at(end.saturating_sub(begin).min(rest.len()));
    part
}
