ghost use Rattle.std.specs.Prelude.{◌≡◌, ◌<◌, ◌≤◌, ◌++◌, length, nat_lt, OnOk, option_to_list, map, All};
ghost use Rattle.mz_base.specs.Data.{is_text};
ghost use Rattle.mz_base.specs.Users.{longest_reading};
ghost use Rattle.conversion_meaning.specs.Entries.{char_entries, entry_of, node, run_entries, suppressed, user_entries, user_entry, word_entries, word_entry};
ghost use Rattle.lattice.specs.Runs.{may_begin_run};

use crate::run::is_run;
use mz_base::{DataSet, Entry, Hit, NoMemory, Source, UserWords, class_of};

/// The part of speech of words that are never shown.
const SUPPRESSED: [char; 4] = ['抑', '制', '単', '語'];

/// Adds the entries of the user's rows whose reading is the part's text, in the dictionary's order.
#[tactic(auto, unfolding(conversion_meaning::specs::Entries::user_entries))]
pub(crate) fn push_users<D: DataSet, U: UserWords>(
    set: &D,
    user: &U,
    key: &[char],
    begin: u16,
    end: u16,
    out: &mut Vec<Entry>,
) -> Result<(), NoMemory>
    requires forward { begin ≤ end }
    requires inside { end ≤ length key.now }
    ensures { OnOk result (out.new.items ≡ out.old.items ++ user_entries (D.lists set.now) (U.rows user.now) key.now begin end) }
{
    if is_longer(user, end - begin) {
        return Ok(());
    }
    for place in user.rows_of(&key[usize::from(begin)..usize::from(end)]) {
        push_some(out, user_entry(set, user, *place, begin, end))?;
    }
    Ok(())
}

/// Whether a part of so many characters is longer than each reading of the user's. The dictionary is not asked for it.
fn is_longer<U: UserWords>(user: &U, characters: u16) -> bool
    ensures { result ≡ nat_lt (longest_reading (U.rows user.now)) characters }
{
    user.longest_reading() < usize::from(characters)
}

fn user_entry<D: DataSet, U: UserWords>(
    set: &D,
    user: &U,
    place: u32,
    begin: u16,
    end: u16,
) -> Option<Entry>
    requires { place < length (U.rows user.now) }
    ensures { result ≡ user_entry (D.lists set.now) (U.rows user.now) begin end place }
{
    let part = user.row(place).pos.as_chars();
    if is_suppressed(part) {
        None
    } else {
        match set.pos(part) {
            Some(node) => Some(entry_of(Source::User(place), begin, end, node)),
            None => None,
        }
    }
}

fn is_suppressed(part: &[char]) -> bool
    ensures { result ≡ is_text suppressed part.now }
{
    part == SUPPRESSED.as_slice()
}

fn entry_of(source: Source, begin: u16, end: u16, node: (u16, i32)) -> Entry
    ensures { result ≡ entry_of source begin end node }
{
    let (id, cost) = node;
    Entry {
        begin,
        end,
        lid: id,
        rid: id,
        cost,
        source,
    }
}

fn push_some(out: &mut Vec<Entry>, entry: Option<Entry>) -> Result<(), NoMemory>
    ensures { OnOk result (out.new.items ≡ out.old.items ++ option_to_list entry) }
{
    if let Some(entry) = entry {
        out.push(entry)?;
    }
    Ok(())
}

/// Adds the entry of each hit, in their order.
pub(crate) fn push_words<D: DataSet>(
    set: &D,
    hits: &[Hit],
    begin: u16,
    out: &mut Vec<Entry>,
) -> Result<(), NoMemory>
    requires { All (λ hit. hit.row < length (D.lists set.now).words) hits.now }
    ensures { OnOk result (out.new.items ≡ out.old.items ++ map (λ hit. word_entry (D.lists set.now) begin hit.end hit.row) hits.now) }
{
    for hit in hits {
        out.push(word_entry(set, *hit, begin))?;
    }
    Ok(())
}

fn word_entry<D: DataSet>(set: &D, hit: Hit, begin: u16) -> Entry
    requires { hit.row < length (D.lists set.now).words }
    ensures { result ≡ word_entry (D.lists set.now) begin hit.end hit.row }
{
    let word = set.word(hit.row);
    Entry {
        begin,
        end: hit.end,
        lid: word.lid,
        rid: word.rid,
        cost: word.cost,
        source: Source::Word(hit.row),
    }
}

/// Adds the character, where the part is one.
#[tactic(auto, unfolding(conversion_meaning::specs::Entries::char_entries))]
pub(crate) fn push_char<D: DataSet>(
    set: &D,
    key: &[char],
    begin: u16,
    end: u16,
    out: &mut Vec<Entry>,
) -> Result<(), NoMemory>
    requires forward { begin < end }
    requires inside { end ≤ length key.now }
    ensures { OnOk result (out.new.items ≡ out.old.items ++ char_entries (D.lists set.now) key.now begin end) }
{
    if end - begin == 1 {
        out.push(node(set, key, Source::Char, begin, end))?;
    }
    Ok(())
}

/// Adds the run, where the part is one; `may_run` says whether a run may begin here.
#[tactic(auto, unfolding(conversion_meaning::specs::Entries::run_entries))]
pub(crate) fn push_run<D: DataSet>(
    set: &D,
    key: &[char],
    may_run: bool,
    begin: u16,
    end: u16,
    out: &mut Vec<Entry>,
) -> Result<(), NoMemory>
    requires forward { begin < end }
    requires inside { end ≤ length key.now }
    requires may_run { may_run ≡ may_begin_run key.now begin }
    ensures { OnOk result (out.new.items ≡ out.old.items ++ run_entries (D.lists set.now) key.now begin end) }
{
    if is_run(key, may_run, begin, end) {
        out.push(node(set, key, Source::Run, begin, end))?;
    }
    Ok(())
}

/// The entry of the text itself, by the class of its first character.
fn node<D: DataSet>(set: &D, key: &[char], source: Source, begin: u16, end: u16) -> Entry
    requires { begin < length key.now }
    ensures { result ≡ node (D.lists set.now) key.now source begin end }
{
    let class = class_of(key[usize::from(begin)]);
    entry_of(source, begin, end, set.unknown(class))
}
