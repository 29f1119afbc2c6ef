ghost use Rattle.std.specs.Prelude.{◌≡◌, ◌≢◌, ◌<◌, ◌≤◌, ◌++◌, ◌-◌, ◌^◌, Err, IfOk, OnOk, is_none, length};
ghost use Rattle.std.specs.List.{flat_map};
ghost use Rattle.std.specs.String.{string_bytes};
ghost use Rattle.conversion_meaning.specs.Entries.{suppressed};
ghost use Rattle.mz_base.specs.Data.{is_text};
ghost use Rattle.report.specs.Printed.{Adds};
ghost use Rattle.report.specs.declared.error.PrintError.TheVariants.{TooLarge};
ghost use Rattle.report.specs.declared.room.TheConstants.{MOST_REPORT_BYTES};
ghost use Rattle.user_dict.specs.Dictionaries.{taken_in};
ghost use Rattle.world_files.specs.DataSets.{set_text};
ghost use Rattle.world_files.specs.Listings.{given_text, lacks_part, limited_text, listing_text, reload_text, row_text, rows_text, skip_word, skipped_text, user_text, users_text};
ghost use Rattle.world_files.specs.Reading.{Tells};

use crate::reload::Reload;
use crate::sets::NamedSet;
use crate::users::{User, user_of};
use engine::Engine;
use mz_base::{DataSet, Limit, NoMemory, Refusal, Text, UserRow};
use report::{PrintError, within, write_note};
use std::alloc::Global;
use user_dict::{Skip, SkippedLine, UserDict};

/// The part of speech of words that are never shown. No set needs to have it.
const SUPPRESSED: [char; 4] = ['抑', '制', '単', '語'];

/// The listing of the sets, and of the dictionaries of these users. It ends at the line that passes the limit.
pub fn list(
    alloc: Global,
    sets: &[NamedSet<Engine>],
    reloads: &[Reload],
    users: &[Text],
) -> Result<String, Refusal>
    requires { length users.now < 2 ^ 32 - 1 }
    ensures told { Tells (λ text. string_bytes text) result (limited_text (listing_text sets.now reloads.now users.now)) }
    ensures reads_nothing { result ≢ Err Refusal.ReadFault }
{
    match print_listing(alloc, sets, reloads, users) {
        Ok(text) => Ok(text),
        Err(PrintError::TooLarge) => Err(Refusal::TooLarge(Limit::Report)),
        Err(PrintError::NoMemory) => Err(Refusal::Memory),
    }
}

fn print_listing(
    alloc: Global,
    sets: &[NamedSet<Engine>],
    reloads: &[Reload],
    users: &[Text],
) -> Result<String, PrintError>
    requires { length users.now < 2 ^ 32 - 1 }
    ensures ok { IfOk result (λ text. string_bytes text ≡ listing_text sets.now reloads.now users.now) }
    ensures room { OnOk result (length (listing_text sets.now reloads.now users.now) ≤ MOST_REPORT_BYTES) }
    ensures large { result ≡ Err TooLarge → MOST_REPORT_BYTES < length (listing_text sets.now reloads.now users.now) }
{
    let mut out = String::new(alloc);
    print_sets(&mut out, sets)?;
    print_users(alloc, &mut out, sets, reloads, users)?;
    Ok(out)
}

fn print_sets(out: &mut String, sets: &[NamedSet<Engine>]) -> Result<(), PrintError>
    ensures { Adds (string_bytes out.old) (flat_map set_text sets.now) result (string_bytes out.new) }
{
    for set in sets {
        write_set(out, set)?;
        within(out)?;
    }
    within(out)
}

fn write_set(out: &mut String, set: &NamedSet<Engine>) -> Result<(), NoMemory>
    ensures { OnOk result (string_bytes out.new ≡ string_bytes out.old ++ set_text set.now) }
{
    let ids = set.set.ids();
    let words = set.set.word_count();
    let rules = set.set.rule_count();
    write!(out, "set\t{}\t{ids}\t{words}\t{rules}\n", set.name)?;
    Ok(())
}

fn print_users<D: DataSet>(
    alloc: Global,
    out: &mut String,
    sets: &[NamedSet<D>],
    reloads: &[Reload],
    names: &[Text],
) -> Result<(), PrintError>
    requires { length names.now < 2 ^ 32 - 1 }
    ensures { Adds (string_bytes out.old) (users_text sets.now reloads.now 1 names.now) result (string_bytes out.new) }
{
    for (index, name) in names.iter().enumerate() {
        let user = user_of(alloc, reloads, index as u32 + 1, name)?;
        print_user(out, sets, &user)?;
    }
    within(out)
}

fn print_user<D: DataSet>(
    out: &mut String,
    sets: &[NamedSet<D>],
    user: &User,
) -> Result<(), PrintError>
    ensures { Adds (string_bytes out.old) (user_text sets.now user.now) result (string_bytes out.new) }
{
    for (index, reload) in user.reloads.as_slice().iter().enumerate() {
        print_reload(out, sets, &user.name, index as u64 + 1, reload)?;
    }
    within(out)
}

fn print_reload<D: DataSet>(
    out: &mut String,
    sets: &[NamedSet<D>],
    user: &Text,
    number: u64,
    reload: &Reload,
) -> Result<(), PrintError>
    ensures { Adds (string_bytes out.old) (reload_text sets.now user.now number reload.now) result (string_bytes out.new) }
{
    write!(out, "dict\t{user}\t{number}")?;
    write_note(out, reload.note())?;
    write!(out, "\n")?;
    match &reload.dict {
        Ok(dict) => print_given(out, sets, dict),
        Err(_) => within(out),
    }
}

fn print_given<D: DataSet>(
    out: &mut String,
    sets: &[NamedSet<D>],
    dict: &UserDict,
) -> Result<(), PrintError>
    ensures { Adds (string_bytes out.old) (given_text sets.now (Ok (taken_in dict.now))) result (string_bytes out.new) }
{
    print_skipped(out, dict.skipped())?;
    print_lacking(out, sets, dict.rows())
}

fn print_skipped(out: &mut String, lines: &[SkippedLine]) -> Result<(), PrintError>
    ensures { Adds (string_bytes out.old) (flat_map skipped_text lines.now) result (string_bytes out.new) }
{
    for line in lines {
        write_skipped(out, *line)?;
        within(out)?;
    }
    within(out)
}

fn write_skipped(out: &mut String, line: SkippedLine) -> Result<(), NoMemory>
    ensures { OnOk result (string_bytes out.new ≡ string_bytes out.old ++ skipped_text line) }
{
    let number = line.line;
    let word = skip_word(line.why);
    write!(out, "skip\t{number}\t{word}\n")?;
    Ok(())
}

fn skip_word(why: Skip) -> &'static str
    ensures { result.now ≡ skip_word why }
{
    match why {
        Skip::Fields => "fields",
        Skip::Reading => "reading",
        Skip::Word => "word",
        Skip::Limit => "limit",
    }
}

/// The rows whose part of speech a set lacks, set by set.
fn print_lacking<D: DataSet>(
    out: &mut String,
    sets: &[NamedSet<D>],
    rows: &[UserRow],
) -> Result<(), PrintError>
    ensures { Adds (string_bytes out.old) (flat_map (rows_text rows.now) sets.now) result (string_bytes out.new) }
{
    for set in sets {
        print_rows(out, set, rows)?;
    }
    within(out)
}

fn print_rows<D: DataSet>(
    out: &mut String,
    set: &NamedSet<D>,
    rows: &[UserRow],
) -> Result<(), PrintError>
    ensures { Adds (string_bytes out.old) (rows_text rows.now set.now) result (string_bytes out.new) }
{
    for row in rows {
        write_row(out, set, row)?;
        within(out)?;
    }
    within(out)
}

fn write_row<D: DataSet>(out: &mut String, set: &NamedSet<D>, row: &UserRow) -> Result<(), NoMemory>
    ensures { OnOk result (string_bytes out.new ≡ string_bytes out.old ++ row_text set.now row.now) }
{
    if lacks_part(&set.set, row) {
        let line = row.line;
        write!(out, "pos\t{}\t{line}\n", set.name)?;
    }
    Ok(())
}

/// Whether the row's part of speech is another than that of words never shown, and the set lacks it.
fn lacks_part<D: DataSet>(set: &D, row: &UserRow) -> bool
    ensures { result ≡ lacks_part (D.lists set.now) row.now }
{
    !is_suppressed(row.pos.as_chars()) && set.pos(row.pos.as_chars()).is_none()
}

fn is_suppressed(part: &[char]) -> bool
    ensures { result ≡ is_text suppressed part.now }
{
    part == SUPPRESSED.as_slice()
}
