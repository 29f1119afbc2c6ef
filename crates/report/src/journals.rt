ghost use Rattle.std.specs.Prelude.{◌≡◌, ◌++◌, OnOk};
ghost use Rattle.std.specs.List.{flat_map};
ghost use Rattle.std.specs.String.{string_bytes};
ghost use Rattle.report.specs.Names.{AreEntriesNamed, AreUsersNamed, IsEntryNamed, IsOneOf};
ghost use Rattle.report.specs.Printed.{Adds};
ghost use Rattle.report.specs.Texts.{pairs_text, refusal_text, note_text, dict_text, entry_text, journal_text};

use crate::PrintError;
use crate::jobs::write_fault;
use crate::names::client_name;
use crate::room::within;
use mz_base::{DictNote, FaultKind, Logs, NoMemory, Pair, UserEntry, UserLog};

/// Each user, and the entries of its journal.
pub fn print_journals(out: &mut String, logs: &Logs) -> Result<(), PrintError>
    requires { AreUsersNamed logs.now }
    ensures { Adds (string_bytes out.old) (flat_map (journal_text logs.now) logs.now.users) result (string_bytes out.new) }
{
    for user in logs.users.as_slice() {
        print_journal(out, logs, user)?;
    }
    within(out)
}

fn print_journal(out: &mut String, logs: &Logs, user: &UserLog) -> Result<(), PrintError>
    requires { AreEntriesNamed logs.now user.now }
    ensures { Adds (string_bytes out.old) (journal_text logs.now user.now) result (string_bytes out.new) }
{
    write!(out, "journal\t{}\n", user.name)?;
    for entry in user.entries.as_slice() {
        write_entry(out, logs, user, entry)?;
        within(out)?;
    }
    within(out)
}

fn write_entry(
    out: &mut String,
    logs: &Logs,
    user: &UserLog,
    entry: &UserEntry,
) -> Result<(), NoMemory>
    requires { IsEntryNamed logs.now user.now entry.now }
    ensures { OnOk result (string_bytes out.new ≡ string_bytes out.old ++ entry_text logs.now user.now entry.now) }
{
    match entry {
        UserEntry::Learn { client, seq, pairs } => {
            let pairs = pairs.as_slice();
            let count = pairs.len();
            write!(out, "learn\t{}\t{seq}\t{count}", client_name(logs, *client))?;
            write_pairs(out, pairs)?;
            write!(out, "\n")?;
        }
        UserEntry::Dict { reload } => write_dict(out, user.dicts.as_slice(), *reload)?,
        UserEntry::End { client, count } => {
            write!(out, "end\t{}\t{count}\n", client_name(logs, *client))?
        }
    }
    Ok(())
}

fn write_pairs(out: &mut String, pairs: &[Pair]) -> Result<(), NoMemory>
    ensures { OnOk result (string_bytes out.new ≡ string_bytes out.old ++ pairs_text pairs.now) }
{
    for pair in pairs {
        write!(out, "\t{}\t{}", pair.key, pair.value)?;
    }
    Ok(())
}

fn write_dict(out: &mut String, notes: &[DictNote], reload: u32) -> Result<(), NoMemory>
    requires { IsOneOf notes.now reload }
    ensures { OnOk result (string_bytes out.new ≡ string_bytes out.old ++ dict_text notes.now reload) }
{
    write!(out, "dict\t{reload}")?;
    write_note(out, notes[reload as usize - 1])?;
    write!(out, "\n")?;
    Ok(())
}

/// What a reload gave: the rows kept and skipped, or its fault.
pub fn write_note(out: &mut String, note: DictNote) -> Result<(), NoMemory>
    ensures { OnOk result (string_bytes out.new ≡ string_bytes out.old ++ note_text note) }
{
    match note {
        DictNote::Read { kept, skipped } => write!(out, "\tread\t{kept}\t{skipped}")?,
        DictNote::NotUtf8(line) => write_refusal(out, FaultKind::NotUtf8(line))?,
        DictNote::Limit(line) => write_refusal(out, FaultKind::Limit(line))?,
    }
    Ok(())
}

fn write_refusal(out: &mut String, kind: FaultKind) -> Result<(), NoMemory>
    ensures { OnOk result (string_bytes out.new ≡ string_bytes out.old ++ refusal_text kind) }
{
    write!(out, "\trefused")?;
    write_fault(out, kind)
}
