ghost use Rattle.std.specs.Prelude.{◌≡◌, ◌++◌, ◌∷◌, [], OnOk};
ghost use Rattle.std.specs.Fmt.{decimal};
ghost use Rattle.std.specs.String.{string_bytes};
ghost use Rattle.report.specs.Printed.{Adds};
ghost use Rattle.report.specs.Texts.{fields_text, fault_text, job_text, jobs_section};

use crate::PrintError;
use crate::room::within;
use mz_base::{FaultKind, JobEntry, NoMemory};

/// What became of each job.
pub fn print_jobs(out: &mut String, jobs: &[JobEntry]) -> Result<(), PrintError>
    ensures { Adds (string_bytes out.old) (jobs_section jobs.now) result (string_bytes out.new) }
{
    write!(out, "jobs\n")?;
    for job in jobs {
        write_job(out, job)?;
        within(out)?;
    }
    within(out)
}

fn write_job(out: &mut String, entry: &JobEntry) -> Result<(), NoMemory>
    ensures { OnOk result (string_bytes out.new ≡ string_bytes out.old ++ job_text entry.now) }
{
    match entry {
        JobEntry::Published { job } => write!(out, "job\t{job}\tpublished\n")?,
        JobEntry::Refused { job, path, fault } => {
            write!(out, "job\t{job}\trefused\t{path}")?;
            write_fault(out, fault.kind)?;
            write!(out, "\n")?;
        }
        JobEntry::Skipped { job, by } => write!(out, "job\t{job}\tskipped\t{by}\n")?,
    }
    Ok(())
}

/// The fields of a fault, each after a tab.
pub fn write_fault(out: &mut String, kind: FaultKind) -> Result<(), NoMemory>
    ensures { OnOk result (string_bytes out.new ≡ string_bytes out.old ++ fault_text kind) }
{
    match kind {
        FaultKind::NotUtf8(line) => write_place(out, "not-utf8", line)?,
        FaultKind::Fields(line) => write_place(out, "fields", line)?,
        FaultKind::Empty(line) => write_place(out, "empty", line)?,
        FaultKind::Class(line) => write_place(out, "class", line)?,
        FaultKind::Number(line) => write_place(out, "number", line)?,
        FaultKind::Range(line) => write_place(out, "range", line)?,
        FaultKind::NoFeature(line) => write_place(out, "no-feature", line)?,
        FaultKind::LongPending(line) => write_place(out, "long-pending", line)?,
        FaultKind::Limit(line) => write_place(out, "limit", line)?,
        FaultKind::Size => write!(out, "\tsize")?,
        FaultKind::Count { wanted, found } => write!(out, "\tcount\t{wanted}\t{found}")?,
    }
    Ok(())
}

/// A fault's name, and its line.
fn write_place(out: &mut String, name: &str, line: u64) -> Result<(), NoMemory>
    ensures { OnOk result (string_bytes out.new ≡ string_bytes out.old ++ fields_text (name.now ∷ decimal line ∷ [])) }
{
    write!(out, "\t{name}\t{line}")?;
    Ok(())
}
