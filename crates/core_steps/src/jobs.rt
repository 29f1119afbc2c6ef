ghost use Rattle.std.specs.Prelude.{◌≡◌, IfOk, List, nat_lt};
ghost use Rattle.std.specs.Arc.{arc_value};
ghost use Rattle.mz_base.specs.declared.logs.JobEntry.{JobEntry};
ghost use Rattle.run_meaning.specs.Jobs.{entry_after, is_passed, newest, outcome_of};
ghost use Rattle.core_steps.specs.JobFiles.{lists_read};

use mz_base::{BadSet, DataSet, JobEntry, NoMemory, Outcome};
use std::alloc::Global;
use std::sync::Arc;

/// What becomes of a job, where this is the newest published one.
pub fn outcome_after<D: DataSet>(
    published: u32,
    job: u32,
    files: &Result<Arc<D>, BadSet>,
) -> Outcome
    ensures { (log : List JobEntry) → published ≡ newest log → is_passed log job ≡ nat_lt job published → result ≡ outcome_of (entry_after log job (lists_read (λ set. D.lists (arc_value set)) files.now)) }
{
    match files {
        Err(_) => Outcome::Refused,
        Ok(_) if job < published => Outcome::Skipped,
        Ok(_) => Outcome::Published,
    }
}

/// What is noted of a job, where this is the newest published one.
pub fn entry_after<D: DataSet>(
    alloc: Global,
    published: u32,
    job: u32,
    files: &Result<Arc<D>, BadSet>,
) -> Result<JobEntry, NoMemory>
    ensures { (log : List JobEntry) → published ≡ newest log → is_passed log job ≡ nat_lt job published → IfOk result (λ entry. entry ≡ entry_after log job (lists_read (λ set. D.lists (arc_value set)) files.now)) }
{
    match files {
        Err(bad) => Ok(JobEntry::Refused {
            job,
            path: bad.path.copy(alloc)?,
            fault: bad.fault,
        }),
        Ok(_) if job < published => Ok(JobEntry::Skipped { job, by: published }),
        Ok(_) => Ok(JobEntry::Published { job }),
    }
}
