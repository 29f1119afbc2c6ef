ghost use Rattle.std.specs.Prelude.{◌≡◌, ◌≢◌, ◌<◌, ◌^◌, ◌++◌, ◌∷◌, ◌-◌, [], Err, IfOk, OnOk, length, map};
ghost use Rattle.std.specs.List.{range_with_len};
ghost use Rattle.std.specs.Arc.{arc_value};
ghost use Rattle.core_steps.specs.JobFiles.{lists_read};
ghost use Rattle.world_files.specs.DataSets.{files_of, job_of, jobs_of, or_bad, others_of, path_of, set_in, set_of, sets_after};
ghost use Rattle.world_files.specs.Reading.{Tells};

use crate::reading::DataFile;
use engine::{BuildError, Engine, SetFile, SetFiles, build, has_role};
use mz_base::{BadSet, DataSet, Fault, NoMemory, Refusal, Seq, Text};
use std::alloc::Global;
use std::marker::Model;
use std::sync::Arc;

/// A data set and its name.
#[derive(Drop)]
pub struct NamedSet<D: DataSet> {
    pub name: Text,
    pub set: D,
}

impl<D: DataSet> Model for NamedSet<D> {
    ghost use Rattle.world_files.specs.DataSets.{NamedSet as Meant};

    ghost Value = { Meant };

    ghost view = { λ n. record { name = n.name; lists = D.lists n.set } };
}

/// Some data files: those of one set, and those of the others.
#[derive(Drop)]
struct Split {
    own: Vec<SetFile>,
    others: Vec<DataFile>,
}

/// What the files of so many sets give, by number from 1. The first has to read.
pub fn jobs_of(
    alloc: Global,
    files: Vec<DataFile>,
    count: usize,
) -> Result<Vec<Result<Arc<Engine>, BadSet>>, Refusal>
    requires few { length files.items < 2 ^ 32 }
    requires sets { count < 2 ^ 32 - 1 }
    ensures told { Tells (λ jobs. map (lists_read (λ set. ⟦<Engine as DataSet>⟧.lists (arc_value set))) jobs.items) result (jobs_of files.items count) }
    ensures reads_nothing { result ≢ Err Refusal.ReadFault }
{
    let split = split_off(alloc, files, 1)?;
    let first = set_in(alloc, split.own)?;
    let mut jobs = Vec::new(alloc);
    jobs.push(Ok(Arc::new(alloc, first)?))?;
    add_jobs(alloc, &mut jobs, split.others, count)?;
    Ok(jobs)
}

/// What the files of the further sets give.
fn add_jobs(
    alloc: Global,
    jobs: &mut Vec<Result<Arc<Engine>, BadSet>>,
    files: Vec<DataFile>,
    count: usize,
) -> Result<(), NoMemory>
    requires few { length files.items < 2 ^ 32 }
    requires sets { count < 2 ^ 32 - 1 }
    ensures { OnOk result (map (lists_read (λ set. ⟦<Engine as DataSet>⟧.lists (arc_value set))) jobs.new.items ≡ map (lists_read (λ set. ⟦<Engine as DataSet>⟧.lists (arc_value set))) jobs.old.items ++ map (job_of files.items) (range_with_len 2 (count - 1))) }
{
    let mut left = files;
    for place in 1..count {
        let split = split_off(alloc, left, place as u32 + 1)?;
        jobs.push(job_in(alloc, split.own)?)?;
        left = split.others;
    }
    Ok(())
}

/// What the files of a set give, shared.
fn job_in(alloc: Global, files: Vec<SetFile>) -> Result<Result<Arc<Engine>, BadSet>, NoMemory>
    requires few { length files.items < 2 ^ 32 }
    ensures { IfOk result (λ job. lists_read (λ set. ⟦<Engine as DataSet>⟧.lists (arc_value set)) job ≡ set_of files.items) }
{
    match set_of(alloc, files)? {
        Ok(engine) => Ok(Ok(Arc::new(alloc, engine)?)),
        Err(bad) => Ok(Err(bad)),
    }
}

/// The data sets of these names, in order, from their files; else the first that does not read.
pub fn all_sets(
    alloc: Global,
    files: Vec<DataFile>,
    names: &[Text],
) -> Result<Vec<NamedSet<Engine>>, Refusal>
    requires few { length files.items < 2 ^ 32 }
    requires sets { length names.now < 2 ^ 32 - 1 }
    ensures told { Tells (λ sets. sets.items) result (sets_after files.items [] 1 names.now) }
    ensures reads_nothing { result ≢ Err Refusal.ReadFault }
{
    let mut sets = Vec::new(alloc);
    let mut left = files;
    for (index, name) in names.iter().enumerate() {
        let split = split_off(alloc, left, index as u32 + 1)?;
        let set = set_in(alloc, split.own)?;
        sets.push(named(alloc, name, set)?)?;
        left = split.others;
    }
    Ok(sets)
}

fn named<D: DataSet + Drop>(alloc: Global, name: &Text, set: D) -> Result<NamedSet<D>, NoMemory>
    ensures { IfOk result (λ named. named ≡ record { name = name.now; lists = D.lists set }) }
{
    Ok(NamedSet {
        name: name.copy(alloc)?,
        set,
    })
}

/// The files of the set of this number, and the others.
fn split_off(alloc: Global, files: Vec<DataFile>, number: u32) -> Result<Split, NoMemory>
    ensures own { IfOk result (λ split. split.own.items ≡ files_of number files.items) }
    ensures others { IfOk result (λ split. split.others.items ≡ others_of number files.items) }
{
    let mut split = Split {
        own: Vec::new(alloc),
        others: Vec::new(alloc),
    };
    for file in files {
        put(&mut split, file, number)?;
    }
    Ok(split)
}

fn put(split: &mut Split, file: DataFile, number: u32) -> Result<(), NoMemory>
    ensures own { OnOk result (split.new.own.items ≡ split.old.own.items ++ files_of number (file ∷ [])) }
    ensures others { OnOk result (split.new.others.items ≡ split.old.others.items ++ others_of number (file ∷ [])) }
{
    if file.set == number {
        split.own.push(file.file)?;
    } else {
        split.others.push(file)?;
    }
    Ok(())
}

/// The data set of these files; else the path of the first file that does not read, and its fault.
pub fn set_in(alloc: Global, files: Vec<SetFile>) -> Result<Engine, Refusal>
    requires few { length files.items < 2 ^ 32 }
    ensures told { Tells (λ engine. ⟦<Engine as DataSet>⟧.lists engine) result (set_in files.items) }
    ensures reads_nothing { result ≢ Err Refusal.ReadFault }
{
    match set_of(alloc, files)? {
        Ok(engine) => Ok(engine),
        Err(bad) => Err(Refusal::BadData(bad)),
    }
}

/// What the files of a set give.
fn set_of(alloc: Global, files: Vec<SetFile>) -> Result<Result<Engine, BadSet>, NoMemory>
    requires few { length files.items < 2 ^ 32 }
    ensures { IfOk result (λ set. lists_read (λ engine. ⟦<Engine as DataSet>⟧.lists engine) set ≡ set_of files.items) }
{
    let files = SetFiles {
        files: Seq::from_vec(files),
    };
    match build(alloc, &files) {
        Ok(engine) => Ok(Ok(engine)),
        Err(BuildError::Fault(fault)) => Ok(Err(bad_set(alloc, files.files.as_slice(), fault)?)),
        Err(BuildError::NoMemory) => Err(NoMemory),
    }
}

fn bad_set(alloc: Global, files: &[SetFile], fault: Fault) -> Result<BadSet, NoMemory>
    ensures { IfOk result (λ bad. Err bad ≡ or_bad files.now (Err fault)) }
{
    Ok(BadSet {
        path: path_of(alloc, files, fault)?,
        fault,
    })
}

/// The path of the file that has the fault, in a copy.
fn path_of(alloc: Global, files: &[SetFile], fault: Fault) -> Result<Text, NoMemory>
    ensures { IfOk result (λ path. path ≡ path_of files.now fault) }
{
    let mut left = fault.nth;
    for file in files {
        if has_role(file, fault.role) {
            if left <= 1 {
                return file.path.copy(alloc);
            }
            left -= 1;
        }
    }
    Ok(Text::from_vec(Vec::new(alloc)))
}
