ghost use Rattle.std.specs.Prelude.{◌≡◌, ◌≢◌, ◌≤◌, [], Some, Err, IfOk, length};
ghost use Rattle.world_files.specs.Reading.{Files, Reads, Tells, IsRefusal, file, within, no_file, data_file, files_after};

use engine::SetFile;
use mz_base::{Limit, NoMemory, Refusal, Seq, Text};
use mz_outside::{Store, StoreFault};
use scenario::FileLine;
use std::alloc::Global;

/// The most bytes of all files that a command reads, together.
pub const MOST_READ_BYTES: usize = 1 << 30;

/// A data file, and the number of its set.
#[derive(Drop)]
pub struct DataFile {
    pub set: u32,
    pub file: SetFile,
}

/// The data files of a command, and how many bytes may be read after them.
#[derive(Drop)]
pub struct Found {
    pub files: Seq<DataFile>,
    pub left: usize,
}

/// All the bytes of a file that has no more of them than may still be read.
pub fn read_file<S: Store>(
    alloc: Global,
    store: &mut S,
    left: usize,
    name: &Text,
) -> Result<Vec<u8>, Refusal>
    ensures told { (files : Files) → S.files store.old ≡ Some files → Tells (λ bytes. bytes.items) result (file files left name.now) }
    ensures inside { IfOk result (λ bytes. length bytes.items ≤ left) }
    ensures reads { Reads (S.files store.old) (S.files store.new) (S.faults store.old) (S.faults store.new) result }
{
    let path = name.to_string(alloc)?;
    match store.read(path.as_str()) {
        Ok(bytes) => small_enough(left, name, bytes),
        Err(StoreFault::Absent) => Err(absent(alloc, name)),
        Err(StoreFault::Failed) => Err(Refusal::ReadFault),
        Err(StoreFault::NoMemory) => Err(Refusal::Memory),
    }
}

fn small_enough(left: usize, name: &Text, bytes: Vec<u8>) -> Result<Vec<u8>, Refusal>
    ensures told { Tells (λ bytes. bytes.items) result (within left name.now (Some bytes.items)) }
    ensures inside { IfOk result (λ bytes. length bytes.items ≤ left) }
    ensures reads_nothing { result ≢ Err Refusal.ReadFault }
{
    if left < bytes.len() {
        return Err(Refusal::TooLarge(Limit::Bytes));
    }
    Ok(bytes)
}

fn absent(alloc: Global, name: &Text) -> Refusal
    ensures told { IsRefusal result (no_file name.now) }
    ensures reads_nothing { result ≢ Refusal.ReadFault }
{
    match name.copy(alloc) {
        Ok(name) => Refusal::Absent(name),
        Err(NoMemory) => Refusal::Memory,
    }
}

/// The files of these lines, in their order. A file that two lines name is read twice.
pub fn read_files<S: Store>(
    alloc: Global,
    store: &mut S,
    left: usize,
    lines: &[FileLine],
) -> Result<Found, Refusal>
    ensures told { (files : Files) → S.files store.old ≡ Some files → Tells (λ found. found) result (files_after files [] left lines.now) }
    ensures count { IfOk result (λ found. length found.files ≤ length lines.now) }
    ensures reads { Reads (S.files store.old) (S.files store.new) (S.faults store.old) (S.faults store.new) result }
{
    let mut files = Vec::new(alloc);
    let mut unread = left;
    for line in lines {
        let bytes = read_file(alloc, store, unread, &line.path)?;
        unread -= bytes.len();
        files.push(data_file(alloc, line, bytes)?)?;
    }
    Ok(Found {
        files: Seq::from_vec(files),
        left: unread,
    })
}

fn data_file(alloc: Global, line: &FileLine, bytes: Vec<u8>) -> Result<DataFile, NoMemory>
    ensures { IfOk result (λ file. file ≡ data_file line.now bytes.items) }
{
    Ok(DataFile {
        set: line.set,
        file: SetFile {
            role: line.role,
            path: line.path.copy(alloc)?,
            bytes: Seq::from_vec(bytes),
        },
    })
}
