//! The files of the runtime as a store.
ghost use Rattle.std.specs.Prelude.{◌≡◌, ◌≢◌, ◌<◌, ◌≤◌, ◌+◌, ℕ, List, Option, length, take, None, IfOk, OnOk, vec_len};
ghost use Rattle.std.specs.Io.KnownBytes.{Consumes, IsAtEnd};
ghost use Rattle.mz_outside.specs.Front.{IsFront};
ghost use Rattle.mz_outside.specs.Reading.{IsRead};

use crate::{MOST_READ, MOST_TRIES, Store, StoreFault};
use std::alloc::{AllocError, Global};
use std::fs;
use std::io::{self, ErrorKind, Read};
use std::marker::Model;
use std::rt::Files;

/// The bytes of one read.
const CHUNK: usize = 1 << 16;

/// Reads real files by their paths. It tells nothing of what they hold.
#[derive(Drop)]
pub struct FileStore<'a, R> {
    rt: &'a R,
    alloc: Global,
    faults: u64,
}

impl<'a, R> Model for FileStore<'a, R> {
    ghost Value = { ℕ };

    ghost view = { λ s. s.faults };
}

impl<'a, R: Files> FileStore<'a, R> {
    pub fn new(rt: &'a R, alloc: Global) -> Self
        ensures { result ≡ 0 }
    {
        FileStore {
            rt,
            alloc,
            faults: 0,
        }
    }

    fn read_file(&self, name: &str) -> Result<Vec<u8>, StoreFault>
        ensures within { IfOk result (λ bytes. vec_len bytes ≤ MOST_READ) }
    {
        match fs::open(self.rt, name) {
            Ok(mut file) => read_front(self.alloc, &mut file),
            Err(error) if error.kind() == ErrorKind::NotFound => Err(StoreFault::Absent),
            Err(error) => Err(fault_of(&error)),
        }
    }
}

impl<R: Files> Store for FileStore<'_, R> {
    ghost files = { λ _. None };

    ghost faults = { λ s. s };

    /// `Absent` is the runtime's "not found" at the opening. Anything else that fails is `Failed`.
    fn read(&mut self, name: &str) -> Result<Vec<u8>, StoreFault>
        ensures read { IsRead None None self.old self.new name.now result }
        ensures most { IfOk result (λ bytes. length bytes.items ≤ MOST_READ) }
    {
        let answer = self.read_file(name);
        if let Err(StoreFault::Failed) = answer {
            self.faults = self.faults.saturating_add(1);
        }
        answer
    }
}

fn fault_of(error: &io::Error) -> StoreFault
    ensures { result ≢ StoreFault.Absent }
{
    match error.kind() {
        ErrorKind::OutOfMemory => StoreFault::NoMemory,
        _ => StoreFault::Failed,
    }
}

// All that is left of a reader, or its first `MOST_READ` bytes.
#[tactic(auto, using(crate::proofs::FrontLemmas::fronts))]
pub(crate) fn read_front<R: Read>(alloc: Global, reader: &mut R) -> Result<Vec<u8>, StoreFault>
    ensures front { IfOk result (λ bytes. IsFront MOST_READ (R.remaining reader.old) bytes.items) }
    ensures within { IfOk result (λ bytes. vec_len bytes ≤ MOST_READ) }
    ensures there { result ≢ Err StoreFault.Absent }
{
    let mut chunk = zeros(alloc, CHUNK)?;
    let mut bytes = Vec::new(alloc);
    'pieces: while bytes.len() < MOST_READ {
        let room = chunk.len().min(MOST_READ - bytes.len());
        if read_piece(reader, &mut chunk[..room], &mut bytes)? == 0 {
            return Ok(bytes);
        }
    }
    Ok(bytes)
}

// The count is a parameter so that no proof writes out the list.
fn zeros(alloc: Global, count: usize) -> Result<Vec<u8>, AllocError>
    ensures { IfOk result (λ zeros. vec_len zeros ≡ count) }
{
    vec![in alloc; 0u8; count]
}

// Reads once, and again where a signal interrupts it.
fn read_some<R: Read>(reader: &mut R, chunk: &mut [u8]) -> Result<usize, StoreFault>
    ensures room { length chunk.new ≡ length chunk.old }
    ensures within { IfOk result (λ n. n ≤ length chunk.new) }
    ensures consumed { IfOk result (λ n. Consumes (R.remaining reader.old) (R.remaining reader.new) (take n chunk.new)) }
    ensures end { IfOk result (λ n. n ≡ 0 → 0 < length chunk.old → IsAtEnd (R.remaining reader.new)) }
    ensures there { result ≢ Err StoreFault.Absent }
{
    for _ in 0..MOST_TRIES {
        match reader.read(chunk) {
            Ok(count) => return Ok(count),
            Err(error) if error.kind() == ErrorKind::Interrupted => {}
            Err(error) => return Err(fault_of(&error)),
        }
    }
    Err(StoreFault::Failed)
}

// Reads after what was read before, and answers how many bytes.
#[tactic(auto, using(crate::proofs::FrontLemmas::pieces))]
fn read_piece<R: Read>(
    reader: &mut R,
    chunk: &mut [u8],
    bytes: &mut Vec<u8>,
) -> Result<usize, StoreFault>
    ensures within { IfOk result (λ n. n ≤ length chunk.old) }
    ensures longer { IfOk result (λ n. vec_len bytes.new ≡ vec_len bytes.old + n) }
    ensures end { IfOk result (λ n. n ≡ 0 → 0 < length chunk.old → IsAtEnd (R.remaining reader.new)) }
    ensures consumed { OnOk result ((first : Option (List ℕ)) → Consumes first (R.remaining reader.old) bytes.old.items → Consumes first (R.remaining reader.new) bytes.new.items) }
    ensures there { result ≢ Err StoreFault.Absent }
{
    match read_some(reader, chunk) {
        Ok(count) => {
            bytes.extend_from_slice(&chunk[..count])?;
            Ok(count)
        }
        Err(fault) => Err(fault),
    }
}
