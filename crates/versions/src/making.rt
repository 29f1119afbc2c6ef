ghost use Rattle.std.specs.Prelude.{◌≡◌, ◌^◌, ◌<◌, [], ◌∷◌, replicate, Some, IfOk};
ghost use Rattle.std.specs.Arc.{arc_value};
ghost use Rattle.left_right.specs.Sides.{view as seat_view};
ghost use Rattle.versions.specs.Histories.{started};

use crate::known::Known;
use crate::publisher::Publisher;
use crate::reader::Reader;
use crate::shown::{Shown, Told};
use crate::writer::{Copies, install};
use left_right::writer::Writer;
use mz_base::NoMemory;
use std::alloc::{AllocError, Global};
use std::sync::{Arc, Wait};

/// Why a registry was not made.
#[derive(Clone, Copy, Debug, PartialEq, Eq)]
pub enum RegistryError {
    NoMemory,
    /// `left_right` gave no place to a reader. It names no cause.
    Places,
}

impl From<NoMemory> for RegistryError {
    fn from(_error: NoMemory) -> RegistryError
        ensures { result ≡ RegistryError.NoMemory }
    {
        RegistryError::NoMemory
    }
}

impl From<AllocError> for RegistryError {
    fn from(_error: AllocError) -> RegistryError
        ensures { result ≡ RegistryError.NoMemory }
    {
        RegistryError::NoMemory
    }
}

/// A registry that shows `start`, with its one publisher and so many readers. No other reader can be made later.
pub fn registry<T: Drop, E: Drop, R: Wait>(
    rt: &R,
    alloc: Global,
    start: Arc<T>,
    readers: usize,
) -> Result<(Publisher<T, E>, Vec<Reader<T, E>>), RegistryError>
    requires some { 0 < readers }
    requires bounded { readers < 2 ^ 32 }
    ensures history { IfOk result (λ made. made.0.log ≡ started (arc_value start) ∷ []) }
    ensures readers { IfOk result (λ made. made.1.items ≡ replicate readers (record { prefix = made.0; unmet = 0 })) }
{
    let (known, head) = Known::open(&start);
    let start = Shown::new(start, known);
    let operation = start.another()?;
    let copies = Writer::new(alloc, start.another()?, start.another()?, readers)?;
    let (mut copies, shown) = install(copies, rt, operation);
    if shown.is_err() {
        copies.take(rt);
        return Err(RegistryError::NoMemory);
    }
    match seat_readers(&mut copies, alloc, &start, readers) {
        Ok(readers) => Ok((Publisher::new(alloc, copies, head, start), readers)),
        Err(error) => {
            copies.take(rt);
            Err(error)
        }
    }
}

// So many readers that stand for the start.
fn seat_readers<T: Drop, E: Drop>(
    copies: &mut Copies<T, E>,
    alloc: Global,
    start: &Shown<T, E>,
    readers: usize,
) -> Result<Vec<Reader<T, E>>, RegistryError>
    requires { seat_view copies.old.desk.place ≡ Some start.now.known }
    ensures shown { copies.new.desk.shown ≡ copies.old.desk.shown }
    ensures readers { IfOk result (λ all. all.items ≡ replicate readers (record { prefix = start.now.known; unmet = 0 })) }
{
    let mut all = Vec::new(alloc);
    for _ in 0..readers {
        all.push(seat_reader(copies, start)?)
            .map_err(NoMemory::from)?;
    }
    Ok(all)
}

// A reader whose seat is told of the start: that names its registry.
fn seat_reader<T: Drop, E: Drop>(
    copies: &mut Copies<T, E>,
    start: &Shown<T, E>,
) -> Result<Reader<T, E>, RegistryError>
    requires { seat_view copies.old.desk.place ≡ Some start.now.known }
    ensures shown { copies.new.desk.shown ≡ copies.old.desk.shown }
    ensures seat { seat_view copies.new.desk.place ≡ seat_view copies.old.desk.place }
    ensures reader { IfOk result (λ reader. reader ≡ record { prefix = start.now.known; unmet = 0 }) }
{
    let kept = start.another()?;
    let Ok(mut seat) = copies.factory().reader() else {
        return Err(RegistryError::Places);
    };
    seat.learn::<Told>(copies.tell::<Told>());
    Ok(Reader::new(seat, kept))
}
