//! A sink in memory.
ghost use Rattle.std.specs.Prelude.{◌≡◌, ◌<◌, min, [], ◌∷◌, ◌++◌, length, take, true, Some, IfOk, OnOk, OnErr, IsErr, IfSome, IfNone};
ghost use Rattle.mz_outside.specs.Plan.{next_fails, with_call, with_fault};
ghost use Rattle.mz_outside.specs.Memory.{SinkInMemory};

use crate::plan::Plan;
use crate::{Sink, SinkFault};
use std::alloc::{AllocError, Global};
use std::marker::Model;

/// Keeps in memory all that it takes, and tells it. It fails at the writes that it is told to.
#[derive(Drop)]
pub struct MemorySink {
    bytes: Vec<u8>,
    most: usize,
    plan: Plan,
}

impl Model for MemorySink {
    ghost Value = { SinkInMemory };

    ghost view = { λ s. record { bytes = s.bytes.items; most = s.most; plan = s.plan } };
}

impl MemorySink {
    /// A sink that takes at most so many bytes a write. Where that is 0, each write of a piece that is not empty fails.
    pub fn new(alloc: Global, most: usize) -> Self
        ensures { result ≡ record { bytes = []; most = most; plan = record { failing = []; calls = 0; faults = 0 } } }
    {
        MemorySink {
            bytes: Vec::new(alloc),
            most,
            plan: Plan::new(alloc),
        }
    }

    /// Has a write fail. The first write is 1.
    pub fn fail_at(&mut self, call: u64) -> Result<(), AllocError>
        ensures ok { OnOk result (self.new ≡ record self.old { plan = record self.old.plan { failing = self.old.plan.failing ++ call ∷ [] } }) }
        ensures err { OnErr result (self.new ≡ self.old) }
    {
        self.plan.fail_at(call)
    }

    /// All that was taken.
    pub fn as_slice(&self) -> &[u8]
        ensures { result.now ≡ self.now.bytes }
    {
        &self.bytes
    }
}

impl Sink for MemorySink {
    ghost bytes = { λ s. Some s.bytes };

    ghost faults = { λ s. s.plan.faults };

    /// It fails too where memory has run out.
    fn write(&mut self, piece: &[u8]) -> Result<usize, SinkFault>
        ensures ok { IfOk result (λ n. self.new ≡ record self.old { bytes = self.old.bytes ++ take n piece.now; plan = with_call self.old.plan }) }
        ensures count { IfOk result (λ n. n ≡ min self.old.most (length piece.now)) }
        ensures some { IfOk result (λ n. 0 < length piece.now → 0 < n) }
        ensures err { OnErr result (self.new ≡ record self.old { plan = with_fault (with_call self.old.plan) }) }
        ensures planned { next_fails self.old.plan ≡ true → IsErr result }
    {
        if self.plan.next_fails() {
            return Err(SinkFault::Failed);
        }
        match take_front(&mut self.bytes, self.most, piece) {
            Some(count) => Ok(count),
            None => {
                self.plan.raise();
                Err(SinkFault::Failed)
            }
        }
    }
}

// Takes at most so many bytes of a piece, or none where that is nothing of it or memory has run out.
fn take_front(bytes: &mut Vec<u8>, most: usize, piece: &[u8]) -> Option<usize>
    ensures took { IfSome result (λ n. bytes.new.items ≡ bytes.old.items ++ take n piece.now) }
    ensures count { IfSome result (λ n. n ≡ min most (length piece.now)) }
    ensures some { IfSome result (λ n. 0 < length piece.now → 0 < n) }
    ensures none { IfNone result (bytes.new.items ≡ bytes.old.items) }
{
    let count = most.min(piece.len());
    if count == 0 && !piece.is_empty() {
        return None;
    }
    let (front, _) = piece.split_at(count);
    bytes.extend_from_slice(front).ok()?;
    Some(count)
}
