ghost use Rattle.std.specs.Prelude.{◌≡◌, ℕ, ◌<◌, ◌≤◌, List, [], length, IfOk, IfSome, IfNone, OnErr, OnOk};
ghost use Rattle.std.specs.BinaryHeap.{heap_capacity, heap_items, heap_len};
ghost use Rattle.std.specs.List.Sorted.{IsPermutation};
ghost use Rattle.nbest.specs.Tails.{IsFamily, IsFirstOf, IsQueue, LosesFirst, Replaces, ending, families, family_of};

use crate::tail::{Tail, pass_to_next};
use mz_base::NoMemory;
use std::alloc::Global;
use std::cmp::Reverse;
use std::collections::BinaryHeap;
use std::collections::binary_heap::PeekMut;
use std::marker::Model;

/// Tails that a search has not looked at, the first in their order at hand. A tail stands in the heap for its siblings
/// too: the next of them takes its place when it leaves.
#[derive(Drop)]
pub struct Queue {
    heap: BinaryHeap<Reverse<Tail>>,
}

impl Model for Queue {
    ghost use Rattle.std.specs.Prelude.{List};
    ghost use Rattle.std.specs.BinaryHeap.{heap_items};
    ghost use Rattle.nbest.specs.Tails.{Ending, IsQueue, families};

    ghost Value = { List Ending };

    ghost view = { λ q. families (heap_items q.heap) };

    ghost invariant = { λ q. IsQueue (heap_items q.heap) };
}

impl Queue {
    /// A queue of a tail and its siblings.
    pub fn of(alloc: Global, tail: Option<Tail>) -> Result<Queue, NoMemory>
        requires family { IfSome tail IsFamily }
        ensures { IfOk result (λ queue. IsPermutation (family_of tail) queue) }
    {
        let mut heap = BinaryHeap::new(alloc);
        if let Some(tail) = tail {
            heap.push(Reverse(tail))?;
        }
        Ok(Queue { heap })
    }

    /// The first tail.
    pub fn first(&self) -> Option<&Reverse<Tail>>
        ensures none { IfNone result (self.now ≡ []) }
        ensures first { IfSome result (λ tail. IsFirstOf self.now (ending tail.now.0)) }
    {
        self.heap.peek()
    }

    /// Takes the first tail out.
    pub fn drop_first(&mut self)
        requires some { 0 < length self.old }
        ensures { LosesFirst self.old self.new }
    {
        pass_first(&mut self.heap);
    }

    /// Puts a tail and its siblings in the place of the first tail. Room is made before anything changes.
    pub fn replace_first(&mut self, tail: Option<Tail>) -> Result<(), NoMemory>
        requires some { 0 < length self.old }
        requires family { IfSome tail IsFamily }
        ensures ok { OnOk result (Replaces self.old (family_of tail) self.new) }
        ensures err { OnErr result (self.new ≡ self.old) }
    {
        self.heap.reserve(1)?;
        pass_first(&mut self.heap);
        if let Some(tail) = tail {
            self.heap.push(Reverse(tail))?;
        }
        Ok(())
    }
}

/// Takes the first tail out of a heap, and puts its next sibling in its place, if there is one.
fn pass_first(heap: &mut BinaryHeap<Reverse<Tail>>)
    requires some { 0 < heap_len heap.old }
    requires queue { IsQueue (heap_items heap.old) }
    ensures queue { IsQueue (heap_items heap.new) }
    ensures rest { LosesFirst (families (heap_items heap.old)) (families (heap_items heap.new)) }
    ensures len { heap_len heap.new ≤ heap_len heap.old }
    ensures capacity { heap_capacity heap.old ≤ heap_capacity heap.new }
{
    let Some(mut top) = heap.peek_mut() else {
        unreachable!();
    };
    if !pass_to_next(&mut top.0) {
        PeekMut::pop(top);
    }
}
