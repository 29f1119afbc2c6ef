//! A writer as a sink.
ghost use Rattle.std.specs.Prelude.{◌≡◌, ◌≤◌, ℕ, List, Option, length, take, is_some, refl, IfSome, IfNone};
ghost use Rattle.mz_outside.specs.Taken.{with_more};

use crate::{MOST_TRIES, Sink, SinkFault};
use std::io::{self, ErrorKind, Write};
use std::marker::Model;

/// A writer that tells what it holds at all times, or never does.
pub trait SteadyWriter: Write {
    ghost steady: { (x y : Self) → is_some (Self.contents x) ≡ is_some (Self.contents y) };
}

/// The runtime's writer. What it hands to the system no contract sees.
impl<P: Print> SteadyWriter for io::Printer<'_, P> {
    ghost steady = { λ _ _. refl };
}

impl SteadyWriter for Vec<u8> {
    ghost steady = { λ _ _. refl };
}

impl SteadyWriter for &mut [u8] {
    ghost steady = { λ _ _. refl };
}

impl<W: SteadyWriter> SteadyWriter for &mut W {
    ghost steady = { λ x y. W.steady x.now y.now };
}

/// Writes to a writer, as standard output. It tells what the writer tells.
///
/// A writer that holds bytes back has to be flushed by its owner, so hand it one that does not.
#[derive(Drop)]
pub struct OutSink<W> {
    out: W,
    faults: u64,
}

impl<W> Model for OutSink<W> {
    ghost use Rattle.mz_outside.specs.Written.{SinkOver};

    ghost Value = { SinkOver W };

    ghost view = { λ s. record { out = s.out; faults = s.faults } };
}

impl<W: SteadyWriter + Drop> OutSink<W> {
    pub fn new(out: W) -> Self
        ensures { result ≡ record { out = out; faults = 0 } }
    {
        OutSink { out, faults: 0 }
    }
}

impl<W: SteadyWriter + Drop> Sink for OutSink<W> {
    ghost bytes = { λ s. W.contents s.out };

    ghost faults = { λ s. s.faults };

    /// It fails too where a signal interrupts each of its tries.
    #[tactic(auto, using(crate::proofs::TakenLemmas::steady_writes))]
    fn write(&mut self, piece: &[u8]) -> Result<usize, SinkFault> {
        match write_some(&mut self.out, piece) {
            Some(count) if count > 0 || piece.is_empty() => Ok(count),
            _ => {
                self.faults = self.faults.saturating_add(1);
                Err(SinkFault::Failed)
            }
        }
    }
}

// Writes once, and again where a signal interrupts it. It answers none where that failed.
#[tactic(auto, using(crate::proofs::TakenLemmas::steady_writes))]
fn write_some<W: SteadyWriter>(out: &mut W, piece: &[u8]) -> Option<usize>
    ensures took { IfSome result (λ n. W.contents out.new ≡ with_more (W.contents out.old) (take n piece.now)) }
    ensures within { IfSome result (λ n. n ≤ length piece.now) }
    ensures nothing { IfNone result (W.contents out.new ≡ W.contents out.old) }
{
    for _ in 0..MOST_TRIES {
        match out.write(piece) {
            Ok(count) => return Some(count),
            Err(error) if error.kind() == ErrorKind::Interrupted => {}
            Err(_) => return None,
        }
    }
    None
}
