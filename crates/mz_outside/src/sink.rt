//! Bytes that go out, in pieces.
ghost use Rattle.std.specs.Prelude.{◌≡◌, ℕ, ◌<◌, ◌≤◌, List, length, take, Option, IfOk, OnOk, OnErr};
ghost use Rattle.mz_outside.specs.Causes.{Rose};
ghost use Rattle.mz_outside.specs.Taken.{with_more, AddsFront};

/// Why a piece was not taken.
#[derive(Clone, Copy, Debug, PartialEq, Eq)]
pub enum SinkFault {
    /// The sink failed, or would take nothing of a piece that is not empty.
    Failed,
}

/// What takes bytes, and a count of what failed.
pub trait Sink {
    /// The bytes that were taken, where the sink tells them.
    ghost bytes: { Self → Option (List ℕ) };

    /// How often a write has failed.
    ghost faults: { Self → ℕ };

    /// Takes some of a piece from its start, and answers how many bytes.
    fn write(&mut self, piece: &[u8]) -> Result<usize, SinkFault>
        ensures took { IfOk result (λ n. bytes self.new ≡ with_more (bytes self.old) (take n piece.now)) }
        ensures some { IfOk result (λ n. 0 < length piece.now → 0 < n) }
        ensures within { IfOk result (λ n. n ≤ length piece.now) }
        ensures nothing { OnErr result (bytes self.new ≡ bytes self.old) }

        // Each failed write is counted, and nothing else is.
        ensures later { faults self.old ≤ faults self.new }
        ensures ok_count { OnOk result (faults self.new ≡ faults self.old) }
        ensures failed { OnErr result (Rose (faults self.old) (faults self.new)) };
}

/// Writes all of the bytes, piece by piece.
#[tactic(auto, using(crate::proofs::TakenLemmas::longer_front))]
pub fn write_all<K: Sink>(sink: &mut K, bytes: &[u8]) -> Result<(), SinkFault>
    ensures whole { OnOk result (K.bytes sink.new ≡ with_more (K.bytes sink.old) bytes.now) }
    ensures front { OnErr result (AddsFront (K.bytes sink.old) (K.bytes sink.new) bytes.now) }

    // Each failed write is counted, and nothing else is.
    ensures later { K.faults sink.old ≤ K.faults sink.new }
    ensures ok_count { OnOk result (K.faults sink.new ≡ K.faults sink.old) }
    ensures failed { OnErr result (Rose (K.faults sink.old) (K.faults sink.new)) }
{
    let mut done = 0;
    while done < bytes.len() {
        let (_, rest) = bytes.split_at(done);
        done += sink.write(rest)?;
    }
    Ok(())
}
