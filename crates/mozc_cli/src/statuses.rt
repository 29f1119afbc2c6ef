ghost use Rattle.std.specs.Prelude.{◌≡◌, ◌≢◌, ◌≤◌};
ghost use Rattle.mz_outside.specs.Causes.{Rose};
ghost use Rattle.mozc_cli.specs.Reported.{shown, Writes};

use crate::outputs::Output;
use mz_base::Status;
use mz_outside::{Sink, write_all};

/// Writes an output, and answers how that went.
pub fn written<K: Sink>(output: &Output, sink: &mut K) -> Status
    ensures writes { Writes (shown output.now) (K.bytes sink.old) (K.bytes sink.new) result }
    ensures write_fault { result ≡ Status.WriteFault → Rose (K.faults sink.old) (K.faults sink.new) }
{
    if write_all(sink, output.text.as_slice()).is_err() {
        return Status::WriteFault;
    }
    if output.unmet {
        Status::Unmet
    } else {
        Status::Ok
    }
}
