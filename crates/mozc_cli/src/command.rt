ghost use Rattle.std.specs.Prelude.{◌≡◌, ◌≢◌, ◌↔◌, map, Some, None};
ghost use Rattle.std.specs.String.{string_bytes};
ghost use Rattle.mz_outside.specs.Causes.{Rose};
ghost use Rattle.world_files.specs.Reading.{Files};
ghost use Rattle.mozc_cli.specs.Args.{IsFit, parse};
ghost use Rattle.mozc_cli.specs.declared.args.Request.{Request};
ghost use Rattle.mozc_cli.specs.Settles.{Means, Settles, IsSilent};

use crate::args::{Request, parse};
use crate::outputs::output_for;
use crate::statuses::written;
use mz_base::{Refusal, Status};
use mz_outside::{Sink, Store};
use std::alloc::Global;

/// Carries out a command of the program. `run M` runs the clients of the manifest M and writes the report; `replay M F` runs
/// them by the schedule in the file F, which may be a report; `check M` reads all data of the manifest M and lists its data
/// sets; `convert M set key`, also with bounds, writes the best path of a key with its certificate; `verify M set key F` tests
/// the certificate in the file F.
///
/// Files are read in the order of work: the manifest, the scripts, the data files, the users' dictionaries, and a schedule or a
/// certificate. After a refusal nothing was written.
/// Want of memory may stand in place of any answer but `Usage`.
pub fn local<S: Store, K: Sink>(
    alloc: Global,
    words: &[String],
    store: &mut S,
    sink: &mut K,
) -> Status
    // `Usage` comes exactly where the words are no command.
    ensures usage { (result ≡ Status.Usage) ↔ (parse (map string_bytes words.now) ≡ None) }

    // Where the store tells its files, each other status says what they give, and what was written is that: of `run` and
    // `replay`, the report of the one-thread run of the schedule that it prints.
    ensures settled { (files : Files) (request : Request) → S.files store.old ≡ Some files → parse (map string_bytes words.now) ≡ Some request →
        Settles (Means files request) (K.bytes sink.old) (K.bytes sink.new) result }

    // A refused call writes nothing, whatever the store tells.
    ensures silent { IsSilent (K.bytes sink.old) (K.bytes sink.new) result }

    // Faults come only where they were counted in this call.
    ensures read_fault { result ≡ Status.Refused Refusal.ReadFault → Rose (S.faults store.old) (S.faults store.new) }
    ensures write_fault { result ≡ Status.WriteFault → Rose (K.faults sink.old) (K.faults sink.new) }

    // Where memory runs out no fault of the store was counted, so no fault is told as want of memory.
    ensures memory { result ≡ Status.Refused Refusal.Memory → S.faults store.new ≡ S.faults store.old }
    ensures same { S.files store.new ≡ S.files store.old }
{
    match parse(words) {
        Some(request) => answer(alloc, &request, store, sink),
        None => Status::Usage,
    }
}

fn answer<S: Store, K: Sink>(
    alloc: Global,
    request: &Request<'_>,
    store: &mut S,
    sink: &mut K,
) -> Status
    requires { IsFit request.now }
    ensures usage { result ≢ Status.Usage }
    ensures settled { (files : Files) → S.files store.old ≡ Some files → Settles (Means files request.now) (K.bytes sink.old) (K.bytes sink.new) result }
    ensures silent { IsSilent (K.bytes sink.old) (K.bytes sink.new) result }
    ensures read_fault { result ≡ Status.Refused Refusal.ReadFault → Rose (S.faults store.old) (S.faults store.new) }
    ensures write_fault { result ≡ Status.WriteFault → Rose (K.faults sink.old) (K.faults sink.new) }
    ensures memory { result ≡ Status.Refused Refusal.Memory → S.faults store.new ≡ S.faults store.old }
    ensures same { S.files store.new ≡ S.files store.old }
{
    match output_for(alloc, store, request) {
        Ok(output) => written(&output, sink),
        Err(refusal) => Status::Refused(refusal),
    }
}
