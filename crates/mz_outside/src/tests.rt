ghost use Rattle.std.specs.Prelude.{◌≡◌, ◌≢◌, List, ℕ, IfSome, Some, refl};
ghost use Rattle.mz_outside.specs.Causes.{Rose};
ghost use Rattle.mz_outside.specs.Reading.{KeepsStore};
ghost use Rattle.mz_outside.specs.Taken.{with_more, AddsFront};

use crate::file_store::read_front;
use crate::*;
use std::alloc::Global;
use std::fs;
use std::io::{self, ErrorKind, Read, Write};
use std::test::Fail;

const TEXT: &[u8] = b"some bytes\n";

#[derive(Clone, Copy, Debug, PartialEq, Eq)]
enum Status {
    Done,
    FirstAbsent,
    SecondAbsent,
    ReadFault,
    WriteFault,
    Memory,
}

// A call over any store and any sink: it reads two files and writes the second. Its clauses follow from the traits' alone.
fn copy_second<S: Store, K: Sink>(store: &mut S, sink: &mut K, first: &str, second: &str) -> Status
    ensures done { result ≡ Status.Done → IfSome (S.files store.old) (λ named. (bytes : List ℕ) × (named second.now ≡ Some bytes) × (K.bytes sink.new ≡ with_more (K.bytes sink.old) bytes)) }
    ensures first { result ≡ Status.FirstAbsent → IfSome (S.files store.old) (λ named. named first.now ≡ None) }
    ensures second { result ≡ Status.SecondAbsent → IfSome (S.files store.old) (λ named. named second.now ≡ None) }
    ensures store { KeepsStore (S.files store.old) (S.files store.new) (S.faults store.old) (S.faults store.new) (result ≡ Status.ReadFault) }
    ensures write { result ≡ Status.WriteFault → Rose (K.faults sink.old) (K.faults sink.new) }
    ensures front { result ≡ Status.WriteFault → IfSome (S.files store.old) (λ named. (bytes : List ℕ) × (named second.now ≡ Some bytes) × AddsFront (K.bytes sink.old) (K.bytes sink.new) bytes) }
    // Where no fault was counted and memory sufficed, a file that is missing is told.
    ensures missing_first { (Rose (S.faults store.old) (S.faults store.new) → ⊥) → result ≢ Status.Memory → IfSome (S.files store.old) (λ named. named first.now ≡ None → result ≡ Status.FirstAbsent) }
    ensures missing_second { (Rose (S.faults store.old) (S.faults store.new) → ⊥) → result ≢ Status.Memory → IfSome (S.files store.old) (λ named. (first_bytes : List ℕ) → named first.now ≡ Some first_bytes → named second.now ≡ None → result ≡ Status.SecondAbsent) }
{
    match store.read(first) {
        Ok(_) => {}
        Err(StoreFault::Absent) => return Status::FirstAbsent,
        Err(StoreFault::Failed) => return Status::ReadFault,
        Err(StoreFault::NoMemory) => return Status::Memory,
    }
    let bytes = match store.read(second) {
        Ok(bytes) => bytes,
        Err(StoreFault::Absent) => return Status::SecondAbsent,
        Err(StoreFault::Failed) => return Status::ReadFault,
        Err(StoreFault::NoMemory) => return Status::Memory,
    };
    match write_all(sink, &bytes) {
        Ok(()) => Status::Done,
        Err(SinkFault::Failed) => Status::WriteFault,
    }
}

// `u64::MAX` stands for a call that does not come.
#[test]
fn each_cause_has_its_status(rt: HostRuntime) -> Result<(), Fail> {
    let never = u64::MAX;
    let cases = [
        ("a", "b", never, never, Status::Done),
        ("x", "b", never, never, Status::FirstAbsent),
        ("a", "x", never, never, Status::SecondAbsent),
        ("x", "b", 1, never, Status::ReadFault),
        ("a", "x", 2, never, Status::ReadFault),
        ("a", "b", never, 4, Status::WriteFault),
    ];
    for (first, second, read, write, status) in cases {
        let mut store = MemoryStore::new(rt.alloc());
        store.add("a", b"kept")?;
        store.add("b", TEXT)?;
        store.add("b", b"never read")?;
        store.fail_at(read)?;
        let mut sink = MemorySink::new(rt.alloc(), 3);
        sink.fail_at(write)?;
        let answer = copy_second(&mut store, &mut sink, first, second);
        assert_eq!(rt; answer, status, "at {first} and {second}");
        match status {
            Status::Done => assert_eq!(rt; sink.as_slice(), TEXT),
            Status::WriteFault => assert_eq!(rt; sink.as_slice(), b"some byte".as_slice()),
            _ => assert_eq!(rt; sink.as_slice().len(), 0),
        }
    }
    Ok(())
}

#[test]
fn a_sink_that_fails_at_one_write_has_what_came_before(rt: HostRuntime) -> Result<(), Fail> {
    for failing in 1..13 {
        let mut sink = MemorySink::new(rt.alloc(), 1);
        sink.fail_at(failing)?;
        let answer = write_all(&mut sink, TEXT);
        let before = failing as usize - 1;
        let wanted = before.min(TEXT.len());
        assert_eq!(rt; answer.is_ok(), before == TEXT.len(), "at write {failing}");
        assert_eq!(rt; sink.as_slice().len(), wanted, "at write {failing}");
        assert!(rt; TEXT.starts_with(sink.as_slice()), "at write {failing}");
    }
    Ok(())
}

#[test]
fn what_takes_nothing_has_failed(rt: HostRuntime) -> Result<(), Fail> {
    let mut sink = MemorySink::new(rt.alloc(), 0);
    assert_eq!(rt; write_all(&mut sink, b""), Ok(()));
    assert_eq!(rt; write_all(&mut sink, TEXT), Err(SinkFault::Failed));
    let mut room = [0u8; 4];
    let mut out = OutSink::new(room.as_mut_slice());
    assert_eq!(rt; write_all(&mut out, TEXT), Err(SinkFault::Failed));
    drop(out);
    assert_eq!(rt; room, *b"some");
    Ok(())
}

#[test]
fn a_writer_has_all_bytes(rt: HostRuntime) -> Result<(), Fail> {
    let mut held = Vec::new(rt.alloc());
    let mut out = OutSink::new(&mut held);
    assert_eq!(rt; write_all(&mut out, TEXT), Ok(()));
    drop(out);
    assert_eq!(rt; held.as_slice(), TEXT);
    Ok(())
}

#[test]
fn sure_ones_answer(rt: HostRuntime) -> Result<(), Fail> {
    let mut store = SureStore::new(rt.alloc());
    store.add("読み", TEXT)?;
    let mut sink = SureSink::new();
    assert_eq!(rt;
        copy_second(&mut store, &mut sink, "読み", "読み"),
        Status::Done
    );
    assert_eq!(rt; sink.taken(), TEXT.len() as u64);
    Ok(())
}

#[test]
fn real_files(rt: HostRuntime) -> Result<(), Fail> {
    let _ = fs::remove_dir_all(&rt, "mz_outside_test");
    fs::create_dir(&rt, "mz_outside_test")?;
    // More than 1 MiB, and no multiple of what one read takes.
    let long = vec![in rt.alloc(); 7u8; 3_000_001]?;
    fs::write(&rt, "mz_outside_test/long", long.as_slice())?;
    fs::write(&rt, "mz_outside_test/empty", b"".as_slice())?;
    let mut store = FileStore::new(&rt, rt.alloc());
    let cases = [
        ("mz_outside_test/long", Ok(3_000_001)),
        ("mz_outside_test/empty", Ok(0)),
        ("mz_outside_test/none", Err(StoreFault::Absent)),
        ("mz_outside_test", Err(StoreFault::Failed)),
        ("mz_outside_test/long/none", Err(StoreFault::Failed)),
    ];
    for (name, wanted) in cases {
        let answer = store.read(name);
        assert_eq!(rt; answer.map(|bytes| bytes.len()), wanted, "of {name}");
    }
    assert!(rt; store.read("mz_outside_test/long") == Ok(long));
    fs::remove_dir_all(&rt, "mz_outside_test")?;
    Ok(())
}

/// What comes to pass at the calls of a reader or a writer.
#[derive(Clone, Copy)]
struct Weather {
    calls: u32,
    /// So many calls are interrupted before each one that is not.
    interrupted: u32,
    /// This call fails. The first is 1.
    failing: u32,
}

impl Weather {
    fn next(&mut self) -> io::Result<()> {
        self.calls = self.calls.saturating_add(1);
        if self.calls == self.failing {
            return Err(io::Error::from(ErrorKind::Other));
        }
        if self.interrupted == u32::MAX || self.calls % (self.interrupted + 1) != 0 {
            return Err(io::Error::from(ErrorKind::Interrupted));
        }
        Ok(())
    }
}

/// A writer that takes three bytes a write at most.
struct RoughWriter {
    held: Vec<u8>,
    weather: Weather,
}

impl Write for RoughWriter {
    ghost contents = { λ w. Some w.held.items };

    fn write(&mut self, buf: &[u8]) -> io::Result<usize> {
        self.weather.next()?;
        let (front, _) = buf.split_at(buf.len().min(3));
        self.held.extend_from_slice(front)?;
        Ok(front.len())
    }

    fn flush(&mut self) -> io::Result<()> {
        Ok(())
    }
}

impl SteadyWriter for RoughWriter {
    ghost steady = { λ _ _. refl };
}

/// How writing all of the text ended, what the writer holds, and how often it was called.
fn written(alloc: Global, interrupted: u32, failing: u32) -> (Result<(), SinkFault>, Vec<u8>, u32) {
    let mut writer = RoughWriter {
        held: Vec::new(alloc),
        weather: Weather {
            calls: 0,
            interrupted,
            failing,
        },
    };
    let mut sink = OutSink::new(&mut writer);
    let answer = write_all(&mut sink, TEXT);
    drop(sink);
    let RoughWriter { held, weather } = writer;
    (answer, held, weather.calls)
}

#[test]
fn a_writer_that_fails_has_what_came_before(rt: HostRuntime) {
    let cases: [(u32, Result<(), SinkFault>, &[u8]); 6] = [
        (1, Err(SinkFault::Failed), b""),
        (2, Err(SinkFault::Failed), b"som"),
        (3, Err(SinkFault::Failed), b"some b"),
        (4, Err(SinkFault::Failed), b"some byte"),
        (5, Ok(()), TEXT),
        (0, Ok(()), TEXT),
    ];
    for (failing, answer, held) in cases {
        let (found, bytes, _) = written(rt.alloc(), 0, failing);
        assert_eq!(rt; found, answer, "at write {failing}");
        assert_eq!(rt; bytes.as_slice(), held, "at write {failing}");
    }
}

#[test]
fn an_interrupted_write_is_tried_again(rt: HostRuntime) {
    let (answer, bytes, calls) = written(rt.alloc(), 2, 0);
    assert_eq!(rt; answer, Ok(()));
    assert_eq!(rt; bytes.as_slice(), TEXT);
    assert_eq!(rt; calls, 12);
    let (answer, bytes, calls) = written(rt.alloc(), u32::MAX, 0);
    assert_eq!(rt; answer, Err(SinkFault::Failed));
    assert_eq!(rt; bytes.len(), 0);
    assert_eq!(rt; calls, MOST_TRIES);
}

/// A reader that gives four bytes a read at most.
#[derive(Drop)]
struct RoughReader<'a> {
    left: &'a [u8],
    weather: Weather,
}

impl Read for RoughReader<'_> {
    fn read(&mut self, buf: &mut [u8]) -> io::Result<usize> {
        self.weather.next()?;
        let room = buf.len().min(4);
        self.left.read(&mut buf[..room])
    }
}

#[test]
fn an_interrupted_read_is_tried_again(rt: HostRuntime) {
    let cases = [
        (0, 0, Ok(TEXT.len()), 4),
        (2, 0, Ok(TEXT.len()), 12),
        (2, 7, Err(StoreFault::Failed), 7),
        (u32::MAX, 0, Err(StoreFault::Failed), MOST_TRIES),
    ];
    for (interrupted, failing, wanted, calls) in cases {
        let mut reader = RoughReader {
            left: TEXT,
            weather: Weather {
                calls: 0,
                interrupted,
                failing,
            },
        };
        let answer = read_front(rt.alloc(), &mut reader);
        assert_eq!(rt;
            answer.map(|bytes| bytes.len()),
            wanted,
            "after {interrupted}"
        );
        assert_eq!(rt; reader.weather.calls, calls, "after {interrupted}");
    }
}
