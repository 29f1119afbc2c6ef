use mozc_cli::{Told, ending_of, local, tell};
use mz_base::{Refusal, Status};
use mz_outside::{MemorySink, MemoryStore, SureSink, SureStore};
use std::alloc::{AllocError, Global};
use std::test::Fail;

const MANIFEST: &[u8] = b"DATASET\tk\nFILE\tk\tromaji\tk.tsv\nUSER\tu\nCLIENT\tc1\tu\ts\n";

const SCRIPT: &str = "SEND_KEYS\tka\nSEND_KEY\tEnter\nEXPECT_RESULT\tか\n";

const TABLE: &str = "a\tあ\nka\tか\n";

const REPORT: &str = "client\tc1\tu
1\tdone\tC\t1\t\tk\t1
2\tdone\tC\t1\t\tか\t1
3\tdone\tP\t0\tか
4\tmet\tP\t0\t
jobs
job\t1\tpublished
journal\tu
end\tc1\t0
schedule
job\t1\tpublished
take\tc1\t1
step\tc1
step\tc1
step\tc1
step\tc1
end\tc1
close
";

const LISTING: &str = "set\tk\t1\t0\t2\n";

fn words(alloc: Global, command: &str) -> Result<Vec<String>, AllocError> {
    let mut words = Vec::new(alloc);
    words.push(String::from_str(alloc, command)?)?;
    words.push(String::from_str(alloc, "m")?)?;
    Ok(words)
}

/// The manifest, the script and the table, and the reads that are to fail.
fn store(alloc: Global, failing: u64) -> Result<MemoryStore, AllocError> {
    let mut store = MemoryStore::new(alloc);
    store.add("m", MANIFEST)?;
    store.add("s", SCRIPT.as_bytes())?;
    store.add("k.tsv", TABLE.as_bytes())?;
    store.fail_at(failing)?;
    Ok(store)
}

#[test]
fn a_read_that_fails_is_a_read_fault(rt: HostRuntime) -> Result<(), Fail> {
    let alloc = rt.alloc();
    let words = words(alloc, "run")?;
    for failing in 1..5 {
        let mut store = store(alloc, failing)?;
        let mut sink = MemorySink::new(alloc, 1000);
        let status = local(alloc, words.as_slice(), &mut store, &mut sink);
        let wanted = if failing < 4 { 3 } else { 0 };
        let bytes = if failing < 4 { 0 } else { REPORT.len() };
        assert_eq!(rt; status.number(), wanted, "at read {failing}");
        assert_eq!(rt; sink.as_slice().len(), bytes, "at read {failing}");
    }
    Ok(())
}

#[test]
fn a_write_that_fails_leaves_a_prefix_of_the_report(rt: HostRuntime) -> Result<(), Fail> {
    let alloc = rt.alloc();
    let words = words(alloc, "run")?;
    let report = REPORT.as_bytes();
    for failing in 1..220 {
        let mut store = store(alloc, 0)?;
        let mut sink = MemorySink::new(alloc, 1);
        sink.fail_at(failing)?;
        let status = local(alloc, words.as_slice(), &mut store, &mut sink);
        let before = failing as usize - 1;
        let wanted = if before < report.len() { 4 } else { 0 };
        assert_eq!(rt; status.number(), wanted, "at write {failing}");
        assert_eq!(rt;
            sink.as_slice().len(),
            before.min(report.len()),
            "at write {failing}"
        );
        assert!(rt; report.starts_with(sink.as_slice()), "at write {failing}");
    }
    Ok(())
}

#[test]
fn a_listing_is_refused_or_written_like_a_report(rt: HostRuntime) -> Result<(), Fail> {
    let alloc = rt.alloc();
    let words = words(alloc, "check")?;
    let listing = LISTING.as_bytes();
    for failing in 1..4 {
        let mut store = store(alloc, failing)?;
        let mut sink = MemorySink::new(alloc, 1000);
        let status = local(alloc, words.as_slice(), &mut store, &mut sink);
        // It reads the manifest and the table, and no script.
        let wanted = if failing < 3 { 3 } else { 0 };
        let bytes = if failing < 3 { 0 } else { listing.len() };
        assert_eq!(rt; status.number(), wanted, "at read {failing}");
        assert_eq!(rt; sink.as_slice().len(), bytes, "at read {failing}");
    }
    for failing in 1..16 {
        let mut store = store(alloc, 0)?;
        let mut sink = MemorySink::new(alloc, 1);
        sink.fail_at(failing)?;
        let status = local(alloc, words.as_slice(), &mut store, &mut sink);
        let before = failing as usize - 1;
        let wanted = if before < listing.len() { 4 } else { 0 };
        assert_eq!(rt; status.number(), wanted, "at write {failing}");
        assert!(rt; listing.starts_with(sink.as_slice()), "at write {failing}");
    }
    Ok(())
}

#[test]
fn nothing_is_there(rt: HostRuntime) -> Result<(), Fail> {
    let alloc = rt.alloc();
    let words = words(alloc, "run")?;
    let mut store = SureStore::new(alloc);
    let mut sink = SureSink::new();
    let status = local(alloc, words.as_slice(), &mut store, &mut sink);
    assert_eq!(rt; status.to_string(alloc)?.as_str(), "Absent m");
    store.add("m", MANIFEST)?;
    let status = local(alloc, words.as_slice(), &mut store, &mut sink);
    assert_eq!(rt; status.to_string(alloc)?.as_str(), "Absent s");
    let status = local(alloc, &words[..1], &mut store, &mut sink);
    assert_eq!(rt; status.number(), 2);
    assert_eq!(rt; sink.taken(), 0);
    Ok(())
}

#[test]
fn a_version_that_cannot_be_written_is_a_write_fault(rt: HostRuntime) -> Result<(), Fail> {
    let alloc = rt.alloc();
    let mut sink = MemorySink::new(alloc, 1000);
    assert_eq!(rt; tell(Told::Version, &mut sink).number(), 0);
    assert!(rt; sink.as_slice() == b"sockflint 0.1.0\n".as_slice());
    let mut sink = MemorySink::new(alloc, 1);
    sink.fail_at(3)?;
    assert_eq!(rt; tell(Told::Version, &mut sink).number(), 4);
    assert!(rt; sink.as_slice() == b"so".as_slice());
    Ok(())
}

#[test]
fn want_of_memory_is_told(rt: HostRuntime) -> Result<(), Fail> {
    let well = ending_of(&Status::Ok);
    assert!(rt; well.text.is_none());
    assert_eq!(rt; well.number, 0);
    let ending = ending_of(&Status::Refused(Refusal::Memory));
    assert!(rt; ending.text.is_some());
    assert_eq!(rt; ending.number, 1);
    Ok(())
}
