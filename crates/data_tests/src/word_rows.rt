use dict_rows::*;
use mz_base::{FaultKind, NoMemory, ReadError, WordRow};
use std::alloc::Global;

/// The number of rows and the last cost that a file gives, or its fault.
fn counts(
    alloc: Global,
    bytes: &[u8],
    before: Vec<WordRow>,
) -> Option<Result<(usize, Option<i32>), FaultKind>> {
    match read(alloc, bytes, 10, before) {
        Ok(rows) => Some(Ok((rows.len(), rows.last().map(|row| row.cost)))),
        Err(ReadError::Fault(kind)) => Some(Err(kind)),
        Err(ReadError::NoMemory) => None,
    }
}

#[test]
fn reads_the_lines_of_a_file(rt: HostRuntime) {
    let cases: [(&str, Result<(usize, Option<i32>), FaultKind>); 42] = [
        ("", Ok((0, None))),
        (
            "\u{FEFF}あい\t1\t9\t-5\t愛\r\n\nあい\t1\t9\t-5\t愛",
            Ok((2, Some(-5))),
        ),
        ("あ\t0\t0\t7\t亜\tSPELLING_CORRECTION\t\t\n", Ok((1, Some(7)))),
        ("あ\t1\t1\tx\t亜\n", Err(FaultKind::Number(1))),
        ("あ\t1\t1\t1000000\t亜\n", Ok((1, Some(1_000_000)))),
        ("あ\t1\t1\t1000001\t亜\n", Err(FaultKind::Range(1))),
        ("あ\t1\t1\t-1000001\t亜\n", Err(FaultKind::Range(1))),
        ("あ\t9\t9\t0\t亜\n", Ok((1, Some(0)))),
        ("あ\t10\t9\t0\t亜\n", Err(FaultKind::Range(1))),
        ("あ\t9\t10\t0\t亜\n", Err(FaultKind::Range(1))),
        ("あ\t-1\t9\t0\t亜\n", Err(FaultKind::Number(1))),
        ("あ\t1\t1\t0\n", Err(FaultKind::Fields(1))),
        ("\n\r\nあ\t1\t1\t0\n", Err(FaultKind::Fields(3))),
        ("\t1\t1\t0\t亜\n", Err(FaultKind::Empty(1))),
        ("あ\t1\t1\t0\t\n", Err(FaultKind::Empty(1))),
        ("あ\t1\t1\t0\t\tx\n", Err(FaultKind::Empty(1))),
        // The first fault of the order, and the first line that has one.
        ("\t1\t1\t0\n", Err(FaultKind::Fields(1))),
        ("\tx\t1\t0\t亜\n", Err(FaultKind::Empty(1))),
        ("あ\tx\t10\t0\t亜\n", Err(FaultKind::Number(1))),
        ("あ\t10\tx\t0\t亜\n", Err(FaultKind::Number(1))),
        ("あ\t10\t1\tx\t亜\n", Err(FaultKind::Number(1))),
        ("あ\t1\t1\t9999999999\t亜\n", Err(FaultKind::Range(1))),
        ("あ\t1\t1\t99999999999\t亜\n", Err(FaultKind::Number(1))),
        (
            "あ\t1\t1\t0\t亜\nあ\nあ\tx\t1\t0\t亜\n",
            Err(FaultKind::Fields(2)),
        ),
        ("あ\t1\t1\t+1\t亜\n", Err(FaultKind::Number(1))),
        ("# \t1\t1\t1\t亜\n", Ok((1, Some(1)))),
        // At the edge of each limit.
        ("あ\t1\t1\t-1000000\t亜\n", Ok((1, Some(-1_000_000)))),
        (
            "あ\t0000000009\t0000000000\t-0000000005\t亜\n",
            Ok((1, Some(-5))),
        ),
        ("あ\t00000000009\t0\t0\t亜\n", Err(FaultKind::Number(1))),
        ("あ\t0\t00000000009\t0\t亜\n", Err(FaultKind::Number(1))),
        ("あ\t0\t0\t-00000000005\t亜\n", Err(FaultKind::Number(1))),
        ("あ\t0\t0\t-9999999999\t亜\n", Err(FaultKind::Range(1))),
        ("あ\t9999999999\t0\t0\t亜\n", Err(FaultKind::Range(1))),
        ("あ\t99999999999\t0\t0\t亜\n", Err(FaultKind::Number(1))),
        ("あ\t\t0\t0\t亜\n", Err(FaultKind::Number(1))),
        ("あ\t0\t0\t-\t亜\n", Err(FaultKind::Number(1))),
        // Further orders of two faults on one line.
        ("あ\tx\t1\t0\n", Err(FaultKind::Fields(1))),
        ("あ\t10\t1\t0\n", Err(FaultKind::Fields(1))),
        ("あ\t1\t1\t1000001\n", Err(FaultKind::Fields(1))),
        ("あ\t1\t1\tx\t\n", Err(FaultKind::Empty(1))),
        ("\t10\t1\t0\t亜\n", Err(FaultKind::Empty(1))),
        ("あ\t1\t1\t1000001\t\n", Err(FaultKind::Empty(1))),
    ];
    for (index, (text, wanted)) in cases.into_iter().enumerate() {
        let alloc = rt.alloc();
        assert_eq!(rt;
            counts(alloc, text.as_bytes(), Vec::new(alloc)),
            Some(wanted),
            "case {index}"
        );
    }
}

#[test]
fn tells_what_is_no_text(rt: HostRuntime) {
    let cases: [(&[u8], u64); 8] = [
        (b"a\t1\t1\t0\tx\t\xFF\n", 1),
        // The end of a line is no part of a character.
        (b"\na\t1\t1\t0\tx\t\xE3\x81\n\x82\n", 2),
        (b"\xEF\xBB\n", 1),
        // Whatever else the line is.
        (b"\xFF\n", 1),
        (b"\t1\t1\t0\t\xFF\n", 1),
        (b"a\tx\t1\t0\t\xFF\n", 1),
        (b"a\t10\t1\t0\t\xFF\n", 1),
        (b"a\t1\t1\t0\tx\n\xFF\na\n", 2),
    ];
    for (bytes, line) in cases {
        let alloc = rt.alloc();
        assert_eq!(rt;
            counts(alloc, bytes, Vec::new(alloc)),
            Some(Err(FaultKind::NotUtf8(line))),
            "{bytes:?}"
        );
    }
}

/// The start of a file, so many of a part, and the rest.
fn many(
    alloc: Global,
    start: &str,
    part: &str,
    count: usize,
    rest: &str,
) -> Result<Vec<u8>, NoMemory> {
    let mut bytes = Vec::from_slice(alloc, start.as_bytes())?;
    for _ in 0..count {
        bytes.extend_from_slice(part.as_bytes())?;
    }
    bytes.extend_from_slice(rest.as_bytes())?;
    Ok(bytes)
}

#[test]
fn keeps_its_limits(rt: HostRuntime) -> Result<(), NoMemory> {
    let row = "あ\t1\t1\t0\t亜\n";
    let cases: [(
        &str,
        &str,
        usize,
        &str,
        Result<(usize, Option<i32>), FaultKind>,
    ); 18] = [
        ("", "あ", 100, "\t1\t1\t0\t亜\n", Ok((1, Some(0)))),
        ("", "あ", 101, "\t1\t1\t0\t亜\n", Err(FaultKind::Limit(1))),
        ("あ\t1\t1\t0\t", "a", 300, "\n", Ok((1, Some(0)))),
        ("あ\t1\t1\t0\t", "a", 301, "\n", Err(FaultKind::Limit(1))),
        ("あ\t1\t1\t0\t亜\t", "a", 9_000, "\n", Ok((1, Some(0)))),
        // Each fault of the order hides the limit.
        ("あ\t1\t1\t", "0", 301, "\n", Err(FaultKind::Fields(1))),
        ("", "a", 301, "\t1\t1\t0\n", Err(FaultKind::Fields(1))),
        ("\t1\t1\t0\t", "a", 301, "\n", Err(FaultKind::Empty(1))),
        ("", "a", 301, "\t1\t1\t0\t\n", Err(FaultKind::Empty(1))),
        ("あ\t1\tx\t0\t", "a", 301, "\n", Err(FaultKind::Number(1))),
        ("あ\t1\t10\t0\t", "a", 301, "\n", Err(FaultKind::Range(1))),
        ("", row, 2_000, "い\t1\t1\t3\t亜\n", Ok((2_001, Some(3)))),
        ("", row, 2_001, "", Err(FaultKind::Limit(2_001))),
        (
            "",
            row,
            2_000,
            "\nあ\t1\t1\t0\t愛\n",
            Err(FaultKind::Limit(2_002)),
        ),
        (
            "",
            row,
            2_000,
            "あ\t1\t1\t0\n",
            Err(FaultKind::Fields(2_001)),
        ),
        (
            "",
            row,
            2_000,
            "あ\t1\t1\t0\t\n",
            Err(FaultKind::Empty(2_001)),
        ),
        (
            "",
            row,
            2_000,
            "あ\tx\t1\t0\t亜\n",
            Err(FaultKind::Number(2_001)),
        ),
        (
            "",
            row,
            2_000,
            "あ\t10\t1\t0\t亜\n",
            Err(FaultKind::Range(2_001)),
        ),
    ];
    for (index, (start, part, count, rest, wanted)) in cases.into_iter().enumerate() {
        let alloc = rt.alloc();
        let bytes = many(alloc, start, part, count, rest)?;
        assert_eq!(rt;
            counts(alloc, bytes.as_slice(), Vec::new(alloc)),
            Some(wanted),
            "case {index}"
        );
    }
    Ok(())
}

#[test]
fn what_is_no_text_hides_a_limit(rt: HostRuntime) -> Result<(), NoMemory> {
    let alloc = rt.alloc();
    let mut bytes = many(alloc, "", "a", 301, "\t1\t1\t0\tx\t")?;
    bytes.extend_from_slice(b"\xFF\n")?;
    assert_eq!(rt;
        counts(alloc, bytes.as_slice(), Vec::new(alloc)),
        Some(Err(FaultKind::NotUtf8(1)))
    );
    Ok(())
}

#[test]
fn limits_count_over_all_files(rt: HostRuntime) -> Result<(), ReadError> {
    let alloc = rt.alloc();
    let row = "あ\t1\t1\t0\t亜\n";
    for (count, wanted) in [
        (1_999, Ok((2_000, Some(0)))),
        (2_000, Err(FaultKind::Limit(1))),
    ] {
        let bytes = many(alloc, "", row, count, "")?;
        let before = read(alloc, bytes.as_slice(), 10, Vec::new(alloc))?;
        assert_eq!(rt;
            counts(alloc, row.as_bytes(), before),
            Some(wanted),
            "after {count}"
        );
    }
    Ok(())
}

#[test]
fn tells_readings_of_one_bucket_apart(rt: HostRuntime) -> Result<(), NoMemory> {
    // The two readings fall into one bucket: dict_rows, specs/Bucket.antt.
    let row = "あ\t1\t1\t0\t亜\n";
    let other = "ごたぁ\t1\t1\t3\t誤\n";
    for (rest, wanted) in [
        ("", Ok((2_003, Some(3)))),
        (row, Err(FaultKind::Limit(2_004))),
    ] {
        let alloc = rt.alloc();
        let mut bytes = many(alloc, "", row, 2_000, "")?;
        bytes.extend_from_slice(many(alloc, "", other, 3, rest)?.as_slice())?;
        assert_eq!(rt;
            counts(alloc, bytes.as_slice(), Vec::new(alloc)),
            Some(wanted),
            "with {rest:?}"
        );
    }
    Ok(())
}
