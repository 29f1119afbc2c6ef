ghost use Rattle.std.specs.Prelude.{◌≡◌, IfOk};

use mz_base::{FaultKind, NoMemory, ReadError, Romaji, Rule, Text};
use romaji_table::*;
use std::alloc::Global;

/// The rows of a file, or its fault.
fn count_rows(alloc: Global, bytes: &[u8]) -> Option<Result<usize, FaultKind>> {
    match read(alloc, bytes) {
        Ok(table) => Some(Ok(table.rows().len())),
        Err(ReadError::Fault(kind)) => Some(Err(kind)),
        Err(ReadError::NoMemory) => None,
    }
}

#[test]
fn reads_the_lines_of_a_file(rt: HostRuntime) {
    let cases: [(&[u8], Result<usize, FaultKind>); 29] = [
        (b"", Ok(0)),
        (b"\xEF\xBB\xBFka\tx\r\nki\ty", Ok(2)),
        (b"\n\r\na\tx\n\n", Ok(1)),
        // A comment has no tab.
        (b"# one\n#\n#\tx\n", Ok(1)),
        (b"kk\tx\tk\na\tx\t\n", Ok(2)),
        // Of repeated inputs the later row holds.
        (b"a\tx\nb\ty\na\tz\n", Ok(2)),
        (b"ka\tx\tka\n", Err(FaultKind::LongPending(1))),
        // Two characters are not fewer than two, whatever their bytes.
        ("ああ\tx\tkk\n".as_bytes(), Err(FaultKind::LongPending(1))),
        ("kk\tx\tあ\n".as_bytes(), Ok(1)),
        (b"a\tx\n\nb\n", Err(FaultKind::Fields(3))),
        (b"a\tx\ty\tz\n", Err(FaultKind::Fields(1))),
        (b"a\tx\ty\t\n", Err(FaultKind::Fields(1))),
        (b"\tx\n", Err(FaultKind::Empty(1))),
        (b"a\t\n", Ok(1)),
        (b"a\tx\n\xFF\n", Err(FaultKind::NotUtf8(2))),
        // A comment is tested first.
        (b"# \xFF\n", Err(FaultKind::NotUtf8(1))),
        // The first line with a fault counts, and on it the first fault of the order.
        (b"a\n\xFF\n", Err(FaultKind::Fields(1))),
        (b"\xFF\n", Err(FaultKind::NotUtf8(1))),
        (b"\xFF\tx\ty\tz\n", Err(FaultKind::NotUtf8(1))),
        (b"\t\t\tz\n", Err(FaultKind::Fields(1))),
        (b"\tx\ty\n", Err(FaultKind::Empty(1))),
        (b"a\tx\n\r\tx\n", Ok(2)),
        (b"a\r\n", Err(FaultKind::Fields(1))),
        (b"a b\tx\n", Ok(1)),
        // The end of a line is no part of a character.
        (b"a\tx\nb\t\xE3\x81\n\x82\n", Err(FaultKind::NotUtf8(2))),
        (b"#\xE3\x81\n\x82\n", Err(FaultKind::NotUtf8(1))),
        // Further orders of two faults on one line.
        (b"\t\xFF\n", Err(FaultKind::NotUtf8(1))),
        (b"a\t\xFF\ta\n", Err(FaultKind::NotUtf8(1))),
        (b"a\tx\tyy\tz\n", Err(FaultKind::Fields(1))),
    ];
    for (index, (bytes, wanted)) in cases.into_iter().enumerate() {
        assert_eq!(rt; count_rows(rt.alloc(), bytes), Some(wanted), "case {index}");
    }
}

/// The start of a file, so many of a part, and the rest.
fn many(
    alloc: Global,
    start: &[u8],
    part: &[u8],
    count: usize,
    rest: &[u8],
) -> Result<Vec<u8>, NoMemory> {
    let mut bytes = Vec::from_slice(alloc, start)?;
    for _ in 0..count {
        bytes.extend_from_slice(part)?;
    }
    bytes.extend_from_slice(rest)?;
    Ok(bytes)
}

#[test]
fn keeps_its_limits(rt: HostRuntime) -> Result<(), NoMemory> {
    let long = "あ".as_bytes();
    let cases: [(&[u8], &[u8], usize, &[u8], Result<usize, FaultKind>); 12] = [
        (b"", b"a", 300, b"\tx\n", Ok(1)),
        (b"", b"a", 301, b"\tx\n", Err(FaultKind::Limit(1))),
        (b"", long, 100, b"\tx\n", Ok(1)),
        (b"", long, 101, b"\tx\n", Err(FaultKind::Limit(1))),
        (b"a\t", b"x", 300, b"\n", Ok(1)),
        (b"a\t", b"x", 301, b"\n", Err(FaultKind::Limit(1))),
        (b"a\tx\n", b"a\tx\n", 99_999, b"\n#\n", Ok(1)),
        (
            b"",
            b"a\tx\n",
            100_000,
            b"b\tx\n",
            Err(FaultKind::Limit(100_001)),
        ),
        // Each fault of the order hides the limit.
        (b"\xFF", b"a", 301, b"\tx\n", Err(FaultKind::NotUtf8(1))),
        (b"", b"a", 301, b"\n", Err(FaultKind::Fields(1))),
        (b"\tx\t", b"a", 301, b"\n", Err(FaultKind::Empty(1))),
        (b"a\tx\t", b"a", 301, b"\n", Err(FaultKind::LongPending(1))),
    ];
    for (index, (start, part, count, rest, wanted)) in cases.into_iter().enumerate() {
        let bytes = many(rt.alloc(), start, part, count, rest)?;
        assert_eq!(rt;
            count_rows(rt.alloc(), bytes.as_slice()),
            Some(wanted),
            "case {index}"
        );
    }
    Ok(())
}

/// A pending text of 300 bytes and one of 301, after an input that has a character more.
#[test]
fn a_pending_text_keeps_its_limit(rt: HostRuntime) -> Result<(), NoMemory> {
    let cases: [(&[u8], Result<usize, FaultKind>); 3] = [
        (b"\n", Ok(1)),
        (b"x\n", Err(FaultKind::Limit(1))),
        (b"xx\n", Err(FaultKind::LongPending(1))),
    ];
    let start = many(rt.alloc(), b"", b"a", 102, b"\tx\t")?;
    for (rest, wanted) in cases {
        let bytes = many(rt.alloc(), start.as_slice(), "あ".as_bytes(), 100, rest)?;
        assert_eq!(rt;
            count_rows(rt.alloc(), bytes.as_slice()),
            Some(wanted),
            "at {rest:?}"
        );
    }
    Ok(())
}

#[test]
fn finds_the_longest_rule(rt: HostRuntime) -> Result<(), NoMemory> {
    let file = "a\tあ\nu\tう\nka\tか\nkyo\tきょ\nha\tは\nna\tな\nn\tん\nnn\tん\nkk\tっ\tk\n";
    let cases = [
        ("kyou", 3, "きょ", "", false),
        ("kka", 2, "っ", "k", false),
        ("nna", 2, "ん", "", false),
        ("na", 2, "な", "", false),
        ("n", 1, "ん", "", true),
        ("a", 1, "あ", "", false),
        ("x", 0, "", "", false),
        ("k", 0, "", "", true),
        ("ky", 0, "", "", true),
        ("", 0, "", "", true),
    ];
    let Ok(table) = read(rt.alloc(), file.as_bytes()) else {
        return Err(NoMemory);
    };
    for (typed, length, output, pending, is_open) in cases {
        let text = Text::from_str(rt.alloc(), typed)?;
        let output = Text::from_str(rt.alloc(), output)?;
        let pending = Text::from_str(rt.alloc(), pending)?;
        match table.longest(text.as_chars()) {
            Some(rule) => {
                assert_eq!(rt; rule.length, length, "at {typed}");
                assert!(rt; rule.output == output.as_chars(), "at {typed}");
                assert!(rt; rule.pending == pending.as_chars(), "at {typed}");
            }
            None => assert_eq!(rt; length, 0, "at {typed}"),
        }
        assert_eq!(rt; table.is_open(text.as_chars()), is_open, "at {typed}");
    }
    Ok(())
}

/// The rules as text: input, output and pending text, and a slash.
fn text_of(alloc: Global, rules: &[Rule]) -> Result<String, NoMemory> {
    let mut text = String::new(alloc);
    for rule in rules {
        let row = format!(in alloc; "{} {} {}/", rule.input, rule.output, rule.pending)?;
        text.push_str(row.as_str())?;
    }
    Ok(text)
}

fn copy_of(alloc: Global, rules: &[Rule]) -> Result<Vec<Rule>, NoMemory>
    ensures { IfOk result (λ copy. copy.items ≡ rules.now) }
{
    let mut copy = Vec::new(alloc);
    for rule in rules {
        copy.push(Rule {
            input: rule.input.copy(alloc)?,
            output: rule.output.copy(alloc)?,
            pending: rule.pending.copy(alloc)?,
        })?;
    }
    Ok(copy)
}

/// Of one input the last row holds, and the inputs rise by their bytes. A table of a copy has the same rules.
#[test]
fn gives_the_rules_in_order(rt: HostRuntime) -> Result<(), NoMemory> {
    let alloc = rt.alloc();
    let cases = [
        ("", ""),
        ("b\ty\na\tx\nc\t\na\tz\n", "a z /b y /c  /"),
        ("kka\tっか\nk\tx\nkk\tっ\tk\n", "k x /kk っ k/kka っか /"),
        // U+1B001 is F0 9B 80 81, and stands behind Ａ, EF BC A1.
        (
            "\u{1B001}\t1\nＡ\t2\nz\t3\nが\t4\nか\t5\n",
            "z 3 /か 5 /が 4 /Ａ 2 /\u{1B001} 1 /",
        ),
    ];
    for (file, wanted) in cases {
        let Ok(table) = read(alloc, file.as_bytes()) else {
            return Err(NoMemory);
        };
        assert_eq!(rt; text_of(alloc, table.rows())?.as_str(), wanted, "at {file}");
        let copied = Table::from_rows(alloc, copy_of(alloc, table.rows())?)?;
        assert_eq!(rt;
            text_of(alloc, copied.rows())?.as_str(),
            wanted,
            "at {file}"
        );
    }
    Ok(())
}
