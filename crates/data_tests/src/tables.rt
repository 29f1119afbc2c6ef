ghost use Rattle.std.specs.Prelude.{◌≡◌, IfOk};

use mz_base::FaultKind::{Empty, Fields, Limit, NoFeature, NotUtf8, Number, Range};
use mz_base::{
    Class, FaultKind, IdRow, JoinRow, NoMemory, PosRow, ReadError, Text, UnknownRow, ValueRow,
};
use pos_table::*;
use std::alloc::Global;

fn outcome(answer: Result<usize, ReadError>) -> Option<Result<usize, FaultKind>> {
    match answer {
        Ok(count) => Some(Ok(count)),
        Err(ReadError::Fault(kind)) => Some(Err(kind)),
        Err(ReadError::NoMemory) => None,
    }
}

#[test]
fn reads_ids(rt: HostRuntime) -> Result<(), ReadError> {
    let alloc = rt.alloc();
    let cases: [(&str, Result<usize, FaultKind>); 10] = [
        ("0 BOS/EOS,*\r\n\n9 名詞,一般\n", Ok(2)),
        ("1 a\n2 b\n1 c\n", Ok(2)),
        ("1 \n", Ok(1)),
        ("1\n", Err(FaultKind::Fields(1))),
        ("1\ta\n", Err(FaultKind::Fields(1))),
        (" a\n", Err(FaultKind::Number(1))),
        ("x a\n", Err(FaultKind::Number(1))),
        ("10 a\n", Err(FaultKind::Range(1))),
        ("\n9 a\n10 a\nx\n", Err(FaultKind::Range(3))),
        ("1 a b\n", Ok(1)),
    ];
    for (index, (text, wanted)) in cases.into_iter().enumerate() {
        let ids = read_ids(alloc, text.as_bytes(), 10).map(|ids| ids.rows().len());
        assert_eq!(rt; outcome(ids), Some(wanted), "case {index}");
    }
    // Of repeated ids the later holds, and the rows rise.
    let ids = read_ids(alloc, b"7 x\n1 a\n2 b\n1 c d\n", 10)?;
    let mut numbers = Vec::new(alloc);
    for row in ids.rows() {
        numbers.push(row.id)?;
    }
    assert_eq!(rt; numbers.as_slice(), [1, 2, 7].as_slice());
    assert_eq!(rt;
        ids.rows().first().map(|row| row.feature.as_chars().len()),
        Some(3)
    );
    Ok(())
}

#[test]
fn reads_unknown_words(rt: HostRuntime) -> Result<(), ReadError> {
    let alloc = rt.alloc();
    let cases: [(&str, Result<usize, FaultKind>); 10] = [
        ("", Ok(5)),
        ("OTHER\t9\t-5\tmore\n", Ok(5)),
        ("OTHER\t9\n", Err(FaultKind::Fields(1))),
        ("Other\t9\t0\n", Err(FaultKind::Class(1))),
        ("\tx\t0\n", Err(FaultKind::Class(1))),
        ("DIGIT\tx\t9999999\n", Err(FaultKind::Number(1))),
        ("DIGIT\t9\tx\n", Err(FaultKind::Number(1))),
        ("DIGIT\t10\t0\n", Err(FaultKind::Range(1))),
        ("DIGIT\t9\t1000001\n", Err(FaultKind::Range(1))),
        ("LETTER\t1\t1\nOTHER\n", Err(FaultKind::Fields(2))),
    ];
    for (index, (text, wanted)) in cases.into_iter().enumerate() {
        let unknown = read_unknown(alloc, text.as_bytes(), 10).map(|unknown| unknown.rows().len());
        assert_eq!(rt; outcome(unknown), Some(wanted), "case {index}");
    }
    let unknown = read_unknown(alloc, b"DIGIT\t1\t10\nOTHER\t2\t20\nDIGIT\t3\t30\n", 10)?;
    assert_eq!(rt; unknown.unknown(Class::Digit), (3, 30));
    assert_eq!(rt; unknown.unknown(Class::Letter), (2, 20));
    assert_eq!(rt;
        read_unknown(alloc, b"KATAKANA\t1\t10\n", 10)?.unknown(Class::Other),
        (0, 10_000)
    );
    Ok(())
}

#[test]
fn reads_segments(rt: HostRuntime) -> Result<(), ReadError> {
    let alloc = rt.alloc();
    let cases: [(&str, Result<usize, FaultKind>); 7] = [
        ("1\t2\t3\t4\n\n1\t2\t3\t4\tmore\n", Ok(2)),
        ("1\t2\t3\n", Err(FaultKind::Fields(1))),
        ("1\t2\t3\tx\n", Err(FaultKind::Number(1))),
        ("2\t1\t3\tx\n", Err(FaultKind::Number(1))),
        ("2\t1\t3\t4\n", Err(FaultKind::Range(1))),
        ("1\t2\t4\t3\n", Err(FaultKind::Range(1))),
        ("1\t2\t3\t10\n", Err(FaultKind::Range(1))),
    ];
    for (index, (text, wanted)) in cases.into_iter().enumerate() {
        let joins = read_joins(alloc, text.as_bytes(), 10).map(|joins| joins.rows().len());
        assert_eq!(rt; outcome(joins), Some(wanted), "case {index}");
    }
    let joins = read_joins(alloc, b"1\t2\t3\t4\n5\t5\t0\t9\n", 10)?;
    let pairs = [
        (1, 3, true),
        (2, 4, true),
        (3, 3, false),
        (1, 5, false),
        (5, 0, true),
        (4, 9, false),
    ];
    for (r, l, wanted) in pairs {
        assert_eq!(rt; joins.joins(r, l), wanted, "at {r} {l}");
    }
    Ok(())
}

#[test]
fn reads_parts_of_speech(rt: HostRuntime) -> Result<(), ReadError> {
    let alloc = rt.alloc();
    let ids = read_ids(alloc, b"4 noun\n3 noun\n5 verb\n", 10)?;
    let cases: [(&str, Result<usize, FaultKind>); 8] = [
        ("n\tnoun\t5\nv\tverb\t-5\tmore\nn\tverb\t6\n", Ok(2)),
        ("n\tnoun\n", Err(FaultKind::Fields(1))),
        ("\tnoun\tx\n", Err(FaultKind::Empty(1))),
        ("n\tnone\tx\n", Err(FaultKind::Number(1))),
        ("n\tnone\t1000001\n", Err(FaultKind::Range(1))),
        ("n\tnone\t0\n", Err(FaultKind::NoFeature(1))),
        ("n\tnou\t0\n", Err(FaultKind::NoFeature(1))),
        ("n\t\t0\n", Err(FaultKind::NoFeature(1))),
    ];
    for (index, (text, wanted)) in cases.into_iter().enumerate() {
        let pos = read_user_pos(alloc, text.as_bytes(), &ids).map(|pos| pos.rows().len());
        assert_eq!(rt; outcome(pos), Some(wanted), "case {index}");
    }
    let pos = read_user_pos(alloc, b"n\tverb\t1\nn\tnoun\t2\n", &ids)?;
    // The least id with the feature.
    assert_eq!(rt; pos.pos(&['n']), Some((3, 2)));
    assert_eq!(rt; pos.pos(&['v']), None);
    Ok(())
}

#[test]
fn reads_symbols_and_kanji(rt: HostRuntime) -> Result<(), ReadError> {
    let alloc = rt.alloc();
    let cases: [(&str, Result<usize, FaultKind>); 5] = [
        ("ほし\t☆\r\n\nほし\t★\tmore\n", Ok(2)),
        ("ほし\n", Err(FaultKind::Fields(1))),
        ("\t☆\n", Err(FaultKind::Empty(1))),
        ("ほし\t\n", Err(FaultKind::Empty(1))),
        ("ほし\t☆\nほ\n", Err(FaultKind::Fields(2))),
    ];
    for (index, (text, wanted)) in cases.into_iter().enumerate() {
        let symbols = read_symbols(alloc, text.as_bytes()).map(|symbols| symbols.rows().len());
        assert_eq!(rt; outcome(symbols), Some(wanted), "case {index}");
    }
    let symbols = read_symbols(alloc, "ほし\t☆\nい\t＝\nほし\t★\n".as_bytes())?;
    assert_eq!(rt;
        joined(alloc, symbols.symbols(&['ほ', 'し']))?.as_slice(),
        ['☆', '★'].as_slice()
    );
    assert_eq!(rt; symbols.symbols(&['ほ']).len(), 0);
    let kanji = read_kanji(alloc, "か\t火花\n".as_bytes())?;
    assert_eq!(rt; kanji.rows().len(), 1);
    assert_eq!(rt;
        joined(alloc, kanji.kanji(&['か']))?.as_slice(),
        ['火', '花'].as_slice()
    );
    Ok(())
}

fn joined(alloc: Global, texts: &[Text]) -> Result<Vec<char>, NoMemory> {
    let mut letters = Vec::new(alloc);
    for text in texts {
        letters.extend_from_slice(text.as_chars())?;
    }
    Ok(letters)
}

/// The files that are read here.
#[derive(Clone, Copy, Debug)]
enum File {
    Ids,
    Unknown,
    Segments,
    Parts,
    Symbols,
    Kanji,
}

/// The number of rows that a file gives where there are 10 ids, or its fault.
fn count_rows(alloc: Global, file: File, bytes: &[u8]) -> Option<Result<usize, FaultKind>> {
    outcome(match file {
        File::Ids => read_ids(alloc, bytes, 10).map(|ids| ids.rows().len()),
        File::Unknown => read_unknown(alloc, bytes, 10).map(|unknown| unknown.rows().len()),
        File::Segments => read_joins(alloc, bytes, 10).map(|joins| joins.rows().len()),
        File::Parts => count_parts(alloc, bytes),
        File::Symbols => read_symbols(alloc, bytes).map(|symbols| symbols.rows().len()),
        File::Kanji => read_kanji(alloc, bytes).map(|kanji| kanji.rows().len()),
    })
}

fn count_parts(alloc: Global, bytes: &[u8]) -> Result<usize, ReadError> {
    let ids = read_ids(alloc, b"4 noun\n3 noun\n5 verb\n", 10)?;
    Ok(read_user_pos(alloc, bytes, &ids)?.rows().len())
}

#[test]
fn takes_what_is_within_its_limits(rt: HostRuntime) {
    let cases: [(File, &[u8], usize); 22] = [
        // A byte order mark, CRLF, an empty line, and no line feed at the end.
        (File::Ids, b"\xEF\xBB\xBF1 a\r\n\r\n2 b", 2),
        (
            File::Unknown,
            b"\xEF\xBB\xBFDIGIT\t1\t0\r\n\r\nOTHER\t1\t0",
            5,
        ),
        (
            File::Segments,
            b"\xEF\xBB\xBF1\t2\t3\t4\r\n\r\n1\t2\t3\t4",
            2,
        ),
        (File::Parts, b"\xEF\xBB\xBFn\tnoun\t5\r\n\r\nv\tverb\t5", 2),
        (File::Symbols, b"\xEF\xBB\xBFa\tx\r\n\r\nb\ty", 2),
        (File::Kanji, b"\xEF\xBB\xBFa\tx\r\n\r\nb\ty", 2),
        (File::Ids, b"", 0),
        (File::Segments, b"", 0),
        (File::Parts, b"\n", 0),
        (File::Symbols, b"\r\n\n", 0),
        (File::Kanji, b"", 0),
        // Numbers at their edge.
        (File::Ids, b"0000000009 a\n", 1),
        (File::Unknown, b"DIGIT\t0\t1000000\n", 5),
        (File::Unknown, b"HIRAGANA\t9\t-1000000\n", 5),
        (File::Unknown, b"LETTER\t0000000009\t-0000000001\n", 5),
        (File::Segments, b"9\t9\t9\t9\n0\t0\t0\t0\n", 2),
        (File::Segments, b"0000000001\t2\t3\t0000000009\n", 1),
        (File::Parts, b"n\tnoun\t1000000\nv\tverb\t-1000000\n", 2),
        (File::Parts, b"n\tnoun\t-0000000005\n", 1),
        // No line is a comment, and in a feature a tab may stand.
        (File::Symbols, b"#\tx\n", 1),
        (File::Parts, b"#\tnoun\t5\n", 1),
        (File::Ids, b"1 a\tb\n", 1),
    ];
    for (file, bytes, count) in cases {
        assert_eq!(rt;
            count_rows(rt.alloc(), file, bytes),
            Some(Ok(count)),
            "{file:?} {bytes:?}"
        );
    }
}

#[test]
fn tells_the_first_fault_of_a_line(rt: HostRuntime) {
    let cases: [(File, &[u8], FaultKind); 75] = [
        // The end of a line is no part of a character.
        (File::Ids, b"1 a\n2 \xE3\x81\n\x82\n", NotUtf8(2)),
        (File::Ids, b"1\xFF\n", NotUtf8(1)),
        (File::Ids, b"x \xFF\n", NotUtf8(1)),
        (File::Ids, b"10 \xFF\n", NotUtf8(1)),
        (File::Ids, b"x\n", Fields(1)),
        (File::Ids, b"10\n", Fields(1)),
        (File::Ids, b"-1 a\n", Number(1)),
        (File::Ids, b"00000000001 a\n", Number(1)),
        (File::Ids, b"99999999999 a\n", Number(1)),
        (File::Ids, b"9999999999 a\n", Range(1)),
        (File::Unknown, b"OTHER\t1\t0\t\xE3\x81\n\x82\n", NotUtf8(1)),
        (File::Unknown, b"OTHER\xFF\n", NotUtf8(1)),
        (File::Unknown, b"Other\t1\t0\t\xFF\n", NotUtf8(1)),
        (File::Unknown, b"OTHER\tx\t0\t\xFF\n", NotUtf8(1)),
        (File::Unknown, b"OTHER\t10\t0\t\xFF\n", NotUtf8(1)),
        (File::Unknown, b"Other\t9\n", Fields(1)),
        (File::Unknown, b"OTHER\tx\n", Fields(1)),
        (File::Unknown, b"OTHER\t10\n", Fields(1)),
        (File::Unknown, b"Other\t9\tx\n", FaultKind::Class(1)),
        (File::Unknown, b"Other\t10\t0\n", FaultKind::Class(1)),
        (File::Unknown, b"DIGIT \t9\t0\n", FaultKind::Class(1)),
        (File::Unknown, b"DIGIT\t10\tx\n", Number(1)),
        (File::Unknown, b"DIGIT\t-1\t0\n", Number(1)),
        (File::Unknown, b"DIGIT\t00000000001\t0\n", Number(1)),
        (File::Unknown, b"DIGIT\t9\t-00000000001\n", Number(1)),
        (File::Unknown, b"DIGIT\t9\t99999999999\n", Number(1)),
        (File::Unknown, b"DIGIT\t9\t9999999999\n", Range(1)),
        (File::Unknown, b"DIGIT\t9\t-9999999999\n", Range(1)),
        (File::Unknown, b"DIGIT\t9\t-1000001\n", Range(1)),
        (File::Segments, b"1\t2\t3\t4\t\xE3\x81\n\x82\n", NotUtf8(1)),
        (File::Segments, b"1\t2\t3\xFF\n", NotUtf8(1)),
        (File::Segments, b"x\t2\t3\t4\t\xFF\n", NotUtf8(1)),
        (File::Segments, b"2\t1\t3\t4\t\xFF\n", NotUtf8(1)),
        (File::Segments, b"x\t2\t3\n", Fields(1)),
        (File::Segments, b"2\t1\t3\n", Fields(1)),
        (File::Segments, b"x\t2\t4\t3\n", Number(1)),
        (File::Segments, b"1\t-2\t3\t4\n", Number(1)),
        (File::Segments, b"1\t2\t\t4\n", Number(1)),
        (File::Segments, b"1\t2\t3\t00000000004\n", Number(1)),
        (File::Segments, b"1\t2\t3\t9999999999\n", Range(1)),
        (File::Segments, b"10\t10\t3\t4\n", Range(1)),
        (File::Segments, b"9\t10\t3\t4\n", Range(1)),
        (File::Segments, b"1\t2\t10\t10\n", Range(1)),
        (File::Parts, b"\nn\tnoun\t5\t\xE3\x81\n\x82\n", NotUtf8(2)),
        (File::Parts, b"n\xFF\tnoun\n", NotUtf8(1)),
        (File::Parts, b"\tnoun\t5\t\xFF\n", NotUtf8(1)),
        (File::Parts, b"n\tnoun\tx\t\xFF\n", NotUtf8(1)),
        (File::Parts, b"n\tnoun\t1000001\t\xFF\n", NotUtf8(1)),
        (File::Parts, b"n\tnone\t5\t\xFF\n", NotUtf8(1)),
        (File::Parts, b"\tnoun\n", Fields(1)),
        (File::Parts, b"n\tnone\n", Fields(1)),
        (File::Parts, b"\tnoun\t1000001\n", Empty(1)),
        (File::Parts, b"\tnone\t5\n", Empty(1)),
        (File::Parts, b"n\tnoun\t\n", Number(1)),
        (File::Parts, b"n\tnoun\t+5\n", Number(1)),
        (File::Parts, b"n\tnoun\t99999999999\n", Number(1)),
        (File::Parts, b"n\tnoun\t-00000000005\n", Number(1)),
        (File::Parts, b"n\tnoun\t9999999999\n", Range(1)),
        (File::Parts, b"n\tnoun\t1000001\n", Range(1)),
        (File::Parts, b"n\tnoun\t-1000001\n", Range(1)),
        (File::Parts, b"n\tnone\t-9999999999\n", Range(1)),
        (File::Symbols, b"\na\tx\xE3\x81\n\x82\n", NotUtf8(2)),
        (File::Symbols, b"a\tx\t\xFF\n", NotUtf8(1)),
        (File::Symbols, b"\xFF\n", NotUtf8(1)),
        (File::Symbols, b"\t\xFF\n", NotUtf8(1)),
        (File::Symbols, b"\t\n", Empty(1)),
        (File::Symbols, b"a\t\tx\n", Empty(1)),
        (File::Kanji, b"\na\tx\xE3\x81\n\x82\n", NotUtf8(2)),
        (File::Kanji, b"a\tx\t\xFF\n", NotUtf8(1)),
        (File::Kanji, b"\xFF\n", NotUtf8(1)),
        (File::Kanji, b"\t\xFF\n", NotUtf8(1)),
        (File::Kanji, b"a\n", Fields(1)),
        (File::Kanji, b"\tx\n", Empty(1)),
        (File::Kanji, b"a\t\n", Empty(1)),
        (File::Kanji, b"a\tx\nb\n", Fields(2)),
    ];
    for (file, bytes, fault) in cases {
        assert_eq!(rt;
            count_rows(rt.alloc(), file, bytes),
            Some(Err(fault)),
            "{file:?} {bytes:?}"
        );
    }
}

/// The start of a file, so many of a part, and the rest.
fn many(
    alloc: Global,
    start: &[u8],
    part: &[u8],
    count: usize,
    rest: &[u8],
) -> Result<Vec<u8>, NoMemory> {
    let mut bytes = Vec::from_slice(alloc, start)?;
    for _ in 0..count {
        bytes.extend_from_slice(part)?;
    }
    bytes.extend_from_slice(rest)?;
    Ok(bytes)
}

#[test]
fn keeps_its_limits_of_fields(rt: HostRuntime) -> Result<(), NoMemory> {
    let cases: [(File, &[u8], usize, &[u8], Result<usize, FaultKind>); 35] = [
        (File::Ids, b"1 ", 300, b"\n", Ok(1)),
        (File::Ids, b"1 ", 301, b"\n", Err(Limit(1))),
        // Each fault of the order hides the limit.
        (File::Ids, b"1 \xFF", 301, b"\n", Err(NotUtf8(1))),
        (File::Ids, b"", 301, b"\n", Err(Fields(1))),
        (File::Ids, b"x ", 301, b"\n", Err(Number(1))),
        (File::Ids, b"10 ", 301, b"\n", Err(Range(1))),
        (
            File::Unknown,
            b"",
            301,
            b"\t1\t0\n",
            Err(FaultKind::Class(1)),
        ),
        (File::Parts, b"", 300, b"\tnoun\t5\n", Ok(1)),
        (File::Parts, b"", 301, b"\tnoun\t5\n", Err(Limit(1))),
        (File::Parts, b"n\tnoun\t5\t", 301, b"\n", Ok(1)),
        (File::Parts, b"n\t", 301, b"\t5\n", Err(NoFeature(1))),
        (File::Parts, b"\xFF", 301, b"\tnoun\t5\n", Err(NotUtf8(1))),
        (File::Parts, b"", 301, b"\tnoun\n", Err(Fields(1))),
        (File::Parts, b"\t", 301, b"\t5\n", Err(Empty(1))),
        (File::Parts, b"", 301, b"\tnoun\tx\n", Err(Number(1))),
        (File::Parts, b"", 301, b"\tnoun\t9999999\n", Err(Range(1))),
        (File::Parts, b"", 301, b"\tnone\t5\n", Err(NoFeature(1))),
        (File::Symbols, b"", 300, b"\tx\n", Ok(1)),
        (File::Symbols, b"", 301, b"\tx\n", Err(Limit(1))),
        (File::Symbols, b"a\t", 300, b"\n", Ok(1)),
        (File::Symbols, b"a\t", 301, b"\n", Err(Limit(1))),
        (File::Symbols, b"a\tx\t", 301, b"\n", Ok(1)),
        (File::Symbols, b"\xFF", 301, b"\tx\n", Err(NotUtf8(1))),
        (File::Symbols, b"", 301, b"\n", Err(Fields(1))),
        (File::Symbols, b"\t", 301, b"\n", Err(Empty(1))),
        (File::Symbols, b"", 301, b"\t\n", Err(Empty(1))),
        (File::Kanji, b"", 300, b"\tx\n", Ok(1)),
        (File::Kanji, b"", 301, b"\tx\n", Err(Limit(1))),
        (File::Kanji, b"a\t", 300, b"\n", Ok(1)),
        (File::Kanji, b"a\t", 301, b"\n", Err(Limit(1))),
        (File::Kanji, b"a\tx\t", 301, b"\n", Ok(1)),
        (File::Kanji, b"\xFF", 301, b"\tx\n", Err(NotUtf8(1))),
        (File::Kanji, b"", 301, b"\n", Err(Fields(1))),
        (File::Kanji, b"\t", 301, b"\n", Err(Empty(1))),
        (File::Kanji, b"", 301, b"\t\n", Err(Empty(1))),
    ];
    for (index, (file, start, count, rest, wanted)) in cases.into_iter().enumerate() {
        let bytes = many(rt.alloc(), start, b"a", count, rest)?;
        assert_eq!(rt;
            count_rows(rt.alloc(), file, bytes.as_slice()),
            Some(wanted),
            "case {index}"
        );
    }
    Ok(())
}

/// A row of each file.
fn row_of(file: File) -> &'static [u8] {
    match file {
        File::Ids => b"1 a\n",
        File::Unknown => b"OTHER\t1\t0\n",
        File::Segments => b"1\t2\t3\t4\n",
        File::Parts => b"n\tnoun\t5\n",
        File::Symbols | File::Kanji => b"a\tx\n",
    }
}

/// What comes after 100,000 rows: nothing, a row more, or a fault that hides the limit.
#[test]
fn keeps_its_limits_of_rows(rt: HostRuntime) -> Result<(), NoMemory> {
    let cases: [(File, &[u8], Result<usize, FaultKind>); 30] = [
        // Ids have no limit of rows.
        (File::Ids, b"1 a\n", Ok(1)),
        (File::Unknown, b"\n", Ok(5)),
        (File::Unknown, b"\nOTHER\t1\t0\n", Err(Limit(100_002))),
        (File::Unknown, b"\xFF\t1\t0\n", Err(NotUtf8(100_001))),
        (File::Unknown, b"OTHER\t1\n", Err(Fields(100_001))),
        (
            File::Unknown,
            b"Other\t1\t0\n",
            Err(FaultKind::Class(100_001)),
        ),
        (File::Unknown, b"OTHER\tx\t0\n", Err(Number(100_001))),
        (File::Unknown, b"OTHER\t10\t0\n", Err(Range(100_001))),
        (File::Segments, b"\n", Ok(100_000)),
        (File::Segments, b"1\t2\t3\t4\n", Err(Limit(100_001))),
        (File::Segments, b"\xFF\t2\t3\t4\n", Err(NotUtf8(100_001))),
        (File::Segments, b"1\t2\t3\n", Err(Fields(100_001))),
        (File::Segments, b"x\t2\t3\t4\n", Err(Number(100_001))),
        (File::Segments, b"2\t1\t3\t4\n", Err(Range(100_001))),
        (File::Parts, b"\n", Ok(1)),
        (File::Parts, b"n\tnoun\t5\n", Err(Limit(100_001))),
        (File::Parts, b"n\xFF\tnoun\t5\n", Err(NotUtf8(100_001))),
        (File::Parts, b"n\tnoun\n", Err(Fields(100_001))),
        (File::Parts, b"\tnoun\t5\n", Err(Empty(100_001))),
        (File::Parts, b"n\tnoun\tx\n", Err(Number(100_001))),
        (File::Parts, b"n\tnoun\t9999999\n", Err(Range(100_001))),
        (File::Parts, b"n\tnone\t5\n", Err(NoFeature(100_001))),
        (File::Symbols, b"\n", Ok(100_000)),
        (File::Symbols, b"a\tx\n", Err(Limit(100_001))),
        (File::Symbols, b"a\xFF\n", Err(NotUtf8(100_001))),
        (File::Symbols, b"a\n", Err(Fields(100_001))),
        (File::Symbols, b"a\t\n", Err(Empty(100_001))),
        (File::Kanji, b"\n", Ok(100_000)),
        (File::Kanji, b"a\tx\n", Err(Limit(100_001))),
        (File::Kanji, b"a\t\n", Err(Empty(100_001))),
    ];
    for (index, (file, rest, wanted)) in cases.into_iter().enumerate() {
        let bytes = many(rt.alloc(), b"", row_of(file), 100_000, rest)?;
        assert_eq!(rt;
            count_rows(rt.alloc(), file, bytes.as_slice()),
            Some(wanted),
            "case {index}"
        );
    }
    Ok(())
}

/// A row that is shown, and copied.
trait Row {
    fn shown(&self, alloc: Global) -> Result<String, NoMemory>;

    fn copied(&self, alloc: Global) -> Result<Self, NoMemory>
        ensures { IfOk result (λ row. row ≡ self.now) };
}

impl Row for IdRow {
    fn shown(&self, alloc: Global) -> Result<String, NoMemory> {
        Ok(format!(in alloc; "{} {}/", self.id, self.feature)?)
    }

    fn copied(&self, alloc: Global) -> Result<IdRow, NoMemory> {
        Ok(IdRow {
            id: self.id,
            feature: self.feature.copy(alloc)?,
        })
    }
}

impl Row for UnknownRow {
    fn shown(&self, alloc: Global) -> Result<String, NoMemory> {
        Ok(format!(in alloc; "{} {}/", self.id, self.cost)?)
    }

    fn copied(&self, _alloc: Global) -> Result<UnknownRow, NoMemory> {
        Ok(*self)
    }
}

impl Row for JoinRow {
    fn shown(&self, alloc: Global) -> Result<String, NoMemory> {
        Ok(format!(in alloc;
            "{} {} {} {}/",
            self.first_right, self.last_right, self.first_left, self.last_left
        )?)
    }

    fn copied(&self, _alloc: Global) -> Result<JoinRow, NoMemory> {
        Ok(*self)
    }
}

impl Row for PosRow {
    fn shown(&self, alloc: Global) -> Result<String, NoMemory> {
        Ok(format!(in alloc; "{} {} {}/", self.name, self.id, self.cost)?)
    }

    fn copied(&self, alloc: Global) -> Result<PosRow, NoMemory> {
        Ok(PosRow {
            name: self.name.copy(alloc)?,
            id: self.id,
            cost: self.cost,
        })
    }
}

impl Row for ValueRow {
    fn shown(&self, alloc: Global) -> Result<String, NoMemory> {
        Ok(format!(in alloc; "{} {}/", self.reading, self.value)?)
    }

    fn copied(&self, alloc: Global) -> Result<ValueRow, NoMemory> {
        Ok(ValueRow {
            reading: self.reading.copy(alloc)?,
            value: self.value.copy(alloc)?,
        })
    }
}

fn all_copied<T: Row + Drop>(alloc: Global, rows: &[T]) -> Result<Vec<T>, NoMemory>
    ensures { IfOk result (λ copy. copy.items ≡ rows.now) }
{
    let mut copy = Vec::new(alloc);
    for row in rows {
        copy.push(row.copied(alloc)?)?;
    }
    Ok(copy)
}

fn show<T: Row>(alloc: Global, text: &mut String, rows: &[T]) -> Result<(), NoMemory> {
    for row in rows {
        text.push_str(row.shown(alloc)?.as_str())?;
    }
    Ok(())
}

/// The rows of a value as text, and those of one that is made of a copy of them.
fn twice<T: Row>(alloc: Global, rows: &[T], copy: &[T]) -> Result<String, NoMemory> {
    let mut text = String::new(alloc);
    show(alloc, &mut text, rows)?;
    text.push_str("= ")?;
    show(alloc, &mut text, copy)?;
    Ok(text)
}

fn ids_twice(alloc: Global, bytes: &[u8]) -> Result<String, ReadError> {
    let ids = read_ids(alloc, bytes, 10)?;
    let copy = Ids::from_rows(all_copied(alloc, ids.rows())?);
    Ok(twice(alloc, ids.rows(), copy.rows())?)
}

fn unknown_twice(alloc: Global, bytes: &[u8]) -> Result<String, ReadError> {
    let unknown = read_unknown(alloc, bytes, 10)?;
    let [hiragana, katakana, digit, letter, other] = unknown.rows() else {
        return Err(ReadError::NoMemory);
    };
    let copy = Unknown::from_rows([*hiragana, *katakana, *digit, *letter, *other]);
    Ok(twice(alloc, unknown.rows(), copy.rows())?)
}

fn joins_twice(alloc: Global, bytes: &[u8]) -> Result<String, ReadError> {
    let joins = read_joins(alloc, bytes, 10)?;
    let copy = Joins::from_rows(all_copied(alloc, joins.rows())?);
    Ok(twice(alloc, joins.rows(), copy.rows())?)
}

fn parts_twice(alloc: Global, bytes: &[u8]) -> Result<String, ReadError> {
    let ids = read_ids(alloc, b"4 noun\n3 noun\n5 verb\n", 10)?;
    let pos = read_user_pos(alloc, bytes, &ids)?;
    let copy = UserPos::from_rows(all_copied(alloc, pos.rows())?);
    Ok(twice(alloc, pos.rows(), copy.rows())?)
}

fn symbols_twice(alloc: Global, bytes: &[u8]) -> Result<String, ReadError> {
    let symbols = read_symbols(alloc, bytes)?;
    let copy = Symbols::from_rows(alloc, all_copied(alloc, symbols.rows())?)?;
    Ok(twice(alloc, symbols.rows(), copy.rows())?)
}

fn kanji_twice(alloc: Global, bytes: &[u8]) -> Result<String, ReadError> {
    let kanji = read_kanji(alloc, bytes)?;
    let copy = Kanji::from_rows(alloc, all_copied(alloc, kanji.rows())?)?;
    Ok(twice(alloc, kanji.rows(), copy.rows())?)
}

fn rows_twice(alloc: Global, file: File, bytes: &[u8]) -> Result<String, ReadError> {
    match file {
        File::Ids => ids_twice(alloc, bytes),
        File::Unknown => unknown_twice(alloc, bytes),
        File::Segments => joins_twice(alloc, bytes),
        File::Parts => parts_twice(alloc, bytes),
        File::Symbols => symbols_twice(alloc, bytes),
        File::Kanji => kanji_twice(alloc, bytes),
    }
}

/// The rows of each file in their order. A value of a copy of them has the same.
#[test]
fn a_copy_of_rows_gives_the_same(rt: HostRuntime) -> Result<(), ReadError> {
    let alloc = rt.alloc();
    let cases = [
        (
            File::Ids,
            "7 x\n1 a\n2 b\n1 c d\n",
            "1 c d/2 b/7 x/= 1 c d/2 b/7 x/",
        ),
        (
            File::Unknown,
            "DIGIT\t1\t1\nOTHER\t2\t2\nDIGIT\t3\t3\n",
            "2 2/2 2/3 3/2 2/2 2/= 2 2/2 2/3 3/2 2/2 2/",
        ),
        (
            File::Segments,
            "5\t5\t0\t9\n1\t2\t3\t4\n",
            "5 5 0 9/1 2 3 4/= 5 5 0 9/1 2 3 4/",
        ),
        // Of one name the last row, and the names by their bytes: か is E3 81 8B, が E3 81 8C, 名 E5 90 8D.
        (
            File::Parts,
            "名\tnoun\t1\nが\tverb\t2\nv\tverb\t3\nか\tnoun\t4\nv\tnoun\t5\n",
            "v 3 5/か 3 4/が 5 2/名 3 1/= v 3 5/か 3 4/が 5 2/名 3 1/",
        ),
        (
            File::Symbols,
            "ほし\t☆\nい\t＝\nほし\t★\n",
            "ほし ☆/い ＝/ほし ★/= ほし ☆/い ＝/ほし ★/",
        ),
        (File::Kanji, "か\t火花\nあ\t亜\n", "か 火花/あ 亜/= か 火花/あ 亜/"),
    ];
    for (file, text, wanted) in cases {
        let rows = rows_twice(alloc, file, text.as_bytes())?;
        assert_eq!(rt; rows.as_str(), wanted, "{file:?}");
    }
    Ok(())
}
