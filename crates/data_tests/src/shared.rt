use mz_base::*;
use std::alloc::Global;
use std::test::Fail;

/// The lines of a file, joined by bars.
fn joined(alloc: Global, bytes: &[u8]) -> Result<String, Fail> {
    let mut text = String::new(alloc);
    for line in cut_lines(alloc, bytes)? {
        text.push_str(text_of_line(line).unwrap_or("?"))?;
        text.push('|')?;
    }
    Ok(text)
}

#[test]
fn lines_are_cut(rt: HostRuntime) -> Result<(), Fail> {
    let cases: [(&[u8], &str); 8] = [
        (b"", ""),
        (b"\n", "|"),
        (b"a", "a|"),
        (b"a\n", "a|"),
        (b"a\r\nb\r", "a|b|"),
        (b"a\r\r\n", "a\r|"),
        (b"\xEF\xBB\xBFa\n\nb", "a||b|"),
        (b"a\n\xFF\n", "a|?|"),
    ];
    for (bytes, lines) in cases {
        let found = joined(rt.alloc(), bytes)?;
        assert_eq!(rt; found.as_str(), lines);
    }
    Ok(())
}

#[test]
fn fields_and_numbers_are_read(rt: HostRuntime) -> Result<(), Fail> {
    let fields = cut_fields(rt.alloc(), "ka\t\tか")?;
    assert_eq!(rt; fields.len(), 3);
    assert_eq!(rt; fields[2], "か");
    let cases = [
        ("", None),
        ("007", Some(7)),
        ("4294967296", Some(4_294_967_296)),
        ("00000000001", None),
        ("+1", None),
        ("-1", None),
        ("1x", None),
    ];
    for (text, wanted) in cases {
        assert_eq!(rt; number(text), wanted, "of {text}");
    }
    Ok(())
}

/// No line gives a row.
#[derive(Drop)]
struct Refuses;

impl RowReader for Refuses {
    type Row = u64;

    ghost use Rattle.std.specs.Prelude.{Err};
    ghost use Rattle.mz_base.specs.declared.fault.FaultKind.TheVariants.{Fields};

    ghost row_of = { λ _ _ number _. Err (Fields number) };

    fn read_row(
        &mut self,
        _alloc: Global,
        _rows: &[u64],
        number: u64,
        _line: &[u8],
    ) -> Result<Option<u64>, ReadError> {
        Err(FaultKind::Fields(number).into())
    }
}

#[test]
fn rows_are_read_to_the_first_fault(rt: HostRuntime) -> Result<(), Fail> {
    let alloc = rt.alloc();
    let before = vec![in alloc; 5u64]?;
    let rows = read_rows(alloc, &mut Refuses, before, b"")?;
    assert_eq!(rt; rows.as_slice(), [5].as_slice());
    let refused = read_rows(alloc, &mut Refuses, rows, b"x\ny\n");
    assert_eq!(rt; refused.err(), Some(ReadError::Fault(FaultKind::Fields(1))));
    Ok(())
}

#[test]
fn statuses_have_texts(rt: HostRuntime) -> Result<(), Fail> {
    let alloc = rt.alloc();
    let name = Text::from_str(alloc, "か.tsv")?;
    let copy = Text::from_chars(alloc, name.as_chars())?;
    let bad = BadSet {
        path: copy,
        fault: Fault {
            role: Role::Romaji,
            nth: 1,
            kind: FaultKind::LongPending(1),
        },
    };
    let edge = CertFault::Edge {
        from: Some(5),
        to: None,
    };
    let cases = [
        (Status::Ok, 0, "Ok"),
        (Status::Refused(Refusal::Absent(name)), 5, "Absent か.tsv"),
        (
            Status::Refused(Refusal::BadData(bad)),
            8,
            "BadData か.tsv long-pending 1",
        ),
        (
            Status::Refused(Refusal::TooLarge(Limit::Bytes)),
            9,
            "TooLarge Bytes",
        ),
        (
            Status::Refused(Refusal::BadCertificate(edge)),
            11,
            "BadCertificate Edge 5 end",
        ),
        (Status::Unmet, 12, "Unmet"),
    ];
    for (status, number, text) in cases {
        assert_eq!(rt; status.number(), number, "of {text}");
        assert_eq!(rt; status.to_string(alloc)?.as_str(), text);
    }
    Ok(())
}
