ghost use Rattle.std.specs.Prelude.{◌≤◌};
ghost use Rattle.mz_base.specs.declared.lattice.TheConstants.{MOST_KEY};

use cert_text::*;
use mz_base::{Certificate, Seq};
use std::alloc::Global;
use std::test::Fail;

const SHORT: &[u8] =
    b"bounds\npath\t1\t5\npotentials\t5100\t400\t450\t10500\t15900\t550\t1400\t5800\ntotal\t750\n";

const CUT: &[u8] =
    b"bounds\t1\t2\npath\t0\t1\t2\t3\npotentials\t5100\t10500\t15900\t16050\t16900\t21300\ntotal\t16250\n";

/// What reading and writing again gives: the text, or the number of the line that is refused.
fn again(alloc: Global, key_length: usize, bytes: &[u8]) -> Result<String, Fail>
    requires { key_length ≤ MOST_KEY }
{
    match read(alloc, key_length, bytes) {
        Ok(certificate) => Ok(print(alloc, &certificate)?),
        Err(TextError::Line(line)) => Ok(format!(in alloc; "{line}")?),
        Err(TextError::NoMemory) => Ok(String::from_str(alloc, "memory")?),
    }
}

#[test]
fn a_certificate_is_read_as_it_is_written(rt: HostRuntime) -> Result<(), Fail> {
    let alloc = rt.alloc();
    let least: &[u8] = b"bounds\npath\npotentials\ntotal\t0\n";
    let negative: &[u8] =
        b"bounds\t256\npath\t4294967295\npotentials\t-1\t999999999999999999\ntotal\t-999999999999999999\n";
    for bytes in [SHORT, CUT, least, negative] {
        assert_eq!(rt; again(alloc, 256, bytes)?.as_bytes(), bytes);
    }
    Ok(())
}

#[test]
fn a_certificate_is_written(rt: HostRuntime) -> Result<(), Fail> {
    let alloc = rt.alloc();
    let potentials = vec![in alloc; 5100, 400, 450, 10500, 15900, 550, 1400, 5800]?;
    let certificate = Certificate {
        bounds: Seq::from_vec(Vec::new(alloc)),
        path: Seq::from_vec(vec![in alloc; 1, 5]?),
        potentials: Seq::from_vec(potentials),
        total: 750,
    };
    let text = print(alloc, &certificate)?;
    assert_eq!(rt; text.as_bytes(), SHORT);
    Ok(())
}

#[test]
fn the_first_line_that_does_not_read_is_named(rt: HostRuntime) -> Result<(), Fail> {
    let alloc = rt.alloc();
    let cases: [(&[u8], &str); 33] = [
        (b"", "1"),
        (b"bounds", "2"),
        (b"bounds\npath\n", "3"),
        (b"bounds\npath\npotentials", "4"),
        (b"path\nbounds\npotentials\ntotal\t0", "1"),
        (b"bounds\npotentials\npath\ntotal\t0", "2"),
        (b"bounds\npath\ntotal\t0\npotentials", "3"),
        (b"\nbounds\npath\npotentials\ntotal\t0", "1"),
        (b"bounds\t\npath\npotentials\ntotal\t0", "1"),
        (b"bounds\npath\t\npotentials\ntotal\t0", "2"),
        (b"bounds\npath\t1\t\t2\npotentials\ntotal\t0", "2"),
        (b"bounds\npath\npotentials\t\ntotal\t0", "3"),
        (b"bounds\npath\npotentials\ntotal\t", "4"),
        (b"bounds\npath\npotentials\ntotal", "4"),
        (b"bounds\npath\npotentials\ntotal\t1\t2", "4"),
        (b"bounds\npath\npotentials\ntotal\t-", "4"),
        (b"bounds\npath\npotentials\ntotal\t+1", "4"),
        (b"bounds\npath\npotentials\ntotal\t1234567890123456789", "4"),
        (
            b"bounds\npath\npotentials\t-1234567890123456789\ntotal\t0",
            "3",
        ),
        (b"bounds\npath\t00000000001\npotentials\ntotal\t0", "2"),
        (b"bounds\npath\t4294967296\npotentials\ntotal\t0", "2"),
        (b"bounds\npath\t-1\npotentials\ntotal\t0", "2"),
        (b"bounds\t-1\npath\npotentials\ntotal\t0", "1"),
        (b"bounds\t00000000001\npath\npotentials\ntotal\t0", "1"),
        (b"bounds\t0\npath\npotentials\ntotal\t0", "1"),
        (b"bounds\t2\t2\npath\npotentials\ntotal\t0", "1"),
        (b"bounds\t2\t1\npath\npotentials\ntotal\t0", "1"),
        (b"bounds\t5\npath\npotentials\ntotal\t0", "1"),
        (b"bounds\t1 2\npath\npotentials\ntotal\t0", "1"),
        (b"bounds\xFF\npath\npotentials\ntotal\t0", "1"),
        (b"bounds\npath\t\xFF\npotentials\ntotal\t0", "2"),
        (b"bounds\npath\npotentials\t\xFF\ntotal\t0", "3"),
        (b"bounds\npath\npotentials\ntotal\t\xFF", "4"),
    ];
    for (bytes, line) in cases {
        let found = again(alloc, 4, bytes)?;
        assert_eq!(rt; found.as_str(), line, "of {}", text_of(bytes));
    }
    Ok(())
}

fn text_of(bytes: &[u8]) -> &str {
    mz_base::text_of_line(bytes).unwrap_or("?")
}

#[test]
fn what_is_beside_the_numbers_is_dropped(rt: HostRuntime) -> Result<(), Fail> {
    let alloc = rt.alloc();
    let cases: [(&[u8], &[u8]); 4] = [
        (
            b"\xEF\xBB\xBFbounds\t1\r\npath\t2\r\npotentials\t3\r\ntotal\t4\r",
            b"bounds\t1\npath\t2\npotentials\t3\ntotal\t4\n",
        ),
        (
            b"bounds\npath\npotentials\ntotal\t0\n\xFF\n\xFF",
            b"bounds\npath\npotentials\ntotal\t0\n",
        ),
        (
            b"bounds\npath\npotentials\ntotal\t0\nsegment\t0\t4\tx\n",
            b"bounds\npath\npotentials\ntotal\t0\n",
        ),
        (
            b"bounds\t0000000001\t4\npath\t0000000002\npotentials\t-000000000000000003\ntotal\t-0",
            b"bounds\t1\t4\npath\t2\npotentials\t-3\ntotal\t0\n",
        ),
    ];
    for (bytes, text) in cases {
        assert_eq!(rt; again(alloc, 4, bytes)?.as_bytes(), text);
    }
    Ok(())
}

/// The bounds with commas before them, or a dash.
fn bounds_again(alloc: Global, key_length: usize, text: &str) -> Result<String, Fail> {
    let mut out = String::new(alloc);
    match read_bounds(alloc, key_length, text)? {
        Some(bounds) => {
            for bound in bounds {
                write!(out, ",{bound}")?;
            }
        }
        None => write!(out, "-")?,
    }
    Ok(out)
}

#[test]
fn bounds_of_a_command_line_are_read(rt: HostRuntime) -> Result<(), Fail> {
    let cases = [
        ("1", ",1"),
        ("1,2,1000", ",1,2,1000"),
        ("0000000001,1000", ",1,1000"),
        ("", "-"),
        (",", "-"),
        ("1,", "-"),
        (",1", "-"),
        ("1,,2", "-"),
        ("1, 2", "-"),
        ("2,1", "-"),
        ("2,2", "-"),
        ("0", "-"),
        ("0,1", "-"),
        ("1001", "-"),
        ("00000000001", "-"),
        ("-1", "-"),
        ("+1", "-"),
        ("1\t2", "-"),
        ("x", "-"),
        ("１", "-"),
    ];
    for (text, wanted) in cases {
        let found = bounds_again(rt.alloc(), 1000, text)?;
        assert_eq!(rt; found.as_str(), wanted, "of {text}");
    }
    let none = bounds_again(rt.alloc(), 0, "1")?;
    assert_eq!(rt; none.as_str(), "-");
    Ok(())
}
