use cert_check::check;
use example_set::{ExampleSet, kyouha_lattice};
use mz_base::{Certificate, NoMemory, Seq, Span};
use std::alloc::Global;
use std::test::Fail;

fn certificate(
    alloc: Global,
    path: &[u32],
    potentials: &[i64],
    total: i64,
) -> Result<Certificate, NoMemory> {
    Ok(Certificate {
        bounds: Seq::from_vec(Vec::new(alloc)),
        path: Seq::from_vec(Vec::from_slice(alloc, path)?),
        potentials: Seq::from_vec(Vec::from_slice(alloc, potentials)?),
        total,
    })
}

// The potentials of the key between the ids 0 and 0, and such that are one number away from them.
const RIGHT: [i64; 8] = [5100, 400, 450, 10500, 15900, 550, 1400, 5800];

const SEVEN: [i64; 7] = [5100, 400, 450, 10500, 15900, 550, 1400];

const NINE: [i64; 9] = [5100, 400, 450, 10500, 15900, 550, 1400, 5800, 0];

const HIGH_AT_0: [i64; 8] = [5101, 400, 450, 10500, 15900, 550, 1400, 5800];

const HIGH_AT_5: [i64; 8] = [5100, 400, 450, 10500, 15900, 600, 1400, 5800];

const LOW_AT_5: [i64; 8] = [5100, 400, 450, 10500, 15900, 549, 1400, 5800];

const HIGHEST_AT_2: [i64; 8] = [5100, 400, i64::MAX, 10500, 15900, 550, 1400, 5800];

const LOWEST_AT_1: [i64; 8] = [5100, i64::MIN, 450, 10500, 15900, 550, 1400, 5800];

const LOWEST_AT_7: [i64; 8] = [5100, 400, 450, 10500, 15900, 550, 1400, i64::MIN];

// Neither 2 from the start nor 7 from 1 is met: the lower target comes first, though its source is no lower.
const HIGH_AT_2_AND_7: [i64; 8] = [5100, 400, 451, 10500, 15900, 550, 1400, 30000];

const ZEROS: [i64; 8] = [0, 0, 0, 0, 0, 0, 0, 0];

const LOWEST: [i64; 8] = [
    i64::MIN,
    i64::MIN,
    i64::MIN,
    i64::MIN,
    i64::MIN,
    i64::MIN,
    i64::MIN,
    i64::MIN,
];

// The potentials between the id 1 and any other.
const AFTER_1: [i64; 8] = [5400, 700, 750, 10800, 16200, 850, 1700, 6100];

// The ids before and after the key, a path, potentials, a total, and the verdict.
const CASES: [(u16, u16, &[u32], &[i64], i64, &str); 32] = [
    (0, 0, &[1, 5], &RIGHT, 750, "ok"),
    (0, 0, &[1, 5], &RIGHT, 749, "Total 749 750"),
    (0, 0, &[1, 5], &RIGHT, 751, "Edge 5 end"),
    (0, 0, &[1, 5], &RIGHT, i64::MAX, "Edge 5 end"),
    (
        0,
        0,
        &[1, 5],
        &RIGHT,
        i64::MIN,
        "Total -9223372036854775808 750",
    ),
    (0, 0, &[1, 5], &SEVEN, 750, "Length 8 7"),
    (0, 0, &[1, 5], &NINE, 750, "Length 8 9"),
    (0, 0, &[], &[], 0, "Length 8 0"),
    (0, 0, &[1, 5], &HIGH_AT_0, 750, "Edge start 0"),
    (0, 0, &[1, 5], &HIGH_AT_5, 750, "Edge 1 5"),
    (0, 0, &[1, 5], &LOW_AT_5, 750, "Edge 5 end"),
    (0, 0, &[1, 5], &HIGHEST_AT_2, 750, "Edge start 2"),
    (0, 0, &[1, 5], &LOWEST_AT_1, 750, "Edge 1 5"),
    (0, 0, &[1, 5], &LOWEST_AT_7, 750, "Edge 7 end"),
    (0, 0, &[1, 5], &HIGH_AT_2_AND_7, 750, "Edge start 2"),
    (0, 0, &[1, 5], &ZEROS, 0, "Total 0 750"),
    (
        0,
        0,
        &[1, 5],
        &LOWEST,
        i64::MIN,
        "Total -9223372036854775808 750",
    ),
    (0, 0, &[1, 6], &RIGHT, 750, "Total 750 1500"),
    (0, 0, &[2, 5], &RIGHT, 750, "Total 750 800"),
    (0, 0, &[1], &RIGHT, 750, "Path 1"),
    (0, 0, &[], &RIGHT, 750, "Path 0"),
    (0, 0, &[5], &RIGHT, 750, "Path 0"),
    (0, 0, &[8], &RIGHT, 750, "Path 0"),
    (0, 0, &[1, 8], &RIGHT, 750, "Path 1"),
    (0, 0, &[1, 4294967295], &RIGHT, 750, "Path 1"),
    (0, 0, &[1, 5, 5], &RIGHT, 750, "Path 2"),
    (0, 0, &[1], &HIGH_AT_5, 749, "Path 1"),
    (1, 2, &[1, 5], &AFTER_1, 1650, "ok"),
    (1, 2, &[1, 5], &AFTER_1, 1649, "Total 1649 1650"),
    (1, 1, &[1, 5], &AFTER_1, 1650, "Edge 5 end"),
    (1, 2, &[1, 5], &RIGHT, 1650, "Edge 5 end"),
    (0, 2, &[1, 5], &AFTER_1, 1350, "Edge start 0"),
];

#[test]
fn a_certificate_has_its_first_fault(rt: HostRuntime) -> Result<(), Fail> {
    for (left, right, path, potentials, total, wanted) in CASES {
        let certificate = certificate(rt.alloc(), path, potentials, total)?;
        let said = verdict(rt.alloc(), left, right, &certificate)?;
        assert_eq!(rt; said.as_str(), wanted, "at {left} {right} {total}");
    }
    Ok(())
}

fn verdict(
    alloc: Global,
    left: u16,
    right: u16,
    certificate: &Certificate,
) -> Result<String, NoMemory> {
    if left >= 3 || right >= 3 {
        return Ok(String::new(alloc));
    }
    let lattice = kyouha_lattice(alloc)?;
    let span = Span {
        begin: 0,
        end: 4,
        left,
        right,
    };
    match check(&ExampleSet, &lattice, &span, certificate) {
        Ok(()) => Ok(format!(in alloc; "ok")?),
        Err(fault) => Ok(format!(in alloc; "{fault}")?),
    }
}
