use conn_matrix::*;
use mz_base::{FaultKind, MOST_IDS, NoMemory, ReadError};
use std::alloc::Global;

/// The size and the first cost of a file, or its fault.
fn sizes(alloc: Global, bytes: &[u8]) -> Option<Result<(u32, Option<i32>), FaultKind>> {
    match Matrix::read(alloc, bytes) {
        Ok(matrix) => {
            let rows = matrix.rows(alloc).ok()?;
            Some(Ok((matrix.size(), rows.first().copied())))
        }
        Err(ReadError::Fault(kind)) => Some(Err(kind)),
        Err(ReadError::NoMemory) => None,
    }
}

#[test]
fn reads_the_lines_of_a_file(rt: HostRuntime) {
    let count = |wanted, found| FaultKind::Count { wanted, found };
    let cases: [(&[u8], Result<(u32, Option<i32>), FaultKind>); 43] = [
        (b"1\n0\n", Ok((1, Some(0)))),
        (b"\xEF\xBB\xBF1\r\n-7\r\n", Ok((1, Some(-7)))),
        (b"1\n5\n\n\r\n\n", Ok((1, Some(5)))),
        (b"0001\n-0000000005", Ok((1, Some(-5)))),
        (b"", Err(FaultKind::Size)),
        (b"\n1\n0\n", Err(FaultKind::Size)),
        (b"0\n", Err(FaultKind::Size)),
        (b"4097\n", Err(FaultKind::Size)),
        (b"-1\n", Err(FaultKind::Size)),
        (b"1 \n0\n", Err(FaultKind::Size)),
        (b"00000000001\n0\n", Err(FaultKind::Size)),
        (b"\xFF\n0\n", Err(FaultKind::NotUtf8(1))),
        (b"4096\n", Err(count(16_777_216, 0))),
        (b"3\n1\n2\n3\n4\n5\n6\n7\n8\n", Err(count(9, 8))),
        (b"1\n0\n0\n", Err(count(1, 2))),
        (b"1\n1000000\n", Ok((1, Some(1_000_000)))),
        (b"1\n-1000000\n", Ok((1, Some(-1_000_000)))),
        (b"1\n1000001\n", Err(FaultKind::Range(2))),
        (b"1\n-1000001\n", Err(FaultKind::Range(2))),
        (b"2\n0\n\n0\n0\n", Err(FaultKind::Number(3))),
        (b"2\n0\n\n\n\xFF\n", Err(FaultKind::Number(3))),
        (b"2\n0\n\xFF\n\n", Err(FaultKind::NotUtf8(3))),
        (b"2\n0\n+1\n9999999\n", Err(FaultKind::Number(3))),
        (b"2\n0\n9999999\nx\n", Err(FaultKind::Range(3))),
        (b"2\n0\n12345678901\n", Err(FaultKind::Number(3))),
        // A fault counts before the number of lines.
        (b"1\n0\n0\n0\nx\n", Err(FaultKind::Number(5))),
        (b"1\n0\n1000001\n", Err(FaultKind::Range(3))),
        (b"1\n0\n\xFF\n", Err(FaultKind::NotUtf8(3))),
        (b"2\n0\n0\n0\n0\n\n", Ok((2, Some(0)))),
        // The size has at most ten digits, a cost too, beside its sign.
        (b"0000000001\n0\n", Ok((1, Some(0)))),
        (b"1\n0000000005\n", Ok((1, Some(5)))),
        (b"1\n00000000005\n", Err(FaultKind::Number(2))),
        (b"1\n-00000000005\n", Err(FaultKind::Number(2))),
        (b"1\n9999999999\n", Err(FaultKind::Range(2))),
        (b"1\n-9999999999\n", Err(FaultKind::Range(2))),
        (b"1\n99999999999\n", Err(FaultKind::Number(2))),
        (b"1\n-\n", Err(FaultKind::Number(2))),
        (b"1\n0\t0\n", Err(FaultKind::Number(2))),
        // A line that is no text, whatever else it is; its end is no part of a character.
        (b"9999999\xFF\n", Err(FaultKind::NotUtf8(1))),
        (b"\xE3\x81\n\x82\n", Err(FaultKind::NotUtf8(1))),
        (b"2\n0\nx\xFF\n", Err(FaultKind::NotUtf8(3))),
        (b"2\n0\n9999999\xFF\n", Err(FaultKind::NotUtf8(3))),
        (b"2\n0\n\xE3\x81\n\x82\n", Err(FaultKind::NotUtf8(3))),
    ];
    for (index, (bytes, wanted)) in cases.into_iter().enumerate() {
        assert_eq!(rt; sizes(rt.alloc(), bytes), Some(wanted), "case {index}");
    }
}

#[test]
fn costs_go_by_right_id_first(rt: HostRuntime) -> Result<(), ReadError> {
    // The last cost of the second and third file is the first that does not fit in 16 bits.
    let files: [(&[u8], i32); 4] = [
        (b"2\n10\n11\n12\n32767\n", 32_767),
        (b"2\n10\n11\n12\n32768\n", 32_768),
        (b"2\n10\n11\n12\n-32769\n", -32_769),
        (b"2\n10\n11\n12\n-32768\n", -32_768),
    ];
    for (bytes, last) in files {
        let matrix = Matrix::read(rt.alloc(), bytes)?;
        assert_eq!(rt; matrix.size(), 2);
        for (r, l, wanted) in [(0, 0, 10), (0, 1, 11), (1, 0, 12), (1, 1, last)] {
            if r < 2 && l < 2 {
                assert_eq!(rt; matrix.cost(r, l), wanted, "at {r} {l} of {last}");
            }
        }
    }
    Ok(())
}

#[test]
fn rows_give_the_matrix_again(rt: HostRuntime) -> Result<(), NoMemory> {
    for last in [6, 32_767, 32_768, -32_768, -32_769] {
        let costs = Vec::from_slice(rt.alloc(), &[3, -4, 5, last])?;
        assert_eq!(rt; costs.len(), 4);
        let matrix = Matrix::from_rows(rt.alloc(), 2, costs)?;
        let rows = matrix.rows(rt.alloc())?;
        assert_eq!(rt; rows.as_slice(), [3, -4, 5, last].as_slice());
    }
    Ok(())
}

#[test]
fn costs_of_16_bits_take_half_the_bytes(rt: HostRuntime) -> Result<(), ReadError> {
    let files: [(&[u8], bool, usize); 5] = [
        (b"1\n0\n", true, 2),
        (b"2\n32767\n-32768\n0\n0\n", true, 8),
        (b"2\n0\n32768\n0\n0\n", false, 16),
        (b"2\n0\n0\n-32769\n0\n", false, 16),
        (b"1\n1000000\n", false, 4),
    ];
    for (index, (bytes, small, taken)) in files.into_iter().enumerate() {
        let matrix = Matrix::read(rt.alloc(), bytes)?;
        assert_eq!(rt; matrix.is_small(), small, "case {index}");
        assert_eq!(rt; matrix.bytes(), taken, "case {index}");
    }
    Ok(())
}

/// The matrix of this size whose costs are all the same, if there is one.
fn even(alloc: Global, size: u32, cost: i32) -> Result<Option<Matrix>, NoMemory> {
    let count = size as usize * size as usize;
    let costs = vec![in alloc; cost; count]?;
    if size <= MOST_IDS && costs.len() == count {
        Ok(Some(Matrix::from_rows(alloc, size, costs)?))
    } else {
        Ok(None)
    }
}

#[test]
fn a_matrix_of_the_most_ids_takes_64_mib_at_most(rt: HostRuntime) -> Result<(), NoMemory> {
    for (size, cost, taken) in [
        (4096, 32_767, Some(33_554_432)),
        (4096, 32_768, Some(67_108_864)),
        (4097, 0, None),
    ] {
        let matrix = even(rt.alloc(), size, cost)?;
        let bytes = matrix.map(|matrix| matrix.bytes());
        assert_eq!(rt; bytes, taken, "of {size} and {cost}");
    }
    Ok(())
}
