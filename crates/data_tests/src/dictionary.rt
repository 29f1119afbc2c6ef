use mz_base::NoMemory;
use std::alloc::Global;
use std::test::Fail;

/// So many rows, each of a reading of its own.
fn rows(alloc: Global, count: u32) -> Result<String, NoMemory> {
    let mut text = String::new(alloc);
    for number in 0..count {
        writeln!(text, "か{number}\t1\t2\t-300\t可{number}")?;
    }
    Ok(text)
}

#[test]
fn a_dictionary_of_a_hundred_thousand_rows_is_read(rt: HostRuntime) -> Result<(), Fail> {
    let text = rows(rt.alloc(), 100_000)?;
    let words = dict_rows::read(rt.alloc(), text.as_bytes(), 3, Vec::new(rt.alloc()))?;
    assert_eq!(rt; words.len(), 100_000);
    assert_eq!(rt;
        words[99_999].reading.as_chars(),
        ['か', '9', '9', '9', '9', '9'].as_slice()
    );
    assert_eq!(rt; words[99_999].cost, -300);
    Ok(())
}
