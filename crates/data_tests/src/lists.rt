use mz_base::{LineReader, ReadError, Seq, Text, read_table};
use std::alloc::Global;
use std::test::Fail;

#[test]
fn a_list_grows_and_changes(rt: HostRuntime) -> Result<(), Fail> {
    let alloc = rt.alloc();
    let mut list = Seq::from_vec(Vec::new(alloc));
    for number in [7u32, 8, 9] {
        list.push(number)?;
    }
    if list.as_slice().len() > 1 {
        *list.at_mut(1) = 5;
    }
    assert_eq!(rt; list.as_slice(), [7, 5, 9].as_slice());
    assert_eq!(rt; list.pop(), Some(9));
    assert_eq!(rt; list.as_slice(), [7, 5].as_slice());
    Ok(())
}

#[test]
fn an_empty_list_has_no_last(rt: HostRuntime) -> Result<(), Fail> {
    let mut list: Seq<u32> = Seq::from_vec(Vec::new(rt.alloc()));
    assert_eq!(rt; list.pop(), None);
    Ok(())
}

#[test]
fn a_text_is_copied(rt: HostRuntime) -> Result<(), Fail> {
    let text = Text::from_str(rt.alloc(), "かな")?;
    let copy = text.copy(rt.alloc())?;
    assert_eq!(rt; copy.as_chars(), ['か', 'な'].as_slice());
    Ok(())
}

/// Each line's row is its number.
#[derive(Drop)]
struct Numbers;

impl LineReader for Numbers {
    type Row = u64;

    ghost use Rattle.std.specs.Prelude.{Ok};

    ghost row_in = { λ _ number _. Ok number };

    fn read_line(&self, _alloc: Global, number: u64, _line: &str) -> Result<u64, ReadError> {
        Ok(number)
    }
}

#[test]
fn a_table_has_no_row_of_an_empty_line(rt: HostRuntime) -> Result<(), Fail> {
    let rows = read_table(rt.alloc(), Numbers, b"a\n\nb\n")?;
    assert_eq!(rt; rows.as_slice(), [1, 3].as_slice());
    let refused = read_table(rt.alloc(), Numbers, b"a\n\xFF\n");
    assert!(rt; refused.is_err());
    Ok(())
}
