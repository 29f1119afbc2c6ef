use dict_index::{SortedIndex, WordIndex};
use mz_base::{MOST_LOOKED_UP, MOST_WORDS, NoMemory, Text, WordRow};
use std::alloc::Global;
use std::test::Fail;

// The readings of the rows, a key, where to look, and end:row of each hit.
const FOUND: [(&str, &str, usize, &str); 8] = [
    ("", "きょうは", 0, ""),
    ("きょう きょう は は", "きょうは", 0, "3:0 3:1 "),
    ("きょう きょう は は", "きょうは", 1, ""),
    ("きょう きょう は は", "きょうは", 3, "4:2 4:3 "),
    ("きょう きょう は は きょう", "きょうは", 0, "3:0 3:1 3:4 "),
    ("は きょうは きょ きょうと きょう きょうは", "きょうは", 0, "2:2 3:4 4:1 4:5 "),
    ("きょうは ょ", "きょう", 0, ""),
    // More letters than a head has, and readings that differ behind them.
    ("あいうえ あいうお あいう あいうえお あいえ", "あいうえお", 0, "3:2 4:0 5:3 "),
];

#[test]
fn finds_what_stands_in_a_key(rt: HostRuntime) -> Result<(), Fail> {
    for (readings, key, begin, hits) in FOUND {
        let index = index_of(rt.alloc(), readings)?;
        assert_eq!(rt;
            hits_of(rt.alloc(), &index, key, begin)?.as_str(),
            hits,
            "of {readings} in {key} from {begin}"
        );
    }
    Ok(())
}

// The readings of the rows, a prefix, and the rows.
const BEGUN: [(&str, &str, &str); 6] = [
    ("", "き", ""),
    ("きょう きょう は は", "き", "0 1 "),
    ("きょう きょう は は", "きょう", "0 1 "),
    ("きょう きょう は は", "きょうは", ""),
    ("は きょうは き きょう", "き", "1 2 3 "),
    ("は きょうは き きょう", "", "0 1 2 3 "),
];

#[test]
fn finds_what_begins_with_a_prefix(rt: HostRuntime) -> Result<(), Fail> {
    for (readings, prefix, rows) in BEGUN {
        let index = index_of(rt.alloc(), readings)?;
        assert_eq!(rt;
            rows_of(rt.alloc(), &index, prefix)?.as_str(),
            rows,
            "of {readings} with {prefix}"
        );
    }
    Ok(())
}

fn index_of(alloc: Global, readings: &str) -> Result<SortedIndex, NoMemory> {
    let mut rows = Vec::new(alloc);
    for reading in readings.split_whitespace() {
        rows.push(WordRow {
            reading: Text::from_str(alloc, reading)?,
            lid: 1,
            rid: 1,
            cost: 300,
            value: Text::from_str(alloc, reading)?,
        })?;
    }
    if MOST_WORDS < rows.len() {
        return Err(NoMemory);
    }
    SortedIndex::build(alloc, rows.as_slice())
}

fn hits_of<I: WordIndex>(
    alloc: Global,
    index: &I,
    key: &str,
    begin: usize,
) -> Result<String, NoMemory> {
    let mut shown = String::new(alloc);
    let key = Text::from_str(alloc, key)?;
    let letters = key.as_chars();
    if begin < letters.len() && letters.len() <= MOST_LOOKED_UP {
        for hit in &index.words_at(alloc, letters, begin)? {
            shown.push_str(format!(in alloc; "{}:{} ", hit.end, hit.row)?.as_str())?;
        }
    }
    Ok(shown)
}

fn rows_of<I: WordIndex>(alloc: Global, index: &I, prefix: &str) -> Result<String, NoMemory> {
    let mut shown = String::new(alloc);
    let prefix = Text::from_str(alloc, prefix)?;
    for row in &index.words_with_prefix(alloc, prefix.as_chars())? {
        shown.push_str(format!(in alloc; "{row} ")?.as_str())?;
    }
    Ok(shown)
}
