use example_set::ExampleSet;
use mz_base::{DataSet, MOST_LOOKED_UP, NoMemory, NoUserWords, UserWords};
use std::alloc::Global;
use std::test::Fail;

/// The words that begin a key, each by end, row, ids and cost.
fn found(alloc: Global, key: &str) -> Result<String, NoMemory> {
    let key: Vec<char> = key.chars().collect(alloc)?;
    let mut text = String::new(alloc);
    if key.is_empty() || key.len() > MOST_LOOKED_UP {
        return Ok(text);
    }
    for word in ExampleSet.found_words(alloc, key.as_slice(), 0)? {
        write!(
            text,
            "{}:{}:{}:{}:{} ",
            word.end, word.row, word.lid, word.rid, word.cost
        )?;
    }
    Ok(text)
}

/// The cheapest words with a prefix, each by row and cost.
fn cheapest(alloc: Global, prefix: &str, most: usize) -> Result<String, NoMemory> {
    let prefix: Vec<char> = prefix.chars().collect(alloc)?;
    let mut text = String::new(alloc);
    for word in ExampleSet.cheapest_with_prefix(alloc, prefix.as_slice(), most)? {
        write!(text, "{}:{} ", word.row, word.cost)?;
    }
    Ok(text)
}

#[test]
fn words_are_found_with_ids_and_costs(rt: HostRuntime) -> Result<(), Fail> {
    assert_eq!(rt;
        found(rt.alloc(), "きょうは")?.as_str(),
        "3:0:1:1:300 3:1:1:1:350 "
    );
    assert_eq!(rt;
        found(rt.alloc(), "は")?.as_str(),
        "1:2:2:2:100 1:3:1:1:600 "
    );
    assert_eq!(rt; found(rt.alloc(), "い")?.as_str(), "");
    Ok(())
}

#[test]
fn the_cheapest_words_come_by_cost_and_then_by_row(rt: HostRuntime) -> Result<(), Fail> {
    assert_eq!(rt;
        cheapest(rt.alloc(), "", 9)?.as_str(),
        "2:100 0:300 4:300 5:300 1:350 3:600 "
    );
    assert_eq!(rt; cheapest(rt.alloc(), "", 3)?.as_str(), "2:100 0:300 4:300 ");
    assert_eq!(rt; cheapest(rt.alloc(), "", 0)?.as_str(), "");
    assert_eq!(rt; cheapest(rt.alloc(), "き", 9)?.as_str(), "0:300 1:350 ");
    Ok(())
}

#[test]
fn no_user_words_have_no_reading(rt: HostRuntime) {
    let user = NoUserWords::new(rt.alloc());
    assert_eq!(rt; user.longest_reading(), 0);
}
