use history::History;
use mz_base::{NoMemory, Pair, Text};
use std::alloc::Global;
use std::test::Fail;

/// Learns the values of a text, each under its first letter.
fn learn(alloc: Global, history: &mut History, values: &str) -> Result<(), NoMemory> {
    for value in values.split(' ') {
        let value = Text::from_str(alloc, value)?;
        let (key, _) = value.as_chars().split_at(value.as_chars().len().min(1));
        history.learn(alloc, key, value.as_chars())?;
    }
    Ok(())
}

/// The values of the pairs, with a space between each two.
fn values_of(alloc: Global, history: &History) -> Result<String, NoMemory> {
    let mut text = String::new(alloc);
    for pair in &history.pairs(alloc)? {
        if !text.is_empty() {
            text.push(' ')?;
        }
        for letter in pair.value.as_chars() {
            text.push(*letter)?;
        }
    }
    Ok(text)
}

// What is learned, from left to right, and the history.
const LEARNED: &str = "\
a = a
ab ac b = b ac ab
ab ac ab = ab ac
ab ac ac = ac ab
a b c a d b = b d a c
";

#[test]
fn the_newest_pair_is_first(rt: HostRuntime) -> Result<(), Fail> {
    for line in LEARNED.lines() {
        let alloc = rt.alloc();
        let mut history = History::new(alloc)?;
        let learned = line.split(" = ").next().unwrap_or("");
        learn(alloc, &mut history, learned)?;
        let values = values_of(alloc, &history)?;
        assert_eq!(rt; format!(in alloc; "{learned} = {values}")?.as_str(), line);
    }
    Ok(())
}

// The same key and another value, and the same value under another key, are other pairs.
#[test]
fn pairs_differ_in_key_or_value(rt: HostRuntime) -> Result<(), Fail> {
    let alloc = rt.alloc();
    let mut history = History::new(alloc)?;
    history.learn(alloc, &['k'], &['v'])?;
    history.learn(alloc, &['k'], &['w'])?;
    history.learn(alloc, &['l'], &['v'])?;
    assert_eq!(rt; values_of(alloc, &history)?.as_str(), "v w v");
    Ok(())
}

/// The history of so many pairs, each of one number, the last the newest.
fn numbers(alloc: Global, count: u32) -> Result<History, NoMemory> {
    let mut history = History::new(alloc)?;
    for number in 0..count {
        learn_number(alloc, &mut history, number)?;
    }
    Ok(history)
}

fn learn_number(alloc: Global, history: &mut History, number: u32) -> Result<(), NoMemory> {
    let text = Text::from_str(alloc, format!(in alloc; "{number}")?.as_str())?;
    history.learn(alloc, text.as_chars(), text.as_chars())
}

/// How many pairs there are, and the values of the first, the second and the last.
fn ends_of(alloc: Global, history: &History) -> Result<String, NoMemory> {
    let pairs = history.pairs(alloc)?;
    let mut text = format!(in alloc; "{}:", pairs.len())?;
    for (place, pair) in pairs.iter().enumerate() {
        if place < 2 || place + 1 == pairs.len() {
            write!(text, " {}", pair.value)?;
        }
    }
    Ok(text)
}

#[test]
fn a_thousand_pairs_are_kept(rt: HostRuntime) -> Result<(), Fail> {
    let alloc = rt.alloc();
    let mut history = numbers(alloc, 1_000)?;
    assert_eq!(rt; ends_of(alloc, &history)?.as_str(), "1000: 999 998 0");
    // The oldest is learned again, and none is dropped.
    learn_number(alloc, &mut history, 0)?;
    assert_eq!(rt; ends_of(alloc, &history)?.as_str(), "1000: 0 999 1");
    // One more than a thousand: the oldest goes.
    learn_number(alloc, &mut history, 1_000)?;
    assert_eq!(rt; ends_of(alloc, &history)?.as_str(), "1000: 1000 0 2");
    learn_number(alloc, &mut history, 500)?;
    assert_eq!(rt; ends_of(alloc, &history)?.as_str(), "1000: 500 1000 2");
    Ok(())
}

#[test]
fn a_copy_learns_by_itself(rt: HostRuntime) -> Result<(), Fail> {
    let alloc = rt.alloc();
    let mut history = numbers(alloc, 1_001)?;
    let mut copy = history.copy(alloc)?;
    assert_eq!(rt; ends_of(alloc, &copy)?.as_str(), "1000: 1000 999 1");
    learn_number(alloc, &mut copy, 7)?;
    assert_eq!(rt; ends_of(alloc, &history)?.as_str(), "1000: 1000 999 1");
    assert_eq!(rt; ends_of(alloc, &copy)?.as_str(), "1000: 7 1000 1");
    learn_number(alloc, &mut history, 8)?;
    assert_eq!(rt; ends_of(alloc, &copy)?.as_str(), "1000: 7 1000 1");
    Ok(())
}

#[test]
fn several_pairs_are_learned_from_left_to_right(rt: HostRuntime) -> Result<(), Fail> {
    let alloc = rt.alloc();
    let mut pairs = Vec::new(alloc);
    for value in ["a", "b", "a", "c"] {
        pairs.push(Pair {
            key: Text::from_str(alloc, "k")?,
            value: Text::from_str(alloc, value)?,
        })?;
    }
    let mut history = History::new(alloc)?;
    history.learn_all(alloc, pairs.as_slice())?;
    assert_eq!(rt; values_of(alloc, &history)?.as_str(), "c a b");
    Ok(())
}
