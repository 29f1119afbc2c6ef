use example_set::ExampleSet;
use mz_base::{NoMemory, Pair, Text};
use predictor::suggest;
use std::alloc::Global;
use std::test::Fail;

// A history, the newest pair first, the base, and the suggestions, each by its reading and its value. Nothing for an empty
// base; nothing where no reading begins with it; words by cost, and of equal cost by row; a pair that is also a word; a
// pair whose key is another reading of a word's value; a key that is shorter than the base; a value that begins with it;
// a pair twice; ten pairs; eight pairs, and one word more.
const SUGGESTED: &str = "\
きょう 京||
|ん|
|きょ|きょう 今日,きょう 京,
|は|は は,は 葉,
|も|も 藻,も 喪,
きょう 京|き|きょう 京,きょう 今日,
きょうと 京|きょう|きょうと 京,きょう 今日,
き 木|きょ|きょう 今日,きょう 京,
は も|も|も 藻,も 喪,
もも 桃;もり 森;もも 桃|も|もも 桃,もり 森,も 藻,も 喪,
あ 一;あ 二;あ 三;あ 四;あ 五;あ 六;あ 七;あ 八;あ 九;あ 十|あ|あ 一,あ 二,あ 三,あ 四,あ 五,あ 六,あ 七,あ 八,あ 九,
き 一;き 二;き 三;き 四;き 五;き 六;き 七;き 八|き|き 一,き 二,き 三,き 四,き 五,き 六,き 七,き 八,きょう 今日,
";

#[test]
fn suggests_what_was_chosen_and_then_words(rt: HostRuntime) -> Result<(), Fail> {
    let alloc = rt.alloc();
    for line in SUGGESTED.lines() {
        assert_eq!(rt; suggested(alloc, line)?.as_str(), line);
    }
    Ok(())
}

// The line of the history and the base of this line, with what is suggested.
fn suggested(alloc: Global, line: &str) -> Result<String, NoMemory> {
    let front = line.split('|').next().unwrap_or("");
    let base = line.split('|').nth(1).unwrap_or("");
    let history = history_of(alloc, front)?;
    let letters: Vec<char> = base.chars().collect(alloc)?;
    let mut text = format!(in alloc; "{front}|{base}|")?;
    for pair in &suggest(alloc, &ExampleSet, history.as_slice(), letters.as_slice())? {
        write!(text, "{} {},", pair.key, pair.value)?;
    }
    Ok(text)
}

pub fn history_of(alloc: Global, text: &str) -> Result<Vec<Pair>, NoMemory> {
    let mut pairs = Vec::new(alloc);
    for part in text.split(';') {
        let key: Vec<char> = part.split(' ').next().unwrap_or("").chars().collect(alloc)?;
        let value: Vec<char> = part.split(' ').nth(1).unwrap_or("").chars().collect(alloc)?;
        if !key.is_empty() {
            pairs.push(Pair {
                key: Text::from_chars(alloc, key.as_slice())?,
                value: Text::from_chars(alloc, value.as_slice())?,
            })?;
        }
    }
    Ok(pairs)
}
