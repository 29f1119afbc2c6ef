use mz_base::{NoMemory, full_width, half_width, hiragana, katakana};
use std::alloc::Global;
use std::test::Fail;

// A text, and its four folds: katakana, hiragana, full width, half width.
const FOLDS: &str = "\
がっこう ガッコウ がっこう がっこう がっこう
ガッコー ガッコー がっこー ガッコー ｶﾞｯｺｰ
ヴァパン ヴァパン ゔぁぱん ヴァパン ｳﾞｧﾊﾟﾝ
ヮヰヵヷヽ ヮヰヵヷヽ ゎゐゕヷヽ ヮヰヵヷヽ ヮヰヵヷヽ
ゖゝ ヶゝ ゖゝ ゖゝ ゖゝ
「ア・ン」、。 「ア・ン」、。 「あ・ん」、。 「ア・ン」、。 ｢ｱ･ﾝ｣､｡
Az!~7 Az!~7 Az!~7 Ａｚ！～７ Az!~7
ｶﾞ京é ｶﾞ京é ｶﾞ京é ｶﾞ京é ｶﾞ京é
";

/// A text and its folds, with a space between each two.
fn folded(alloc: Global, text: &str) -> Result<String, NoMemory> {
    let letters: Vec<char> = text.chars().collect(alloc)?;
    let mut line = String::from_str(alloc, text)?;
    add(&mut line, katakana(alloc, letters.as_slice())?.as_slice())?;
    add(&mut line, hiragana(alloc, letters.as_slice())?.as_slice())?;
    add(&mut line, full_width(alloc, letters.as_slice())?.as_slice())?;
    add(&mut line, half_width(alloc, letters.as_slice())?.as_slice())?;
    Ok(line)
}

fn add(line: &mut String, letters: &[char]) -> Result<(), NoMemory> {
    line.push(' ')?;
    for letter in letters {
        line.push(*letter)?;
    }
    Ok(())
}

#[test]
fn texts_are_folded(rt: HostRuntime) -> Result<(), Fail> {
    for line in FOLDS.lines() {
        let text = line.split(' ').next().unwrap_or("");
        assert_eq!(rt; folded(rt.alloc(), text)?.as_str(), line);
    }
    Ok(())
}

#[test]
fn a_space_is_full_width_too(rt: HostRuntime) -> Result<(), Fail> {
    let full = full_width(rt.alloc(), &[' '])?;
    assert_eq!(rt; full.as_slice(), ['\u{3000}'].as_slice());
    Ok(())
}
