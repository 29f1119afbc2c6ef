use mz_base::{NoMemory, UserRow, UserWords, half_width};
use std::alloc::Global;
use std::test::Fail;
use unicode_normalization::slice::extend_nfkc;
use user_dict::{ImportError, UserDict, import};

// A file, with a comma for a tab and a bar for a line feed, and what it gives: the texts of each row with its line, and each line
// that is skipped.
const FILES: &str = "\
|| ->
# my words|ｷｮｳ,強,名詞,memo|,空,名詞|きょう,強,名詞|あさ,朝,ないもの -> きょう/強/名詞/2 あさ/朝/ないもの/5 3:Reading
ｷｮｳ,a,x|キョウ,b,x|きょう,c,x|ＫＹＯ,d,x|ヷヽヵ,e,x -> きょう/a/x/1 きょう/b/x/2 きょう/c/x/3 KYO/d/x/4 ヷヽゕ/e/x/5
||#,a,x|# あ,a,x|あ#,a,x -> あ#/a/x/5
あ,a,|あ,a,,x|あ,ア,|あ,a,x -> あ/a//1 あ/ア//3 あ/a/x/4
あ|あ,a|,|,a||あ, -> 1:Fields 2:Fields 3:Fields 4:Fields 6:Fields
,a,x|,,x|あ,,x|,, -> 1:Reading 2:Reading 3:Word 4:Reading
あ,a,x|ア,a,x,y|あ,b,x|あ,a,y|い,a,x|あ,a,x -> あ/a/x/1 あ/b/x/3 あ/a/y/4 い/a/x/5
";

// The same, where `@` is a hundred あ, `%` 25 times ㌀ and `&` a hundred half width が. Of each row the line alone is told.
const LONG: &str = "\
@,@,@@ -> 1
@a,a,x|a,@a,x|@,@,x -> 3 1:Limit 2:Limit
%,a,x|%a,a,x|&,a,x|&a,a,x -> 1 3 2:Limit 4:Limit
a,%@,x|a,&,x|a,@@,x -> 1:Limit 2:Limit 3:Limit
@a,a|,@a,x|@a,,x|,@a -> 1:Fields 2:Reading 3:Word 4:Fields
";

/// The file that a line stands for.
fn file_of(alloc: Global, line: &str) -> Result<String, NoMemory> {
    let mut text = String::new(alloc);
    for letter in line.chars() {
        match letter {
            ',' => text.push('\t')?,
            '|' => text.push('\n')?,
            '@' => add(&mut text, "あ", 100)?,
            '%' => add(&mut text, "㌀", 25)?,
            '&' => add(&mut text, "ｶﾞ", 100)?,
            _ => text.push(letter)?,
        }
    }
    Ok(text)
}

fn add(text: &mut String, part: &str, count: usize) -> Result<(), NoMemory> {
    for _ in 0..count {
        text.push_str(part)?;
    }
    Ok(())
}

/// A line, and what its file gives, each row by `row`.
fn told(alloc: Global, line: &str, whole: bool) -> Result<String, Fail> {
    let file = line.split(" ->").next().unwrap_or("");
    let mut text = format!(in alloc; "{file} ->")?;
    let dict = import(alloc, file_of(alloc, file)?.as_bytes())?;
    for row in dict.rows() {
        add_row(&mut text, row, whole)?;
    }
    for skipped in dict.skipped() {
        write!(text, " {}:{:?}", skipped.line, skipped.why)?;
    }
    Ok(text)
}

fn add_row(text: &mut String, row: &UserRow, whole: bool) -> Result<(), Fail> {
    if whole {
        write!(
            text,
            " {}/{}/{}/{}",
            row.reading, row.word, row.pos, row.line
        )?;
    } else {
        write!(text, " {}", row.line)?;
    }
    Ok(())
}

#[test]
fn rows_and_skips_are_told(rt: HostRuntime) -> Result<(), Fail> {
    for line in FILES.lines() {
        assert_eq!(rt; told(rt.alloc(), line, true)?.as_str(), line);
    }
    Ok(())
}

#[test]
fn long_texts_are_skipped(rt: HostRuntime) -> Result<(), Fail> {
    for line in LONG.lines() {
        assert_eq!(rt; told(rt.alloc(), line, false)?.as_str(), line);
    }
    Ok(())
}

#[test]
fn a_line_that_is_no_text_refuses_the_file(rt: HostRuntime) {
    let first = import(rt.alloc(), b"\xFF\n\xFF");
    assert_eq!(rt; first.err(), Some(ImportError::NotUtf8(1)));
    let comment = import(rt.alloc(), b"a\tb\tc\n\n#\xFF\n");
    assert_eq!(rt; comment.err(), Some(ImportError::NotUtf8(3)));
}

/// So many rows, each with a reading of its own, or all with か.
fn rows(alloc: Global, count: u32, apart: bool) -> Result<String, NoMemory> {
    let mut text = String::new(alloc);
    for number in 0..count {
        if apart {
            writeln!(text, "か{number}\t可{number}\t名詞")?;
        } else {
            writeln!(text, "か\t可{number}\t名詞")?;
        }
    }
    Ok(text)
}

/// The number of rows, and the lines that are skipped.
fn counted(alloc: Global, text: &str) -> Result<String, Fail> {
    let dict = import(alloc, text.as_bytes())?;
    let mut told = format!(in alloc; "{}", dict.rows().len())?;
    for skipped in dict.skipped() {
        write!(told, " {}:{:?}", skipped.line, skipped.why)?;
    }
    Ok(told)
}

// A reading has 500 rows: a further one is skipped, whatever its letters, one of them again gives nothing, and one of another
// reading is kept.
#[test]
fn a_reading_has_five_hundred_rows(rt: HostRuntime) -> Result<(), Fail> {
    let mut text = rows(rt.alloc(), 499, false)?;
    text.push_str("ｶ\tx\t名詞\nカ\ty\t名詞\nか\t可0\t名詞\nき\ty\t名詞\nか\t\t名詞\n")?;
    assert_eq!(rt;
        counted(rt.alloc(), text.as_str())?.as_str(),
        "501 501:Limit 504:Word"
    );
    Ok(())
}

// Lines that are skipped and rows that are there do not count.
#[test]
fn a_dictionary_has_a_hundred_thousand_rows(rt: HostRuntime) -> Result<(), Fail> {
    let mut text = rows(rt.alloc(), 100_000, true)?;
    text.push_str("か\n\tx\t名詞\nか0\t可0\t名詞\n")?;
    assert_eq!(rt;
        counted(rt.alloc(), text.as_str())?.as_str(),
        "100000 100001:Fields 100002:Reading"
    );
    text.push_str("き\tx\t名詞\n\n")?;
    let refused = import(rt.alloc(), text.as_bytes());
    assert_eq!(rt; refused.err(), Some(ImportError::Limit(100_004)));
    Ok(())
}

#[test]
fn rows_are_found_by_their_reading(rt: HostRuntime) -> Result<(), Fail> {
    let alloc = rt.alloc();
    let empty = UserDict::empty(alloc);
    assert_eq!(rt; empty.longest_reading(), 0);
    assert_eq!(rt; empty.rows_of(&['は']).len(), 0);
    let dict = import(alloc, "は\ta\tx\nハハ\tb\tx\nは\tc\tx\n".as_bytes())?;
    assert_eq!(rt; dict.longest_reading(), 2);
    assert_eq!(rt; dict.rows_of(&['は']), [0, 2].as_slice());
    assert_eq!(rt; dict.rows_of(&['は', 'は']), [1].as_slice());
    assert_eq!(rt; dict.rows_of(&['ハ']).len(), 0);
    Ok(())
}

// The characters that have a half width form.
const HALVED: &str = "\
ヲァィゥェォャュョッーアイウエオカキクケコサシスセソタチツテトナニヌネノハヒフヘホマミムメモヤユヨラリルレロワン\
ガギグゲゴザジズゼゾダヂヅデドバビブベボヴパピプペポ。「」、・";

#[test]
fn half_width_forms_are_composed(rt: HostRuntime) -> Result<(), Fail> {
    let alloc = rt.alloc();
    for letter in HALVED.chars() {
        let half = half_width(alloc, &[letter])?;
        let mut composed = Vec::new(alloc);
        extend_nfkc(&mut composed, half.as_slice())?;
        assert!(rt; half.as_slice() != [letter].as_slice(), "of {letter}");
        assert_eq!(rt; composed.as_slice(), [letter].as_slice());
    }
    assert_eq!(rt; HALVED.chars().count(), 87);
    Ok(())
}
