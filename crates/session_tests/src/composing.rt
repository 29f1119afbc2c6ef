use composer::{Composer, InsertError, MOST_SHOWN};
use mz_base::{NoMemory, Romaji, Text};
use std::alloc::Global;
use std::test::Fail;

// A row of this table is an input, an output and a pending text.
const ROMAJI: &str = "\
a\tあ
u\tう
ka\tか
kyo\tきょ
ha\tは
na\tな
n\tん
nn\tん
kk\tっ\tk
";

// What is pressed, and what is seen then: what is shown, the cursor, the base, the reading. B is Backspace, D Delete,
// L Left, R Right, H Home, E End; all else is typed.
const PRESSED: &str = "\
||0||
k|k|1||k
kk|っk|2|っ|っk
kka|っか|2|っか|っか
n|n|1||ん
na|な|1|な|な
nk|んk|2|ん|んk
ky|ky|2||ky
kyo|きょ|2|きょ|きょ
kyou|きょう|3|きょう|きょう
Ba|あ|1|あ|あ
kyBa|か|1|か|か
kkB|っ|1|っ|っ
kkBa|っあ|2|っあ|っあ
kyoBa|きあ|2|きあ|きあ
kyouBa|きょあ|3|きょあ|きょあ
kan|かn|2|か|かん
kanL|かん|1|かん|かん
kanLu|かうん|2|かうん|かうん
kanLuD|かう|2|かう|かう
kanLuDH|かう|0|かう|かう
kanLuDHD|う|0|う|う
kanLuDHDB|う|0|う|う
LRHED||0||
kanLL|かん|0|かん|かん
kanLLL|かん|0|かん|かん
kanLR|かん|2|かん|かん
kanLRR|かん|2|かん|かん
kanHE|かん|2|かん|かん
kanHR|かん|1|かん|かん
kanD|かん|2|かん|かん
nLa|あん|1|あん|あん
nRa|んあ|2|んあ|んあ
nDa|んあ|2|んあ|んあ
nEa|んあ|2|んあ|んあ
kHa|あk|1|あk|あk
kkL|っk|1|っk|っk
kkLB|k|0|k|k
kkLRa|っkあ|3|っkあ|っkあ
aLn|nあ|1|あ|んあ
aLna|なあ|1|なあ|なあ
aLnB|あ|0|あ|あ
aLnL|んあ|0|んあ|んあ
aLnR|んあ|2|んあ|んあ
aLnH|んあ|0|んあ|んあ
aLnE|んあ|2|んあ|んあ
aLnD|ん|1|ん|ん
kyouLLBa|あょう|1|あょう|あょう
";

#[test]
fn each_key_changes_what_is_seen(rt: HostRuntime) -> Result<(), Fail> {
    let alloc = rt.alloc();
    let table = romaji_table::read(alloc, ROMAJI.as_bytes())?;
    for line in PRESSED.lines() {
        let keys = line.split('|').next().unwrap_or("");
        let composer = pressed(alloc, &table, keys)?;
        assert_eq!(rt;
            seen_at_once(alloc, &composer, &table, keys)?.as_str(),
            line
        );
        assert_eq!(rt;
            seen_one_by_one(alloc, &composer, &table, keys)?.as_str(),
            line
        );
        let copy = composer.copy()?;
        assert_eq!(rt; seen_at_once(alloc, &copy, &table, keys)?.as_str(), line);
    }
    Ok(())
}

fn pressed<R: Romaji>(alloc: Global, table: &R, keys: &str) -> Result<Composer, InsertError> {
    let mut composer = Composer::new(alloc);
    for key in keys.chars() {
        press(&mut composer, table, key)?;
    }
    Ok(composer)
}

fn press<R: Romaji>(composer: &mut Composer, table: &R, key: char) -> Result<(), InsertError> {
    match key {
        'B' => composer.backspace(table)?,
        'D' => composer.delete(table)?,
        'L' => composer.left(table)?,
        'R' => composer.right(table)?,
        'H' => composer.home(table)?,
        'E' => composer.end(table)?,
        typed => composer.insert(table, typed)?,
    }
    Ok(())
}

fn seen_at_once<R: Romaji>(
    alloc: Global,
    composer: &Composer,
    table: &R,
    keys: &str,
) -> Result<String, NoMemory> {
    let seen = composer.seen(table)?;
    let reading = Text::from_vec(composer.reading(table)?);
    let (preedit, cursor, base) = (&seen.preedit, seen.cursor, &seen.base);
    Ok(format!(in alloc; "{keys}|{preedit}|{cursor}|{base}|{reading}")?)
}

fn seen_one_by_one<R: Romaji>(
    alloc: Global,
    composer: &Composer,
    table: &R,
    keys: &str,
) -> Result<String, NoMemory> {
    let preedit = Text::from_vec(composer.preedit(table)?);
    let cursor = composer.cursor(table)?;
    let base = Text::from_vec(composer.base(table)?);
    let reading = Text::from_vec(composer.reading(table)?);
    Ok(format!(in alloc; "{keys}|{preedit}|{cursor}|{base}|{reading}")?)
}

#[test]
fn is_full_at_256_characters(rt: HostRuntime) -> Result<(), Fail> {
    let table = romaji_table::read(rt.alloc(), ROMAJI.as_bytes())?;
    let mut composer = Composer::new(rt.alloc());
    for _ in 0..MOST_SHOWN {
        composer.insert(&table, 'a')?;
    }
    assert_eq!(rt; composer.insert(&table, 'a'), Err(InsertError::Full));
    let shown = composer.preedit(&table)?;
    assert_eq!(rt; shown.len(), 256);
    assert!(rt; shown.iter().all(|c| *c == 'あ'));
    Ok(())
}

#[test]
fn full_is_no_bar_to_the_other_keys(rt: HostRuntime) -> Result<(), Fail> {
    let table = romaji_table::read(rt.alloc(), ROMAJI.as_bytes())?;
    let mut composer = Composer::new(rt.alloc());
    for _ in 0..MOST_SHOWN {
        composer.insert(&table, 'a')?;
    }
    composer.home(&table)?;
    assert_eq!(rt; composer.insert(&table, 'u'), Err(InsertError::Full));
    composer.delete(&table)?;
    composer.insert(&table, 'u')?;
    assert_eq!(rt; composer.preedit(&table)?.first(), Some(&'う'));
    assert_eq!(rt; composer.cursor(&table)?, 1);
    Ok(())
}
