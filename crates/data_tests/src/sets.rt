use engine::{BuildError, Engine, SetFile, SetFiles, build};
use mz_base::{Class, DataSet, MOST_LOOKED_UP, NoMemory, Role, Romaji, Seq, Text};
use std::alloc::Global;
use std::test::Fail;

/// A file of each role, of a set of three ids.
fn bytes_for(role: Role) -> &'static str {
    match role {
        Role::Connection => "3\n0\n100\n500\n100\n400\n50\n200\n100\n800\n",
        Role::Id => "0 BOS/EOS,*\n1 名詞,一般\n2 助詞,係助詞\n",
        Role::Unk => "HIRAGANA\t1\t5000\nOTHER\t1\t6000\n",
        Role::Segment => "1\t1\t2\t2\n",
        Role::UserPos => "名詞\t名詞,一般\t100\n",
        Role::Romaji => rules(),
        Role::Dictionary => words(),
        Role::Symbol => "は\t！\nきょう\t※\nは\t？\n",
        Role::Kanji => "きょう\t京強\nは\t葉\nきょう\t今\n",
    }
}

fn rules() -> &'static str {
    "a\tあ\nu\tう\nka\tか\nkyo\tきょ\nha\tは\nna\tな\nn\tん\nnn\tん\nkk\tっ\tk\n"
}

fn words() -> &'static str {
    "きょう\t1\t1\t300\t今日\nきょう\t1\t1\t350\t京\nは\t2\t2\t100\tは\nは\t1\t1\t600\t葉\n"
}

fn file_of(alloc: Global, role: Role, bytes: &str) -> Result<SetFile, NoMemory> {
    Ok(SetFile {
        role,
        path: Text::from_str(alloc, "a")?,
        bytes: Seq::from_vec(Vec::from_slice(alloc, bytes.as_bytes())?),
    })
}

#[tactic(auto, using(engine::proofs::FileCounts::files_of_at_most))]
fn set_of(alloc: Global, files: &[(Role, &str)]) -> Result<Engine, BuildError> {
    let mut list = Vec::new(alloc);
    for (role, bytes) in files {
        list.push(file_of(alloc, *role, bytes)?)?;
    }
    let files = SetFiles {
        files: Seq::from_vec(list),
    };
    if files.files.as_slice().len() > 100 {
        return Err(BuildError::NoMemory);
    }
    build(alloc, &files)
}

/// Romaji rules alone.
fn plain(alloc: Global) -> Result<Engine, BuildError> {
    set_of(alloc, &[(Role::Romaji, rules())])
}

// They do not stand in the order of roles.
const ROLES: [Role; 9] = [
    Role::Kanji,
    Role::Symbol,
    Role::Dictionary,
    Role::Romaji,
    Role::UserPos,
    Role::Segment,
    Role::Unk,
    Role::Id,
    Role::Connection,
];

/// A set with a file of each role.
fn full(alloc: Global) -> Result<Engine, BuildError> {
    let mut files = Vec::new(alloc);
    for role in ROLES {
        files.push((role, bytes_for(role)))?;
    }
    set_of(alloc, files.as_slice())
}

fn chars(alloc: Global, text: &str) -> Result<Vec<char>, NoMemory> {
    Ok(text.chars().collect(alloc)?)
}

fn counts_text(alloc: Global, set: &Engine) -> Result<String, NoMemory> {
    let ids = set.ids();
    let words = set.word_count();
    let rules = set.rule_count();
    Ok(format!(in alloc; "{ids} {words} {rules}")?)
}

#[test]
fn counts_a_full_set(rt: HostRuntime) -> Result<(), BuildError> {
    let text = counts_text(rt.alloc(), &full(rt.alloc())?)?;
    assert_eq!(rt; text.as_str(), "3 4 9");
    Ok(())
}

#[test]
fn counts_a_plain_set(rt: HostRuntime) -> Result<(), BuildError> {
    let text = counts_text(rt.alloc(), &plain(rt.alloc())?)?;
    assert_eq!(rt; text.as_str(), "1 0 9");
    Ok(())
}

/// The cost of each two words, and whether they are of one segment.
fn connections_text(alloc: Global, set: &Engine) -> Result<String, NoMemory> {
    let mut text = String::new(alloc);
    for (r, l) in [(0u16, 2u16), (1, 2), (2, 1)] {
        if (r as u32) < set.ids() && (l as u32) < set.ids() {
            let cost = set.conn(r, l);
            let joins = set.joins(r, l);
            text.push_str(format!(in alloc; "{cost} {joins} ")?.as_str())?;
        }
    }
    Ok(text)
}

#[test]
fn looks_up_connections(rt: HostRuntime) -> Result<(), BuildError> {
    let text = connections_text(rt.alloc(), &full(rt.alloc())?)?;
    assert_eq!(rt; text.as_str(), "500 false 50 true 100 false ");
    Ok(())
}

const CLASSES: [Class; 5] = [
    Class::Hiragana,
    Class::Katakana,
    Class::Digit,
    Class::Letter,
    Class::Other,
];

fn unknown_text(alloc: Global, set: &Engine) -> Result<String, NoMemory> {
    let mut text = String::new(alloc);
    for class in CLASSES {
        let (id, cost) = set.unknown(class);
        text.push_str(format!(in alloc; "{id} {cost} ")?.as_str())?;
    }
    Ok(text)
}

#[test]
fn looks_up_unknown_words(rt: HostRuntime) -> Result<(), BuildError> {
    let text = unknown_text(rt.alloc(), &full(rt.alloc())?)?;
    assert_eq!(rt; text.as_str(), "1 5000 1 6000 1 6000 1 6000 1 6000 ");
    Ok(())
}

#[test]
fn unknown_words_have_a_stand_in(rt: HostRuntime) -> Result<(), BuildError> {
    let text = unknown_text(rt.alloc(), &plain(rt.alloc())?)?;
    assert_eq!(rt; text.as_str(), "0 10000 0 10000 0 10000 0 10000 0 10000 ");
    Ok(())
}

/// The id and the cost of two parts of speech.
fn names_text(alloc: Global, set: &Engine) -> Result<String, NoMemory> {
    let mut text = String::new(alloc);
    for name in ["名詞", "助詞"] {
        match set.pos(chars(alloc, name)?.as_slice()) {
            Some((id, cost)) => text.push_str(format!(in alloc; "{id} {cost} ")?.as_str())?,
            None => text.push_str("none ")?,
        }
    }
    Ok(text)
}

#[test]
fn looks_up_parts_of_speech(rt: HostRuntime) -> Result<(), BuildError> {
    let text = names_text(rt.alloc(), &full(rt.alloc())?)?;
    assert_eq!(rt; text.as_str(), "1 100 none ");
    Ok(())
}

/// A word row, in one line.
fn word_text(alloc: Global, set: &Engine, row: u32) -> Result<String, NoMemory> {
    if row as usize >= set.word_count() {
        return Ok(String::new(alloc));
    }
    let word = set.word(row);
    let reading = Text::from_chars(alloc, word.reading)?;
    let value = Text::from_chars(alloc, word.value)?;
    Ok(format!(in alloc; "{reading} {} {} {} {value}", word.lid, word.rid, word.cost)?)
}

#[test]
fn lends_words(rt: HostRuntime) -> Result<(), BuildError> {
    let text = word_text(rt.alloc(), &full(rt.alloc())?, 1)?;
    assert_eq!(rt; text.as_str(), "きょう 1 1 350 京");
    Ok(())
}

/// End and row of each word that stands in the key from the two places on, and the rows with a prefix.
fn found_text(alloc: Global, set: &Engine, key: &str) -> Result<String, NoMemory> {
    let key = chars(alloc, key)?;
    let mut text = String::new(alloc);
    for begin in [0, 3] {
        add_hits(alloc, set, key.as_slice(), begin, &mut text)?;
    }
    for row in set.words_with_prefix(alloc, chars(alloc, "き")?.as_slice())? {
        text.push_str(format!(in alloc; "{row} ")?.as_str())?;
    }
    Ok(text)
}

fn add_hits(
    alloc: Global,
    set: &Engine,
    key: &[char],
    begin: usize,
    text: &mut String,
) -> Result<(), NoMemory> {
    if key.len() > MOST_LOOKED_UP || begin >= key.len() {
        return Ok(());
    }
    for hit in set.words_at(alloc, key, begin)? {
        text.push_str(format!(in alloc; "{}:{} ", hit.end, hit.row)?.as_str())?;
    }
    Ok(())
}

#[test]
fn finds_words(rt: HostRuntime) -> Result<(), BuildError> {
    let text = found_text(rt.alloc(), &full(rt.alloc())?, "きょうは")?;
    assert_eq!(rt; text.as_str(), "3:0 3:1 4:2 4:3 0 1 ");
    Ok(())
}

/// The longest rule, and whether two texts are open.
fn rules_text(alloc: Global, set: &Engine) -> Result<String, NoMemory> {
    let typed = chars(alloc, "kka")?;
    let length = set.longest(typed.as_slice()).map(|rule| rule.length);
    let open = set.is_open(chars(alloc, "ky")?.as_slice());
    let whole = set.is_open(chars(alloc, "kyo")?.as_slice());
    Ok(format!(in alloc; "{} {open} {whole}", length.unwrap_or(0))?)
}

#[test]
fn looks_up_rules(rt: HostRuntime) -> Result<(), BuildError> {
    let text = rules_text(rt.alloc(), &full(rt.alloc())?)?;
    assert_eq!(rt; text.as_str(), "2 true false");
    Ok(())
}

/// The symbols and the single kanji of two readings, each with a slash behind it.
fn values_text(alloc: Global, set: &Engine) -> Result<String, NoMemory> {
    let mut text = String::new(alloc);
    for reading in ["は", "きょう"] {
        let reading = chars(alloc, reading)?;
        add_texts(&mut text, set.symbols(reading.as_slice()))?;
        add_texts(&mut text, set.kanji(reading.as_slice()))?;
    }
    Ok(text)
}

fn add_texts(all: &mut String, texts: &[Text]) -> Result<(), NoMemory> {
    for text in texts {
        for letter in text.as_chars() {
            all.push(*letter)?;
        }
        all.push('/')?;
    }
    Ok(())
}

#[test]
fn looks_up_values(rt: HostRuntime) -> Result<(), BuildError> {
    let text = values_text(rt.alloc(), &full(rt.alloc())?)?;
    assert_eq!(rt; text.as_str(), "！/？/葉/※/京/強/今/");
    Ok(())
}

/// The first fault of files: role, file and kind.
fn fault_text(alloc: Global, files: &[(Role, &str)]) -> Result<String, NoMemory> {
    match set_of(alloc, files) {
        Ok(_) => Ok(String::from_str(alloc, "none")?),
        Err(BuildError::NoMemory) => Err(NoMemory),
        Err(BuildError::Fault(fault)) => {
            let kind = fault.kind;
            Ok(format!(in alloc; "{:?} {} {kind}", fault.role, fault.nth)?)
        }
    }
}

const RULE: (Role, &str) = (Role::Romaji, "ka\tか");

const LONG: (Role, &str) = (Role::Romaji, "ka\tか\tka");

const GOOD: (Role, &str) = (Role::Dictionary, "x\t0\t0\t1\tx");

// Three files, and the first fault. The order of roles decides, not that of the files.
const FAULTS: [([(Role, &str); 3], &str); 8] = [
    ([RULE, GOOD, GOOD], "none"),
    ([LONG, GOOD, GOOD], "Romaji 1 long-pending 1"),
    ([LONG, GOOD, (Role::Connection, "0")], "Connection 1 size"),
    ([(Role::Kanji, "x"), GOOD, LONG], "Romaji 1 long-pending 1"),
    (
        [(Role::Kanji, "x"), (Role::Symbol, "\tx"), RULE],
        "Symbol 1 empty 1",
    ),
    (
        [GOOD, RULE, (Role::Dictionary, "\nx\t0\t1\t1\tx")],
        "Dictionary 2 range 2",
    ),
    (
        [RULE, GOOD, (Role::Connection, "3\n0\n1\n2\n3\n4\n5\n6\n7")],
        "Connection 1 count 9 8",
    ),
    (
        [(Role::UserPos, "x\ty\t1"), RULE, GOOD],
        "UserPos 1 no-feature 1",
    ),
];

#[test]
fn tells_the_first_fault(rt: HostRuntime) -> Result<(), Fail> {
    for (files, wanted) in FAULTS {
        let found = fault_text(rt.alloc(), &files)?;
        assert_eq!(rt; found.as_str(), wanted);
    }
    Ok(())
}
