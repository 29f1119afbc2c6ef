use keys::{Action, Key, bind, key_of, key_of_char};
use mz_base::{Mode, NoMemory};
use std::alloc::Global;
use std::test::Fail;

// A key by its name, and what it does in precomposition, in composition and in conversion.
const BOUND: &str = "\
a|Insert('a')|Insert('a')|CommitThenInsert('a')
Space|-|Convert|Next
Enter|-|Commit|Commit
Escape|-|Cancel|Cancel
Backspace|-|Backspace|Cancel
Delete|-|Delete|-
Left|-|Left|Left
Right|-|Right|Right
Home|-|Home|Home
End|-|End|End
Up|-|-|Previous
Down|-|-|Next
Shift Left|-|-|Narrow
Shift Right|-|-|Widen
";

#[test]
fn each_key_is_bound_by_the_table(rt: HostRuntime) -> Result<(), Fail> {
    let alloc = rt.alloc();
    for line in BOUND.lines() {
        let name = line.split('|').next().unwrap_or("");
        let letters: Vec<char> = name.chars().collect(alloc)?;
        assert_eq!(rt;
            bound(alloc, name, key_of(letters.as_slice()))?.as_str(),
            line
        );
    }
    Ok(())
}

fn bound(alloc: Global, name: &str, key: Option<Key>) -> Result<String, NoMemory> {
    let mut line = String::from_str(alloc, name)?;
    let Some(key) = key else {
        return Ok(line);
    };
    for mode in [Mode::P, Mode::C, Mode::V] {
        add(&mut line, alloc, bind(mode, key))?;
    }
    Ok(line)
}

fn add(line: &mut String, alloc: Global, action: Option<Action>) -> Result<(), NoMemory> {
    line.push('|')?;
    match action {
        Some(action) => line.push_str(format!(in alloc; "{action:?}")?.as_str())?,
        None => line.push('-')?,
    }
    Ok(())
}

const CHARACTERS: &str = "!~\u{80}\u{A0}あー｡😀";

#[test]
fn a_character_is_its_own_key(rt: HostRuntime) {
    for c in CHARACTERS.chars() {
        assert_eq!(rt; key_of(&[c]), Some(Key::Char(c)), "of {c}");
        assert_eq!(rt; key_of_char(c), Some(Key::Char(c)), "of {c}");
    }
    assert_eq!(rt; key_of(&[' ']), Some(Key::Space));
    assert_eq!(rt; key_of_char(' '), Some(Key::Space));
}

const CONTROLS: &str = "\0\u{1}\t\n\r\u{1F}\u{7F}";

#[test]
fn a_control_character_is_no_key(rt: HostRuntime) {
    for c in CONTROLS.chars() {
        assert_eq!(rt; key_of(&[c]), None, "of {}", u32::from(c));
        assert_eq!(rt; key_of_char(c), None, "of {}", u32::from(c));
    }
}

// The first is the empty name.
const NO_NAMES: &str = "
F6
enter
ENTER
Enter.
Ente
ShiftLeft
Shift  Left
Shift
Left Shift
Space Space
ab
ああ
";

#[test]
fn no_other_name_is_a_key(rt: HostRuntime) -> Result<(), Fail> {
    for name in NO_NAMES.lines() {
        let letters: Vec<char> = name.chars().collect(rt.alloc())?;
        assert_eq!(rt; key_of(letters.as_slice()), None, "of {name}");
    }
    Ok(())
}
