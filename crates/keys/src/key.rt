ghost use Rattle.std.specs.Prelude.{◌≡◌, bytes_eq, find, map, option_copied};
ghost use Rattle.keys.specs.NameRows.{called, is_named};
ghost use Rattle.keys.specs.Names.{key_among, key_of, key_of_char, is_typed};

/// A key that a script can send.
#[derive(Clone, Copy, Debug, PartialEq, Eq)]
pub enum Key {
    /// A character that is neither a control character nor the space.
    Char(char),
    Space,
    Enter,
    Escape,
    Backspace,
    Delete,
    Left,
    Right,
    Home,
    End,
    Up,
    Down,
    ShiftLeft,
    ShiftRight,
}

/// What a key is called, and the key.
type NamedKey = (&'static str, Key);

/// The keys that have names.
const NAMED_KEYS: [NamedKey; 13] = [
    ("Space", Key::Space),
    ("Enter", Key::Enter),
    ("Escape", Key::Escape),
    ("Backspace", Key::Backspace),
    ("Delete", Key::Delete),
    ("Left", Key::Left),
    ("Right", Key::Right),
    ("Home", Key::Home),
    ("End", Key::End),
    ("Up", Key::Up),
    ("Down", Key::Down),
    ("Shift Left", Key::ShiftLeft),
    ("Shift Right", Key::ShiftRight),
];

/// The key of this name; a single character names its own. None where no key is called so.
#[tactic(auto, unfolding(crate::specs::Names::key_of))]
pub fn key_of(name: &[char]) -> Option<Key>
    ensures { result ≡ key_of name.now }
{
    if name.len() == 1 {
        key_of_char(name[0])
    } else {
        named_key(&NAMED_KEYS, name)
    }
}

/// The key of a single character, None for a control character.
pub fn key_of_char(c: char) -> Option<Key>
    ensures { result ≡ key_of_char c }
{
    if c == ' ' {
        Some(Key::Space)
    } else if is_typed(c) {
        Some(Key::Char(c))
    } else {
        None
    }
}

fn is_typed(c: char) -> bool
    ensures { result ≡ is_typed c }
{
    c > ' ' && c != '\u{7F}'
}

fn named_key(rows: &[NamedKey], name: &[char]) -> Option<Key>
    ensures { result ≡ key_among (map called rows.now) name.now }
{
    match row_of(rows, name) {
        Some((_, key)) => Some(*key),
        None => None,
    }
}

fn row_of<'a>(rows: &'a [NamedKey], name: &[char]) -> Option<&'a NamedKey>
    ensures { option_copied result ≡ find (is_named name.now) rows.now }
{
    rows.iter().find(|row| is_named(row, name))
}

fn is_named(row: &NamedKey, name: &[char]) -> bool
    ensures { result ≡ is_named name.now row.now }
{
    is_spelled(name, row.0.as_bytes())
}

/// Whether the name has just these ASCII letters.
fn is_spelled(name: &[char], letters: &[u8]) -> bool
    ensures { result ≡ bytes_eq name.now letters.now }
{
    let [letter, letters @ ..] = letters else {
        return name.is_empty();
    };
    let [c, name @ ..] = name else {
        return false;
    };
    *c == char::from(*letter) && is_spelled(name, letters)
}
