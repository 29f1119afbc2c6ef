ghost use Rattle.std.specs.Prelude.{◌≡◌};
ghost use Rattle.keys.specs.Bindings.{action_in, row_of};

use crate::Key;
use mz_base::Mode;

/// What a key does.
#[derive(Clone, Copy, Debug, PartialEq, Eq)]
pub enum Action {
    Insert(char),
    /// Converts what is composed.
    Convert,
    Commit,
    /// Goes back: from conversion to composition, from composition to precomposition.
    Cancel,
    Backspace,
    Delete,
    Left,
    Right,
    Home,
    End,
    /// The next candidate.
    Next,
    Previous,
    /// Makes a segment longer by one character.
    Widen,
    Narrow,
    CommitThenInsert(char),
}

/// What a key does in a mode, None where it does nothing.
pub fn bind(mode: Mode, key: Key) -> Option<Action>
    ensures { result ≡ action_in mode key }
{
    match mode {
        Mode::P => in_precomposition(key),
        Mode::C => in_composition(key),
        Mode::V => in_conversion(key),
    }
}

fn in_precomposition(key: Key) -> Option<Action>
    ensures { result ≡ (row_of key).precomposition }
{
    match key {
        Key::Char(c) => Some(Action::Insert(c)),
        _ => None,
    }
}

fn in_composition(key: Key) -> Option<Action>
    ensures { result ≡ (row_of key).composition }
{
    match key {
        Key::Char(c) => Some(Action::Insert(c)),
        Key::Space => Some(Action::Convert),
        Key::Enter => Some(Action::Commit),
        Key::Escape => Some(Action::Cancel),
        Key::Backspace => Some(Action::Backspace),
        Key::Delete => Some(Action::Delete),
        Key::Left => Some(Action::Left),
        Key::Right => Some(Action::Right),
        Key::Home => Some(Action::Home),
        Key::End => Some(Action::End),
        Key::Up | Key::Down | Key::ShiftLeft | Key::ShiftRight => None,
    }
}

fn in_conversion(key: Key) -> Option<Action>
    ensures { result ≡ (row_of key).conversion }
{
    match key {
        Key::Char(c) => Some(Action::CommitThenInsert(c)),
        Key::Space | Key::Down => Some(Action::Next),
        Key::Up => Some(Action::Previous),
        Key::Enter => Some(Action::Commit),
        Key::Escape | Key::Backspace => Some(Action::Cancel),
        Key::Left => Some(Action::Left),
        Key::Right => Some(Action::Right),
        Key::Home => Some(Action::Home),
        Key::End => Some(Action::End),
        Key::ShiftRight => Some(Action::Widen),
        Key::ShiftLeft => Some(Action::Narrow),
        Key::Delete => None,
    }
}
