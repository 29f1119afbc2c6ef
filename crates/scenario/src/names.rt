ghost use Rattle.std.specs.Prelude.{◌≡◌, ◌≤◌, ◌<◌, ◌^◌, IfOk, IfSome, length, position};
ghost use Rattle.mz_base.specs.Data.{is_text};
ghost use Rattle.scenario.specs.Names.{is_name, is_path, is_among, new_name, number_among, role_of};

use mz_base::{NoMemory, Role, Text};
use std::alloc::Global;

/// The most bytes of a name.
pub const MOST_NAME_BYTES: usize = 64;

/// The most bytes of a path.
pub const MOST_PATH_BYTES: usize = 1024;

pub fn is_name(name: &str) -> bool
    ensures { result ≡ is_name name.now }
{
    !name.is_empty() && name.len() <= MOST_NAME_BYTES
}

pub fn is_path(path: &str) -> bool
    ensures { result ≡ is_path path.now }
{
    !path.is_empty() && path.len() <= MOST_PATH_BYTES
}

/// The name, where it may stand and none of these is the same.
pub fn new_name(alloc: Global, names: &[Text], name: &str) -> Result<Option<Text>, NoMemory>
    ensures { IfOk result (λ new. new ≡ new_name names.now name.now) }
{
    let text = Text::from_str(alloc, name)?;
    if is_name(name) && !is_among(names, text.as_chars()) {
        Ok(Some(text))
    } else {
        Ok(None)
    }
}

fn is_among(texts: &[Text], text: &[char]) -> bool
    ensures { result ≡ is_among texts.now text.now }
{
    texts.iter().any(|other| other.as_chars() == text)
}

/// The number of a name among these, from 1.
pub fn number_among(alloc: Global, names: &[Text], name: &str) -> Result<Option<u32>, NoMemory>
    requires { length names.now < 2 ^ 32 }
    ensures { IfOk result (λ number. number ≡ number_among names.now name.now) }
{
    let text = Text::from_str(alloc, name)?;
    match place_among(names, text.as_chars()) {
        Some(place) => Ok(Some(place as u32 + 1)),
        None => Ok(None),
    }
}

/// The place of the first of these texts that is this one.
pub fn place_among(texts: &[Text], text: &[char]) -> Option<usize>
    ensures place { result ≡ position (is_text text.now) texts.now }
    ensures inside { IfSome result (λ place. place < length texts.now) }
{
    texts.iter().position(|other| other.as_chars() == text)
}

/// The role that a word names.
#[tactic(auto, unfolding(crate::specs::Names::role_of))]
pub fn role_of(word: &str) -> Option<Role>
    ensures { result ≡ role_of word.now }
{
    if word == "connection" {
        return Some(Role::Connection);
    }
    if word == "id" {
        return Some(Role::Id);
    }
    if word == "unk" {
        return Some(Role::Unk);
    }
    if word == "segment" {
        return Some(Role::Segment);
    }
    if word == "user_pos" {
        return Some(Role::UserPos);
    }
    if word == "romaji" {
        return Some(Role::Romaji);
    }
    if word == "dictionary" {
        return Some(Role::Dictionary);
    }
    if word == "symbol" {
        return Some(Role::Symbol);
    }
    if word == "kanji" {
        return Some(Role::Kanji);
    }
    None
}
