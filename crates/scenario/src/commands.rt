ghost use Rattle.std.specs.Prelude.{◌≡◌, ◌++◌, ◌∷◌, ℕ, OnOk, Some, option_map, option_to_list};
ghost use Rattle.std.specs.List.{flat_map, list_all};
ghost use Rattle.keys.specs.declared.command.Command.TheVariants as command;
ghost use Rattle.mz_base.specs.Lines.{fields_of};
ghost use Rattle.scenario.specs.ScriptAnswers.{GivesScript};
ghost use Rattle.scenario.specs.Scripts.{added, alone, commands_in, commands_of, is_key, keys_of, number_in, one, pressed, spelled, typed, with_field};

use crate::script::{MOST_KEYS, MOST_NUMBER, ScriptError};
use keys::{Command, Key, key_of, key_of_char};
use mz_base::{NoMemory, Text, cut_field, is_skipped, number, text_of_line};
use std::alloc::Global;

/// Adds the commands of the line of this number; a line that is empty or a comment has none. A bad line may leave some of
/// them there.
#[tactic(auto, unfolding(crate::specs::Scripts::commands_of))]
pub fn add_commands(
    alloc: Global,
    commands: &mut Vec<Command>,
    place: u64,
    line: &[u8],
) -> Result<(), ScriptError>
    ensures { GivesScript (λ _. commands.new.items) result (added place commands.old.items (commands_of line.now)) }
{
    let Some(text) = text_of_line(line) else {
        return Err(ScriptError::Bad(place));
    };
    if is_skipped(line) {
        return Ok(());
    }
    add_fields(alloc, commands, place, text)
}

fn add_fields(
    alloc: Global,
    commands: &mut Vec<Command>,
    place: u64,
    line: &str,
) -> Result<(), ScriptError>
    ensures { GivesScript (λ _. commands.new.items) result (added place commands.old.items (commands_in (fields_of line.now))) }
{
    match cut_field(line) {
        (word, None) => add_alone(alloc, commands, place, word),
        (word, Some(rest)) => add_rest(alloc, commands, place, word, rest),
    }
}

/// A line of a word and what follows it.
#[tactic(auto, using(crate::proofs::FieldLemmas::none_of_three))]
fn add_rest(
    alloc: Global,
    commands: &mut Vec<Command>,
    place: u64,
    word: &str,
    rest: &str,
) -> Result<(), ScriptError>
    ensures { GivesScript (λ _. commands.new.items) result (added place commands.old.items (commands_in (word.now ∷ fields_of rest.now))) }
{
    match cut_field(rest) {
        (field, None) => add_field(alloc, commands, place, word, field),
        (_, Some(_)) => Err(ScriptError::Bad(place)),
    }
}

/// A line of one word.
#[tactic(auto, unfolding(crate::specs::Scripts::alone))]
fn add_alone(
    alloc: Global,
    commands: &mut Vec<Command>,
    place: u64,
    word: &str,
) -> Result<(), ScriptError>
    ensures { GivesScript (λ _. commands.new.items) result (added place commands.old.items (alone word.now)) }
{
    let nothing = Text::from_vec(Vec::new(alloc));
    if word == "RESET" {
        return Ok(add(commands, Command::Reset)?);
    }
    if word == "EXPECT_PREEDIT" {
        return Ok(add(commands, Command::ExpectPreedit(nothing))?);
    }
    if word == "EXPECT_RESULT" {
        return Ok(add(commands, Command::ExpectResult(nothing))?);
    }
    Err(ScriptError::Bad(place))
}

/// A line of a word and a field.
#[tactic(auto, unfolding(crate::specs::Scripts::with_field))]
fn add_field(
    alloc: Global,
    commands: &mut Vec<Command>,
    place: u64,
    word: &str,
    field: &str,
) -> Result<(), ScriptError>
    ensures { GivesScript (λ _. commands.new.items) result (added place commands.old.items (with_field word.now field.now)) }
{
    if word == "SELECT" {
        return add_if(commands, place, select(field));
    }
    if word == "AWAIT" {
        return add_if(commands, place, wait_for(field));
    }
    add_spelled(commands, place, word, Text::from_str(alloc, field)?)
}

fn select(field: &str) -> Option<Command>
    ensures { result ≡ option_map (λ n. command.Select n) (number_in field.now) }
{
    let place = number_in(field)?;
    Some(Command::Select(place))
}

fn wait_for(field: &str) -> Option<Command>
    ensures { result ≡ option_map (λ n. command.Await n) (number_in field.now) }
{
    let job = number_in(field)?;
    Some(Command::Await(job))
}

/// A number of a script.
fn number_in(field: &str) -> Option<u32>
    ensures { result ≡ number_in field.now }
{
    let n = number(field)?;
    if 1 <= n && n <= MOST_NUMBER {
        Some(n as u32)
    } else {
        None
    }
}

/// A line of a word and a text.
#[tactic(auto, unfolding(crate::specs::Scripts::spelled))]
fn add_spelled(
    commands: &mut Vec<Command>,
    place: u64,
    word: &str,
    text: Text,
) -> Result<(), ScriptError>
    ensures { GivesScript (λ _. commands.new.items) result (added place commands.old.items (spelled word.now text)) }
{
    if word == "SEND_KEYS" {
        return add_keys(commands, place, text.as_chars());
    }
    if word == "SEND_KEY" {
        return add_if(commands, place, press(key_of(text.as_chars())));
    }
    if word == "EXPECT_PREEDIT" {
        return Ok(add(commands, Command::ExpectPreedit(text))?);
    }
    if word == "EXPECT_RESULT" {
        return Ok(add(commands, Command::ExpectResult(text))?);
    }
    Err(ScriptError::Bad(place))
}

/// Each character is a key.
#[tactic(auto, unfolding(crate::specs::Scripts::keys_of))]
fn add_keys(commands: &mut Vec<Command>, place: u64, text: &[char]) -> Result<(), ScriptError>
    ensures { GivesScript (λ _. commands.new.items) result (added place commands.old.items (keys_of text.now)) }
{
    if text.is_empty() || MOST_KEYS < text.len() || !are_keys(text) {
        return Err(ScriptError::Bad(place));
    }
    Ok(press_all(commands, text)?)
}

fn are_keys(text: &[char]) -> bool
    ensures { result ≡ list_all is_key text.now }
{
    text.iter().all(|c| is_key(*c))
}

fn is_key(c: char) -> bool
    ensures { result ≡ is_key c }
{
    key_of_char(c).is_some()
}

fn press_all(commands: &mut Vec<Command>, text: &[char]) -> Result<(), NoMemory>
    ensures { OnOk result (commands.new.items ≡ commands.old.items ++ flat_map typed text.now) }
{
    for c in text {
        put(commands, press(key_of_char(*c)))?;
    }
    Ok(())
}

fn press(key: Option<Key>) -> Option<Command>
    ensures { result ≡ pressed key }
{
    match key {
        Some(key) => Some(Command::Key(key)),
        None => None,
    }
}

fn put(commands: &mut Vec<Command>, command: Option<Command>) -> Result<(), NoMemory>
    ensures { OnOk result (commands.new.items ≡ commands.old.items ++ option_to_list command) }
{
    if let Some(command) = command {
        commands.push(command)?;
    }
    Ok(())
}

/// Adds a command, where the line has one.
fn add_if(
    commands: &mut Vec<Command>,
    place: u64,
    command: Option<Command>,
) -> Result<(), ScriptError>
    ensures { GivesScript (λ _. commands.new.items) result (added place commands.old.items (option_map one command)) }
{
    match command {
        Some(command) => Ok(add(commands, command)?),
        None => Err(ScriptError::Bad(place)),
    }
}

fn add(commands: &mut Vec<Command>, command: Command) -> Result<(), NoMemory>
    ensures { OnOk result (commands.new.items ≡ commands.old.items ++ one command) }
{
    commands.push(command)?;
    Ok(())
}
