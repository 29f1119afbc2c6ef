ghost use Rattle.std.specs.Prelude.{◌≡◌};
ghost use Rattle.mz_base.specs.Lines.{lines_of};
ghost use Rattle.scenario.specs.ScriptAnswers.{GivesScript};
ghost use Rattle.scenario.specs.Scripts.{script_of, with_line};

use crate::commands::add_commands;
use keys::Command;
use mz_base::{FileLines, Limit, NoMemory};
use std::alloc::{AllocError, AllocFailed, Global};
use thiserror::Error;

/// The most commands of a script, each character of a `SEND_KEYS` line being one.
pub const MOST_COMMANDS: usize = 100_000;

/// The most characters of a `SEND_KEYS` line.
pub const MOST_KEYS: usize = 4_096;

/// The highest number of a candidate, and of a job that is waited for.
pub const MOST_NUMBER: u64 = 999_999_999;

/// Why a script was not read.
#[derive(Debug, Drop, PartialEq, Eq, Error)]
pub enum ScriptError {
    /// The first line that is bad, from 1.
    #[error("a line of the script is bad")]
    Bad(u64),
    /// The limit, and the line that passes it. It is not bad.
    #[error("the script passes a limit")]
    TooLarge(Limit, u64),
    #[error("memory ran out")]
    NoMemory,
}

impl From<AllocError> for ScriptError {
    ghost use Rattle.scenario.specs.declared.script.ScriptError.TheVariants.{NoMemory};

    ghost from_gives = { λ _ e. e ≡ NoMemory };

    fn from(_error: AllocError) -> ScriptError {
        ScriptError::NoMemory
    }
}

impl<T: Drop> From<AllocFailed<T>> for ScriptError {
    ghost use Rattle.scenario.specs.declared.script.ScriptError.TheVariants.{NoMemory};

    ghost from_gives = { λ _ e. e ≡ NoMemory };

    fn from(_error: AllocFailed<T>) -> ScriptError {
        ScriptError::NoMemory
    }
}

impl From<NoMemory> for ScriptError {
    ghost use Rattle.scenario.specs.declared.script.ScriptError.TheVariants.{NoMemory};

    ghost from_gives = { λ _ e. e ≡ NoMemory };

    fn from(_error: NoMemory) -> ScriptError {
        ScriptError::NoMemory
    }
}

/// The commands in these bytes, or the first line that is bad or passes the limit.
#[tactic(auto, unfolding(crate::specs::Scripts::script_of))]
pub fn read_script(alloc: Global, bytes: &[u8]) -> Result<Vec<Command>, ScriptError>
    ensures { GivesScript (λ commands. commands.items) result (script_of (lines_of bytes.now)) }
{
    let mut commands = Vec::new(alloc);
    let mut number = 0;
    for line in FileLines::of(bytes) {
        number += 1;
        add_line(alloc, &mut commands, number, line)?;
    }
    Ok(commands)
}

#[tactic(auto, unfolding(crate::specs::Scripts::with_line))]
fn add_line(
    alloc: Global,
    commands: &mut Vec<Command>,
    number: u64,
    line: &[u8],
) -> Result<(), ScriptError>
    ensures { GivesScript (λ _. commands.new.items) result (with_line number commands.old.items line.now) }
{
    add_commands(alloc, commands, number, line)?;
    if MOST_COMMANDS < commands.len() {
        return Err(ScriptError::TooLarge(Limit::Commands, number));
    }
    Ok(())
}
