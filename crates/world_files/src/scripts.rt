ghost use Rattle.std.specs.Prelude.{◌≡◌, ◌≢◌, [], Err, IfOk, Some, map};
ghost use Rattle.mz_base.specs.Lines.{lines_of};
ghost use Rattle.run_meaning.specs.Worlds.{IsCounted};
ghost use Rattle.scenario.specs.Scripts.{script_of};
ghost use Rattle.world_files.specs.Reading.{Files, Reads, Tells, UnlessFree};
ghost use Rattle.world_files.specs.Scripts.{client_in, clients_after, or_refused, script_file, script_refusal, scripts_after};
ghost use Rattle.world_files.specs.Sound.{AreClientsOf, AreScriptsOf};

use crate::reading::read_file;
use core_steps::ClientPlan;
use keys::Command;
use mz_base::{NoMemory, Refusal, Seq, Text};
use mz_outside::Store;
use scenario::{ClientLine, ScriptError, read_script, scripts_go_line_by_line};
use std::alloc::Global;

/// A client, and its script as it was read.
#[derive(Drop)]
pub struct ScriptFile {
    pub name: Text,
    /// The number of the user, from 1.
    pub user: u32,
    pub path: Text,
    pub bytes: Seq<u8>,
}

/// The scripts of a manifest, and how many bytes may be read after them.
#[derive(Drop)]
pub struct Scripts {
    pub scripts: Seq<ScriptFile>,
    pub left: usize,
}

/// The scripts of these clients, in their order. One that two clients name is read twice.
pub fn read_scripts<S: Store>(
    alloc: Global,
    store: &mut S,
    left: usize,
    lines: &[ClientLine],
) -> Result<Scripts, Refusal>
    ensures told { (files : Files) → S.files store.old ≡ Some files → Tells (λ scripts. scripts) result (scripts_after files [] left lines.now) }
    ensures of { IfOk result (λ scripts. AreScriptsOf lines.now scripts.scripts) }
    ensures reads { Reads (S.files store.old) (S.files store.new) (S.faults store.old) (S.faults store.new) result }
{
    let mut scripts = Vec::new(alloc);
    let mut unread = left;
    for line in lines {
        let bytes = read_file(alloc, store, unread, &line.script)?;
        unread -= bytes.len();
        scripts.push(script_file(alloc, line, bytes)?)?;
    }
    Ok(Scripts {
        scripts: Seq::from_vec(scripts),
        left: unread,
    })
}

fn script_file(alloc: Global, line: &ClientLine, bytes: Vec<u8>) -> Result<ScriptFile, NoMemory>
    ensures { IfOk result (λ script. script ≡ script_file line.now bytes.items) }
{
    Ok(ScriptFile {
        name: line.name.copy(alloc)?,
        user: line.user,
        path: line.script.copy(alloc)?,
        bytes: Seq::from_vec(bytes),
    })
}

/// The clients of these scripts, or the refusal of the first line that is bad or too large.
pub fn clients_in(alloc: Global, scripts: &[ScriptFile]) -> Result<Seq<ClientPlan>, Refusal>
    ensures told { Tells (λ clients. clients) result (clients_after [] scripts.now) }
    ensures of { IfOk result (λ clients. AreClientsOf scripts.now clients) }
    ensures reads_nothing { result ≢ Err Refusal.ReadFault }
{
    let mut clients = Vec::new(alloc);
    for script in scripts {
        clients.push(client_in(alloc, script)?)?;
    }
    Ok(Seq::from_vec(clients))
}

fn client_in(alloc: Global, script: &ScriptFile) -> Result<ClientPlan, Refusal>
    ensures told { Tells (λ client. client) result (client_in script.now) }
    ensures user { IfOk result (λ client. client.user ≡ script.now.user) }
    ensures few { IfOk result (λ client. IsCounted client.commands) }
    ensures reads_nothing { result ≢ Err Refusal.ReadFault }
{
    let commands = commands_in(alloc, &script.path, script.bytes.as_slice())?;
    Ok(ClientPlan {
        name: script.name.copy(alloc)?,
        user: script.user,
        commands,
    })
}

/// The commands of a script, whose first line that is bad or too large refuses the run.
fn commands_in(alloc: Global, path: &Text, bytes: &[u8]) -> Result<Vec<Command>, Refusal>
    ensures told { Tells (λ commands. commands.items) result (or_refused path.now (script_of (lines_of bytes.now))) }
    ensures few { IfOk result (λ commands. IsCounted commands.items) }
    ensures reads_nothing { result ≢ Err Refusal.ReadFault }
{
    scripts_go_line_by_line();
    match read_script(alloc, bytes) {
        Ok(commands) => Ok(commands),
        Err(fault) => Err(script_refusal(alloc, path, fault)),
    }
}

fn script_refusal(alloc: Global, path: &Text, fault: ScriptError) -> Refusal
    ensures told { UnlessFree result (result ≡ script_refusal path.now fault) }
    ensures reads_nothing { result ≢ Refusal.ReadFault }
{
    match fault {
        ScriptError::Bad(line) => bad_script(alloc, path, line),
        ScriptError::TooLarge(limit, _) => Refusal::TooLarge(limit),
        ScriptError::NoMemory => Refusal::Memory,
    }
}

fn bad_script(alloc: Global, path: &Text, line: u64) -> Refusal
    ensures told { UnlessFree result (result ≡ Refusal.BadScript path.now line) }
    ensures reads_nothing { result ≢ Refusal.ReadFault }
{
    match path.copy(alloc) {
        Ok(path) => Refusal::BadScript(path, line),
        Err(NoMemory) => Refusal::Memory,
    }
}
