ghost use Rattle.std.specs.Prelude.{◌≡◌, ◌≢◌, ◌<◌, ◌^◌, ◌-◌, Err, IfOk, OnOk, length, map};
ghost use Rattle.mz_base.specs.Lines.{lines_of};
ghost use Rattle.run_meaning.specs.Plays.{apply};
ghost use Rattle.run_meaning.specs.Worlds.{IsWorld};
ghost use Rattle.world_files.specs.Reading.{Tells};
ghost use Rattle.mozc_cli.specs.Replays.{names_of, or_illegal, or_unfinished, played_lines, replayed_in};

use core_steps::{ClientPlan, Core, StepError, UserPlan, World};
use mz_base::{DataSet, Event, Names, NoMemory, Refusal, Seq, Text};
use schedule::Reading;
use std::alloc::Global;

/// Makes the events of the schedule in these bytes, or refuses its first line that does not read or whose event may not come.
#[tactic(auto, unfolding(crate::specs::Replays::replayed_in))]
pub fn replay<D: DataSet + Drop>(
    alloc: Global,
    world: World<D>,
    bytes: Vec<u8>,
) -> Result<Core<D>, Refusal>
    requires { IsWorld world }
    ensures told { Tells (λ core. core.state) result (replayed_in world bytes.items) }
    ensures world { IfOk result (λ core. core.world ≡ world) }
    ensures reads_nothing { result ≢ Err Refusal.ReadFault }
{
    let names = names_of(alloc, &world)?;
    let reading = schedule::read(alloc, bytes.as_slice(), &names)?;
    let mut core = Core::new(alloc, world)?;
    play(&mut core, reading.events.as_slice())?;
    finish(&core, &reading)?;
    Ok(core)
}

/// Makes these events, each with its line.
fn play<D: DataSet + Drop>(core: &mut Core<D>, events: &[(u64, Event)]) -> Result<(), Refusal>
    ensures told { Tells (λ _. core.new.state) result (played_lines core.old.world core.old.state events.now) }
    ensures world { OnOk result (core.new.world ≡ core.old.world) }
    ensures reads_nothing { result ≢ Err Refusal.ReadFault }
{
    for (line, event) in events {
        step(core, *line, event)?;
    }
    Ok(())
}

fn step<D: DataSet + Drop>(core: &mut Core<D>, line: u64, event: &Event) -> Result<(), Refusal>
    ensures told { Tells (λ _. core.new.state) result (or_illegal line (apply core.old.world core.old.state event.now)) }
    ensures world { core.new.world ≡ core.old.world }
    ensures reads_nothing { result ≢ Err Refusal.ReadFault }
{
    match core.step(event) {
        Ok(()) => Ok(()),
        Err(StepError::Illegal) => Err(Refusal::BadSchedule(line)),
        Err(StepError::NoMemory) => Err(Refusal::Memory),
    }
}

/// Refuses a schedule that has a line that does not read after these events, or is cut short.
fn finish<D: DataSet + Drop>(core: &Core<D>, reading: &Reading) -> Result<(), Refusal>
    requires few { reading.now.lines < 2 ^ 64 - 1 }
    ensures told { Tells (λ _. core.now.state) result (or_unfinished core.now.world reading.now core.now.state) }
    ensures reads_nothing { result ≢ Err Refusal.ReadFault }
{
    if let Some(line) = reading.bad {
        return Err(Refusal::BadSchedule(line));
    }
    if !core.is_complete() {
        return Err(Refusal::BadSchedule(reading.lines + 1));
    }
    Ok(())
}

/// The names of the users and of the clients.
fn names_of<D: DataSet + Drop>(alloc: Global, world: &World<D>) -> Result<Names, NoMemory>
    ensures { IfOk result (λ names. names ≡ names_of world.now) }
{
    Ok(Names {
        users: user_names(alloc, world.users.as_slice())?,
        clients: client_names(alloc, world.clients.as_slice())?,
    })
}

fn user_names(alloc: Global, users: &[UserPlan]) -> Result<Seq<Text>, NoMemory>
    ensures { IfOk result (λ names. names ≡ map (λ user. user.name) users.now) }
{
    let mut names = Vec::new(alloc);
    for user in users {
        names.push(user.name.copy(alloc)?)?;
    }
    Ok(Seq::from_vec(names))
}

fn client_names(alloc: Global, clients: &[ClientPlan]) -> Result<Seq<Text>, NoMemory>
    ensures { IfOk result (λ names. names ≡ map (λ client. client.name) clients.now) }
{
    let mut names = Vec::new(alloc);
    for client in clients {
        names.push(client.name.copy(alloc)?)?;
    }
    Ok(Seq::from_vec(names))
}
