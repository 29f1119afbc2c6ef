ghost use Rattle.std.specs.Prelude.{◌≡◌, IfOk, length};
ghost use Rattle.core_steps.specs.Cores.{beginning};

use core_steps::{ClientPlan, Core, StepError, UserPlan, World};
use example_set::ExampleSet;
use keys::{Command, Key};
use mz_base::{BadSet, Event, Fault, FaultKind, Names, NoMemory, Outcome, Role, Seq, Text};
use schedule::read;
use std::alloc::Global;
use std::sync::Arc;
use std::test::Fail;
use user_dict::{ImportError, import};

// Events, with a semicolon between them, and after the bar a point for each that came and a mark for each that is not legal.
// Jobs 1, 3 and 4 read, job 2 does not. The user u has two reloads, of which the first does not read, v none. The client c1 of u
// types, converts, commits, types and commits; c2 of v does nothing; c3 of u waits for job 2, then for job 9; c4 of v types,
// converts, types further, and commits.
const CASES: &str = "\
job 1 published;job 2 refused;job 3 published;job 4 published;close|.....
job 2 refused;job 1 refused;job 1 published;job 1 published;job 2 published;job 2 skipped;job 2 refused|!!.!!!.
job 1 published;job 3 skipped;job 3 published;job 3 published;job 5 published;job 0 published|.!.!!!
job 1 published;job 4 published;job 3 published;job 3 refused;job 3 skipped;job 2 refused;close;take c1 3;take c1 2;take c1 4|..!!...!!.
close;job 1 published;close;job 2 refused;job 3 published;close;job 4 published;close;close;job 4 published|!.!..!..!!
dict u 1;job 1 published;dict u 1;dict u 1;dict u 2;dict u 3;dict u 0;dict v 1|!..!.!!!
take c1 1;job 1 published;learn c1;step c1;take c1 2;take c1 1;take c1 1;learn c1;end c1;step c1|!.!!!.!!!.
job 1 published;take c1 1;step c1;take c1 1;step c1;step c1;learn c1;learn c1;take c1 1;step c1;end c1|...!.!.!!.!
job 1 published;job 3 published;take c1 3;step c1;step c1;learn c1;step c1;take c1 1;take c1 3;step c1;step c1;end c1;end c1|.......!....!
job 1 published;take c4 1;step c4;step c4;take c4 1;step c4;learn c4;step c4;take c4 1;step c4;step c4;end c4|....!!.!....
job 1 published;await c3 1;notyet c3;step c3;learn c3;take c3 1;job 3 published;await c3 2;await c3 3;await c3 3|.!!!!!.!.!
job 1 published;job 3 published;await c3 3;job 2 refused;job 4 published;notyet c3;close;await c3 4;notyet c3;notyet c3;end c3;end c3|.....!.!.!.!
job 1 published;job 2 refused;job 3 published;job 4 published;close;notyet c3;await c3 4|.....!.
job 1 published;job 2 refused;job 4 published;job 3 skipped;close|.....
job 1 published;job 3 published;job 2 refused;job 4 published;close|.....
job 1 published;job 3 published;job 4 published;job 2 refused;close|.....
job 1 published;job 4 published;job 2 refused;job 3 skipped;close|.....
job 1 published;job 4 published;job 3 skipped;job 2 refused;close|.....
end c2;job 1 published;step c2;await c2 1;notyet c2;learn c2;take c2 1;end c2;end c2|!.!!!!!.!
job 1 published;take c1 1;step c1;step c1;take c4 1;learn c1;step c4;step c1;step c4;learn c4;take c4 1|...........
";

// The order of a run, users by number.
const ORDER: &str = "\
job 1 published;dict u1 1;take c1 1;step c1;step c1;learn c1;step c1;take c1 1;step c1;step c1;end c1;end c2;\
job 2 refused;dict u1 2;job 3 published;await c3 3;job 4 published;close;notyet c3;end c3;\
take c4 4;step c4;step c4;learn c4;take c4 4;step c4;step c4;end c4;complete";

// The same without clients.
const NOBODY: &str =
    "job 1 published;dict u1 1;job 2 refused;dict u1 2;job 3 published;job 4 published;close;complete";

pub fn names(alloc: Global) -> Result<Names, NoMemory>
    ensures users { IfOk result (λ names. length names.users ≡ 2) }
    ensures clients { IfOk result (λ names. length names.clients ≡ 4) }
{
    let users = vec![in alloc; Text::from_str(alloc, "u")?, Text::from_str(alloc, "v")?]?;
    let clients = vec![in alloc;
        Text::from_str(alloc, "c1")?,
        Text::from_str(alloc, "c2")?,
        Text::from_str(alloc, "c3")?,
        Text::from_str(alloc, "c4")?,
    ]?;
    Ok(Names {
        users: Seq::from_vec(users),
        clients: Seq::from_vec(clients),
    })
}

/// The lines of a schedule, from events with spaces and semicolons.
pub fn lines_of(alloc: Global, events: &str) -> Result<String, NoMemory> {
    let mut text = String::new(alloc);
    for letter in events.chars() {
        match letter {
            ' ' => text.push('\t')?,
            ';' => text.push('\n')?,
            _ => text.push(letter)?,
        }
    }
    Ok(text)
}

fn typed(alloc: Global, keys: &[Key]) -> Result<Vec<Command>, NoMemory> {
    let mut commands = Vec::new(alloc);
    for key in keys {
        commands.push(Command::Key(*key))?;
    }
    Ok(commands)
}

fn client(
    alloc: Global,
    name: &str,
    user: u32,
    commands: Vec<Command>,
) -> Result<ClientPlan, NoMemory> {
    Ok(ClientPlan {
        name: Text::from_str(alloc, name)?,
        user,
        commands,
    })
}

fn bad(alloc: Global) -> Result<BadSet, NoMemory> {
    Ok(BadSet {
        path: Text::from_str(alloc, "bad")?,
        fault: Fault {
            role: Role::Connection,
            nth: 1,
            kind: FaultKind::Size,
        },
    })
}

fn clients(alloc: Global) -> Result<Vec<ClientPlan>, NoMemory> {
    let first = [
        Key::Char('a'),
        Key::Space,
        Key::Enter,
        Key::Char('a'),
        Key::Enter,
    ];
    let last = [Key::Char('a'), Key::Space, Key::Char('b'), Key::Enter];
    Ok(vec![in alloc;
        client(alloc, "c1", 1, typed(alloc, &first)?)?,
        client(alloc, "c2", 2, Vec::new(alloc))?,
        client(
            alloc,
            "c3",
            1,
            vec![in alloc; Command::Await(2), Command::Await(9)]?
        )?,
        client(alloc, "c4", 2, typed(alloc, &last)?)?,
    ]?)
}

fn world(alloc: Global, clients: Vec<ClientPlan>) -> Result<World<ExampleSet>, Fail> {
    let set = Arc::new(alloc, ExampleSet)?;
    let jobs = vec![in alloc;
        Ok(Arc::try_clone(&set)?),
        Err(bad(alloc)?),
        Ok(Arc::try_clone(&set)?),
        Ok(set),
    ]?;
    let words = Arc::new(alloc, import(alloc, "a\tb\tc\n".as_bytes())?)?;
    let users = vec![in alloc;
        UserPlan {
            name: Text::from_str(alloc, "u")?,
            dicts: vec![in alloc; Err(ImportError::Limit(3)), Ok(words)]?,
        },
        UserPlan {
            name: Text::from_str(alloc, "v")?,
            dicts: Vec::new(alloc),
        },
    ]?;
    Ok(World {
        jobs,
        users,
        clients,
        certificates: true,
    })
}

fn core(alloc: Global, clients: Vec<ClientPlan>) -> Result<Core<ExampleSet>, Fail>
    ensures { IfOk result (λ core. core ≡ beginning core.world) }
{
    let world = world(alloc, clients)?;
    if !world.can_run() {
        return Err(NoMemory)?;
    }
    Ok(Core::new(alloc, world)?)
}

/// A point where the event came, a mark where it is not legal.
fn told(core: &mut Core<ExampleSet>, event: &Event) -> Result<char, Fail> {
    match core.step(event) {
        Ok(()) => Ok('.'),
        Err(StepError::Illegal) => Ok('!'),
        Err(StepError::NoMemory) => Err(NoMemory)?,
    }
}

fn all_told(alloc: Global, events: &str) -> Result<String, Fail> {
    let names = names(alloc)?;
    let reading = read(alloc, lines_of(alloc, events)?.as_bytes(), &names)?;
    let mut core = core(alloc, clients(alloc)?)?;
    let mut text = String::new(alloc);
    for (_, event) in reading.events.as_slice() {
        text.push(told(&mut core, event)?)?;
    }
    Ok(text)
}

/// An event, as a case has it.
fn add_event(text: &mut String, event: &Event) -> Result<(), Fail> {
    match event {
        Event::Job { job, outcome } => write!(text, "job {job} {outcome};")?,
        Event::Close => write!(text, "close;")?,
        Event::Dict { user, reload } => write!(text, "dict u{user} {reload};")?,
        Event::Learn { client } => write!(text, "learn c{client};")?,
        Event::Take { client, job } => write!(text, "take c{client} {job};")?,
        Event::Await { client, job } => write!(text, "await c{client} {job};")?,
        Event::NotYet { client } => write!(text, "notyet c{client};")?,
        Event::Step { client } => write!(text, "step c{client};")?,
        Event::End { client } => write!(text, "end c{client};")?,
    }
    Ok(())
}

/// The events of a whole run.
fn order_of(alloc: Global, clients: Vec<ClientPlan>) -> Result<String, Fail> {
    let mut core = core(alloc, clients)?;
    let mut text = String::new(alloc);
    core.run()?;
    core.is_played();
    for event in core.logs().events.as_slice() {
        add_event(&mut text, event)?;
    }
    if core.is_complete() {
        text.push_str("complete")?;
    }
    Ok(text)
}

#[test]
fn a_run_has_its_order(rt: HostRuntime) -> Result<(), Fail> {
    let alloc: Global = rt.alloc();
    assert_eq!(rt; order_of(alloc, clients(alloc)?)?.as_str(), ORDER);
    assert_eq!(rt; order_of(alloc, Vec::new(alloc))?.as_str(), NOBODY);
    Ok(())
}

#[test]
fn certificates_stand_by_client(rt: HostRuntime) -> Result<(), Fail> {
    let alloc: Global = rt.alloc();
    let mut core = core(alloc, clients(alloc)?)?;
    let mut text = String::new(alloc);
    core.run()?;
    if let Some(entries) = &core.logs().certificates {
        for entry in entries.as_slice() {
            write!(
                text,
                "c{} {} {};",
                entry.client, entry.number, entry.version
            )?;
        }
    }
    assert_eq!(rt; text.as_str(), "c1 2 1;c4 2 4;");
    Ok(())
}

/// The events of a client.
fn all_of(alloc: Global, client: u32) -> Result<Vec<Event>, NoMemory> {
    Ok(vec![in alloc;
        Event::Learn { client },
        Event::Take { client, job: 1 },
        Event::Await { client, job: 1 },
        Event::NotYet { client },
        Event::Step { client },
        Event::End { client },
        Event::Dict {
            user: client,
            reload: 1
        },
    ]?)
}

#[test]
fn nobody_is_there_beyond_the_last_number(rt: HostRuntime) -> Result<(), Fail> {
    let alloc: Global = rt.alloc();
    let mut core = core(alloc, clients(alloc)?)?;
    let mut text = String::new(alloc);
    let first = Event::Job {
        job: 1,
        outcome: Outcome::Published,
    };
    text.push(told(&mut core, &first)?)?;
    for client in [0, 5, 4_294_967_295] {
        for event in all_of(alloc, client)? {
            text.push(told(&mut core, &event)?)?;
        }
    }
    assert_eq!(rt; text.as_str(), ".!!!!!!!!!!!!!!!!!!!!!");
    Ok(())
}

#[test]
fn events_come_exactly_where_they_may(rt: HostRuntime) -> Result<(), Fail> {
    let alloc: Global = rt.alloc();
    let mut text = String::new(alloc);
    for line in CASES.lines() {
        let events = line.split("|").next().unwrap_or("");
        let told = all_told(alloc, events)?;
        write!(text, "{events}|{told}\n")?;
    }
    assert_eq!(rt; text.as_str(), CASES);
    Ok(())
}
