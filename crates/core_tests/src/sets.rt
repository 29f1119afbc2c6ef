ghost use Rattle.std.specs.Prelude.{◌≡◌, IfOk};
ghost use Rattle.core_steps.specs.Cores.{beginning};

use crate::runs::{lines_of, names};
use core_steps::{ClientPlan, Core, UserPlan, World};
use engine::{BuildError, Engine, SetFile, SetFiles, build};
use keys::{Command, Key};
use mz_base::{BadSet, Event, Line, NoMemory, Role, Seq, Text};
use report::{are_named, print};
use schedule::read;
use std::alloc::Global;
use std::str;
use std::sync::Arc;
use std::test::Fail;
use user_dict::{ImportError, UserDict, import};

// Runs of one user in their order, with their reports. First the jobs: t for the set t, b for one whose connections lack a cost, w
// for t with one word more; then the scripts of the clients: a line for Space, a point for Enter, an angle for Shift Left, a mark for
// Escape, a digit for a wait.
const RUNS: &str = "\
t|kyou__.kyou_/kyo
client c1 u
1 done C 1  k 1
2 done C 1  ky 2
3 done C 1  きょ 2 今日 京
4 done C 1  きょう 3 今日 京
5 done V 1  1 1 今日 1 5 今日 京 きょう キョウ ｷｮｳ
6 done V 1  1 1 京 2 5 今日 京 きょう キョウ ｷｮｳ
7 done P 0 京
8 done C 1  k 1
9 done C 1  ky 2
10 done C 1  きょ 2 京 今日
11 done C 1  きょう 3 京 今日
12 done V 1  1 1 京 1 5 京 今日 きょう キョウ ｷｮｳ
client c2 u
1 done C 1  k 1
2 done C 1  ky 2
3 done C 1  きょ 2 京 今日
jobs
job 1 published
journal u
learn c1 1 1 きょう 京
end c1 1
end c2 0
schedule
job 1 published
take c1 1
step c1
step c1
step c1
step c1
step c1
step c1
learn c1
step c1
take c1 1
step c1
step c1
step c1
step c1
step c1
end c1
take c2 1
step c2
step c2
step c2
end c2
close
certificates
cert c1 5 1 きょう
bounds
path 1
potentials 5100 400 450 10500 15900
total 500
cert c1 12 1 きょう
bounds
path 1
potentials 5100 400 450 10500 15900
total 500

tbw|3a9
client c1 u
1 awaited P 0  3
2 done C 3  あ 1
3 notyet C 3  3
jobs
job 1 published
job 2 refused bad.txt count 9 8
job 3 published
journal u
end c1 0
schedule
job 1 published
job 2 refused
job 3 published
await c1 3
take c1 3
step c1
close
notyet c1
end c1
certificates

tw|kyouha_2<.kyou_
client c1 u
1 done C 1  k 1
2 done C 1  ky 2
3 done C 1  きょ 2 今日 京
4 done C 1  きょう 3 今日 京
5 done C 1  きょうh 4 今日 京
6 done C 1  きょうは 4
7 done V 1  1 1 今日は 1 8 今日は 京は 今日葉 京葉 きょうは きょう葉 キョウハ ｷｮｳﾊ
8 awaited V 1  2
9 done V 1  1 2 今日 は 1 5 今日 京 きょう キョウ ｷｮｳ
10 done P 0 今日は
11 done C 2  k 1
12 done C 2  ky 2
13 done C 2  きょ 2 今日 凶 京
14 done C 2  きょう 3 今日 凶 京
15 done V 2  1 1 今日 1 6 今日 凶 京 きょう キョウ ｷｮｳ
jobs
job 1 published
job 2 published
journal u
learn c1 1 2 きょう 今日 は は
end c1 1
schedule
job 1 published
take c1 1
step c1
step c1
step c1
step c1
step c1
step c1
step c1
job 2 published
await c1 2
step c1
learn c1
step c1
take c1 2
step c1
step c1
step c1
step c1
step c1
end c1
close
certificates
cert c1 7 1 きょうは
bounds
path 1 5
potentials 5100 400 450 10500 15900 550 1400 5800
total 750
cert c1 9 1 きょうは
bounds 3
path 1 5
potentials 5100 400 450 10500 15900 550 1400 5800
total 750
cert c1 15 2 きょう
bounds
path 3
potentials 5100 400 450 300 10500 15900
total 400
";

// The user's reloads: r for one that reads, x for one that does not; the scripts of the clients, and events; and then what the
// last line of the last client shows.
const TAKES: &str = "\
|kyou__./kyou_|job 1 published;take c1 1;step c1;step c1;step c1;step c1;step c1;step c1;learn c1;take c2 1;\
step c2;step c2;step c2;step c2;step c2|1 1 京 1 5 京 今日 きょう キョウ ｷｮｳ
|kyou__./kyou_|job 1 published;take c1 1;step c1;step c1;step c1;step c1;step c1;step c1;take c2 1;learn c1;\
step c2;step c2;step c2;step c2;step c2|1 1 今日 1 5 今日 京 きょう キョウ ｷｮｳ
|kyou__.kyou____./kyo|job 1 published;take c1 1;step c1;step c1;step c1;step c1;step c1;step c1;learn c1;step c1;take c2 1;\
take c1 1;step c1;step c1;step c1;step c1;step c1;step c1;step c1;step c1;learn c1;step c1;step c2;step c2;step c2|きょ 2 京 今日
|kyou__.kyou____./kyo|job 1 published;take c1 1;step c1;step c1;step c1;step c1;step c1;step c1;learn c1;step c1;\
take c1 1;step c1;step c1;step c1;step c1;step c1;step c1;step c1;step c1;learn c1;take c2 1;step c2;step c2;step c2|\
きょ 2 キョウ 京 今日
rx|kyou_|job 1 published;take c1 1;step c1;step c1;step c1;step c1;dict u 1;step c1|1 1 今日 1 5 今日 京 きょう キョウ ｷｮｳ
rx|kyou_|job 1 published;dict u 1;take c1 1;step c1;step c1;step c1;step c1;step c1|1 1 強 1 6 強 今日 京 きょう キョウ ｷｮｳ
rx|kyou_|job 1 published;dict u 1;dict u 2;take c1 1;step c1;step c1;step c1;step c1;step c1|1 1 強 1 6 強 今日 京 きょう キョウ ｷｮｳ
rx|kyou_|job 1 published;dict u 2;dict u 1;take c1 1;step c1;step c1;step c1;step c1;step c1|1 1 強 1 6 強 今日 京 きょう キョウ ｷｮｳ
rx|kyou_|job 1 published;dict u 2;take c1 1;step c1;step c1;step c1;step c1;step c1|1 1 今日 1 5 今日 京 きょう キョウ ｷｮｳ
";

// A client of one user learns 500 pairs, another 500, and 1 more. What this one shows from the 1,000th on: the first pair is
// suggested, then it is lost, and the second is still there.
const FULL: &str = "\
一 1 一

凨 1
1 1 凨 1 1 凨

一 1

丁 1 丁
";

const RULES: &str = "a\tあ\nu\tう\nka\tか\nkyo\tきょ\nha\tは\nna\tな\nn\tん\nnn\tん\nkk\tっ\tk\n";

const WORDS: &str = "きょう\t1\t1\t300\t今日\nきょう\t1\t1\t350\t京\nは\t2\t2\t100\tは\nは\t1\t1\t600\t葉\n";

const MORE_WORDS: &str =
    "きょう\t1\t1\t300\t今日\nきょう\t1\t1\t350\t京\nは\t2\t2\t100\tは\nは\t1\t1\t600\t葉\nきょう\t1\t1\t200\t凶\n";

const COSTS: &str = "3\n0\n100\n500\n100\n400\n50\n200\n100\n800\n";

const FEW_COSTS: &str = "3\n0\n100\n500\n100\n400\n50\n200\n100\n";

// ---- Worlds

fn file_of(alloc: Global, role: Role, bytes: &str) -> Result<SetFile, NoMemory> {
    Ok(SetFile {
        role,
        path: Text::from_str(alloc, "bad.txt")?,
        bytes: Seq::from_vec(Vec::from_slice(alloc, bytes.as_bytes())?),
    })
}

#[tactic(auto, using(engine::proofs::FileCounts::files_of_at_most))]
fn built(alloc: Global, files: &[(Role, &str)]) -> Result<Engine, BuildError> {
    let mut list = Vec::new(alloc);
    for (role, bytes) in files {
        list.push(file_of(alloc, *role, bytes)?)?;
    }
    let files = SetFiles {
        files: Seq::from_vec(list),
    };
    if files.files.as_slice().len() > 100 {
        return Err(BuildError::NoMemory);
    }
    build(alloc, &files)
}

fn set_of<'a>(alloc: Global, costs: &'a str, words: &'a str) -> Result<Engine, BuildError> {
    let files = [
        (Role::Connection, costs),
        (Role::Id, "0 BOS/EOS,*,*,*,*,*,*\n1 名詞,一般\n2 助詞,係助詞\n"),
        (Role::Unk, "HIRAGANA\t1\t5000\nOTHER\t1\t6000\n"),
        (Role::Segment, "1\t1\t2\t2\n"),
        (Role::UserPos, "名詞\t名詞,一般\t100\n"),
        (Role::Romaji, RULES),
        (Role::Dictionary, words),
    ];
    built(alloc, &files)
}

fn job_of(alloc: Global, letter: char) -> Result<Result<Arc<Engine>, BadSet>, Fail> {
    let found = match letter {
        'b' => set_of(alloc, FEW_COSTS, WORDS),
        'w' => set_of(alloc, COSTS, MORE_WORDS),
        _ => set_of(alloc, COSTS, WORDS),
    };
    match found {
        Ok(set) => Ok(Ok(Arc::new(alloc, set)?)),
        Err(BuildError::NoMemory) => Err(NoMemory)?,
        Err(BuildError::Fault(fault)) => Ok(Err(BadSet {
            path: Text::from_str(alloc, "bad.txt")?,
            fault,
        })),
    }
}

fn reload_of(alloc: Global, letter: char) -> Result<Result<Arc<UserDict>, ImportError>, Fail> {
    let bytes: &[u8] = if letter == 'r' {
        "きょう\t強\t名詞\n".as_bytes()
    } else {
        b"\xFF\n"
    };
    match import(alloc, bytes) {
        Ok(words) => Ok(Ok(Arc::new(alloc, words)?)),
        Err(ImportError::NoMemory) => Err(NoMemory)?,
        Err(refused) => Ok(Err(refused)),
    }
}

fn command_of(letter: char) -> Command {
    match letter {
        '_' => Command::Key(Key::Space),
        '.' => Command::Key(Key::Enter),
        '!' => Command::Key(Key::Escape),
        '<' => Command::Key(Key::ShiftLeft),
        '2' => Command::Await(2),
        '3' => Command::Await(3),
        '9' => Command::Await(9),
        _ => Command::Key(Key::Char(letter)),
    }
}

fn client_of(alloc: Global, number: usize, script: &str) -> Result<ClientPlan, Fail> {
    let mut commands = Vec::new(alloc);
    for letter in script.chars() {
        commands.push(command_of(letter))?;
    }
    Ok(ClientPlan {
        name: Text::from_str(alloc, format!(in alloc; "c{number}")?.as_str())?,
        user: 1,
        commands,
    })
}

fn user_of(alloc: Global, reloads: &str) -> Result<UserPlan, Fail> {
    let mut dicts = Vec::new(alloc);
    for letter in reloads.chars() {
        dicts.push(reload_of(alloc, letter)?)?;
    }
    Ok(UserPlan {
        name: Text::from_str(alloc, "u")?,
        dicts,
    })
}

/// A run before any event.
fn core_of(alloc: Global, jobs: &str, reloads: &str, scripts: &str) -> Result<Core<Engine>, Fail>
    ensures { IfOk result (λ core. core ≡ beginning core.world) }
{
    let mut sets = Vec::new(alloc);
    for letter in jobs.chars() {
        sets.push(job_of(alloc, letter)?)?;
    }
    let mut clients = Vec::new(alloc);
    for script in scripts.split("/") {
        clients.push(client_of(alloc, clients.len() + 1, script)?)?;
    }
    let world = World {
        jobs: sets,
        users: vec![in alloc; user_of(alloc, reloads)?]?,
        clients,
        certificates: true,
    };
    if !world.can_run() {
        return Err(NoMemory)?;
    }
    Ok(Core::new(alloc, world)?)
}

// ---- Whole runs

/// The report, with spaces between its fields.
fn add_report(text: &mut String, alloc: Global, core: &Core<Engine>) -> Result<(), Fail> {
    if !are_named(core.logs()) {
        return Err(NoMemory)?;
    }
    let bytes = print(alloc, core.logs())?;
    let report = str::from_utf8(bytes.as_slice()).unwrap_or("");
    for letter in report.chars() {
        text.push(if letter == '\t' { ' ' } else { letter })?;
    }
    Ok(())
}

fn add_run(text: &mut String, alloc: Global, head: &str) -> Result<(), Fail> {
    let mut fields = head.split("|");
    let jobs = fields.next().unwrap_or("");
    let scripts = fields.next().unwrap_or("");
    let mut core = core_of(alloc, jobs, "", scripts)?;
    core.run()?;
    write!(text, "{head}\n")?;
    add_report(text, alloc, &core)
}

#[test]
fn runs_have_their_reports(rt: HostRuntime) -> Result<(), Fail> {
    let alloc: Global = rt.alloc();
    let mut text = String::new(alloc);
    for case in RUNS.split("\n\n") {
        if !text.as_str().is_empty() {
            text.push('\n')?;
        }
        add_run(&mut text, alloc, case.split("\n").next().unwrap_or(""))?;
    }
    assert_eq!(rt; text.as_str(), RUNS);
    Ok(())
}

// ---- What a take sees

/// What stands behind the result of a line.
fn add_shown(text: &mut String, line: &Line) -> Result<(), Fail> {
    let mut is_first = true;
    for field in line.rest.as_slice() {
        if !is_first {
            text.push(' ')?;
        }
        is_first = false;
        write!(text, "{field}")?;
    }
    text.push('\n')?;
    Ok(())
}

fn play(alloc: Global, core: &mut Core<Engine>, events: &str) -> Result<(), Fail> {
    let names = names(alloc)?;
    let reading = read(alloc, lines_of(alloc, events)?.as_bytes(), &names)?;
    for (_, event) in reading.events.as_slice() {
        core.step(event)?;
    }
    Ok(())
}

/// What the last line of the last client shows.
fn add_last(text: &mut String, core: &Core<Engine>) -> Result<(), Fail> {
    if let Some(client) = core.logs().clients.as_slice().last() {
        if let Some(line) = client.lines.as_slice().last() {
            add_shown(text, line)?;
        }
    }
    Ok(())
}

fn add_take(text: &mut String, alloc: Global, case: &str) -> Result<(), Fail> {
    let mut fields = case.split("|");
    let reloads = fields.next().unwrap_or("");
    let scripts = fields.next().unwrap_or("");
    let events = fields.next().unwrap_or("");
    let mut core = core_of(alloc, "t", reloads, scripts)?;
    play(alloc, &mut core, events)?;
    write!(text, "{reloads}|{scripts}|{events}|")?;
    add_last(text, &core)
}

#[test]
fn a_take_sees_the_journal_so_far(rt: HostRuntime) -> Result<(), Fail> {
    let alloc: Global = rt.alloc();
    let mut text = String::new(alloc);
    for case in TAKES.lines() {
        add_take(&mut text, alloc, case)?;
    }
    assert_eq!(rt; text.as_str(), TAKES);
    Ok(())
}

// ---- A full history

/// Types characters from this number on, each a segment of its own, and commits them.
fn add_commit(script: &mut String, from: u32, many: u32) -> Result<(), Fail> {
    for number in from..from.saturating_add(many) {
        script.push(char::from_u32(number).unwrap_or('?'))?;
    }
    script.push_str("_.")?;
    Ok(())
}

#[test]
fn a_history_keeps_1000_pairs_of_two_clients(rt: HostRuntime) -> Result<(), Fail> {
    let alloc: Global = rt.alloc();
    let mut scripts = String::new(alloc);
    add_commit(&mut scripts, 0x4E00, 250)?;
    add_commit(&mut scripts, 0x4E00 + 250, 250)?;
    scripts.push('/')?;
    add_commit(&mut scripts, 0x4E00 + 500, 250)?;
    add_commit(&mut scripts, 0x4E00 + 750, 250)?;
    scripts.push_str("一!凨_.一!丁")?;
    let mut core = core_of(alloc, "t", "", scripts.as_str())?;
    core.run()?;
    let mut text = String::new(alloc);
    for client in core.logs().clients.as_slice().iter().skip(1) {
        for line in client.lines.as_slice().iter().skip(504) {
            add_shown(&mut text, line)?;
        }
    }
    assert_eq!(rt; text.as_str(), FULL);
    Ok(())
}
