use mz_base::{
    CertEntry, Certificate, ClientLog, DictNote, Event, Fault, FaultKind, JobEntry, Line, Logs,
    Mode, NoMemory, Outcome, Pair, Role, Seq, Text, UserEntry, UserLog, Word,
};
use report::{PrintError, are_named, print};
use std::alloc::Global;
use std::test::Fail;

fn text(alloc: Global, letters: &str) -> Result<Text, NoMemory> {
    Text::from_str(alloc, letters)
}

fn nothing<T>(alloc: Global) -> Seq<T> {
    Seq::from_vec(Vec::new(alloc))
}

fn no_logs(alloc: Global) -> Logs {
    Logs {
        clients: nothing(alloc),
        jobs: nothing(alloc),
        closed: false,
        users: nothing(alloc),
        events: nothing(alloc),
        certificates: None,
    }
}

/// The report, empty where it can't be printed.
fn printed(alloc: Global, logs: &Logs) -> Result<Vec<u8>, NoMemory> {
    if !are_named(logs) {
        return Ok(Vec::new(alloc));
    }
    match print(alloc, logs) {
        Ok(bytes) => Ok(bytes),
        Err(PrintError::TooLarge) => Ok(Vec::new(alloc)),
        Err(PrintError::NoMemory) => Err(NoMemory),
    }
}

#[test]
fn a_run_without_clients_has_its_jobs_and_events(rt: HostRuntime) -> Result<(), Fail> {
    let alloc = rt.alloc();
    let mut logs = no_logs(alloc);
    let none: &[u8] = b"jobs\nschedule\n";
    assert_eq!(rt; printed(alloc, &logs)?.as_slice(), none);
    logs.certificates = Some(nothing(alloc));
    let kept: &[u8] = b"jobs\nschedule\ncertificates\n";
    assert_eq!(rt; printed(alloc, &logs)?.as_slice(), kept);
    Ok(())
}

/// A line with these fields behind its result, with spaces between them.
fn line(
    alloc: Global,
    word: Word,
    mode: Mode,
    committed: &str,
    rest: &str,
) -> Result<Line, NoMemory> {
    let mut fields = Vec::new(alloc);
    for field in rest.split_terminator(' ') {
        fields.push(text(alloc, field)?)?;
    }
    Ok(Line {
        word,
        mode,
        version: if mode == Mode::P { 0 } else { 12 },
        result: text(alloc, committed)?,
        rest: Seq::from_vec(fields),
    })
}

#[test]
fn a_number_past_the_last_names_nobody(rt: HostRuntime) -> Result<(), Fail> {
    let alloc = rt.alloc();
    let mut logs = no_logs(alloc);
    add_user(alloc, &mut logs, "u")?;
    add_client(alloc, &mut logs, "c", 1, Vec::new(alloc))?;
    for (client, named) in [(0, false), (1, true), (2, false)] {
        logs.events = Seq::from_vec(vec![in alloc; Event::Step { client }]?);
        assert_eq!(rt; are_named(&logs), named, "of {client}");
    }
    Ok(())
}

const CLIENTS: &str = "\
client\tdesk\tyou\n\
1\tdone\tC\t12\t\tky\t2\t今日\t京\n\
2\tpass\tV\t12\t\t1\t2\t今日\tは\n\
3\tfull\tC\t12\t\n\
4\tmet\tC\t12\t\n\
5\tdiffers\tP\t0\t\tかっ\n\
6\tawaited\tP\t0\t\t3\n\
7\tnotyet\tP\t0\t\t3\n\
8\tdone\tP\t0\t今日は\n\
client\tphone\t私\n\
jobs\njournal\t私\njournal\tyou\nschedule\n";

#[test]
fn each_word_and_mode_is_written(rt: HostRuntime) -> Result<(), Fail> {
    let alloc = rt.alloc();
    let mut logs = no_logs(alloc);
    add_user(alloc, &mut logs, "私")?;
    add_user(alloc, &mut logs, "you")?;
    let mut lines = Vec::new(alloc);
    lines.push(line(alloc, Word::Done, Mode::C, "", "ky 2 今日 京")?)?;
    lines.push(line(alloc, Word::Pass, Mode::V, "", "1 2 今日 は")?)?;
    lines.push(line(alloc, Word::Full, Mode::C, "", "")?)?;
    lines.push(line(alloc, Word::Met, Mode::C, "", "")?)?;
    lines.push(line(alloc, Word::Differs, Mode::P, "", "かっ")?)?;
    lines.push(line(alloc, Word::Awaited, Mode::P, "", "3")?)?;
    lines.push(line(alloc, Word::NotYet, Mode::P, "", "3")?)?;
    lines.push(line(alloc, Word::Done, Mode::P, "今日は", "")?)?;
    add_client(alloc, &mut logs, "desk", 2, lines)?;
    add_client(alloc, &mut logs, "phone", 1, Vec::new(alloc))?;
    assert_eq!(rt; printed(alloc, &logs)?.as_slice(), CLIENTS.as_bytes());
    Ok(())
}

fn add_user(alloc: Global, logs: &mut Logs, name: &str) -> Result<(), NoMemory> {
    logs.users.push(UserLog {
        name: text(alloc, name)?,
        dicts: nothing(alloc),
        entries: nothing(alloc),
    })
}

fn add_client(
    alloc: Global,
    logs: &mut Logs,
    name: &str,
    user: u32,
    lines: Vec<Line>,
) -> Result<(), NoMemory> {
    logs.clients.push(ClientLog {
        name: text(alloc, name)?,
        user,
        lines: Seq::from_vec(lines),
        own: nothing(alloc),
    })
}

fn fault(alloc: Global, job: u32, kind: FaultKind) -> Result<JobEntry, NoMemory> {
    let role = Role::Unk;
    Ok(JobEntry::Refused {
        job,
        path: text(alloc, "d/unk.tsv")?,
        fault: Fault { role, nth: 1, kind },
    })
}

const JOBS: &str = "\
jobs\n\
job\t1\tpublished\n\
job\t4294967295\tpublished\n\
job\t2\tskipped\t4294967295\n\
job\t3\trefused\td/unk.tsv\tnot-utf8\t1\n\
job\t4\trefused\td/unk.tsv\tfields\t2\n\
job\t5\trefused\td/unk.tsv\tempty\t3\n\
job\t6\trefused\td/unk.tsv\tclass\t4\n\
job\t7\trefused\td/unk.tsv\tnumber\t5\n\
job\t8\trefused\td/unk.tsv\trange\t6\n\
job\t9\trefused\td/unk.tsv\tno-feature\t7\n\
job\t10\trefused\td/unk.tsv\tlong-pending\t8\n\
job\t11\trefused\td/unk.tsv\tlimit\t18446744073709551615\n\
job\t12\trefused\td/unk.tsv\tsize\n\
job\t13\trefused\td/unk.tsv\tcount\t9\t8\n\
schedule\n";

#[test]
fn each_outcome_and_fault_is_written(rt: HostRuntime) -> Result<(), Fail> {
    let alloc = rt.alloc();
    let mut logs = no_logs(alloc);
    let most = 4_294_967_295;
    logs.jobs.push(JobEntry::Published { job: 1 })?;
    logs.jobs.push(JobEntry::Published { job: most })?;
    logs.jobs.push(JobEntry::Skipped { job: 2, by: most })?;
    logs.jobs.push(fault(alloc, 3, FaultKind::NotUtf8(1))?)?;
    logs.jobs.push(fault(alloc, 4, FaultKind::Fields(2))?)?;
    logs.jobs.push(fault(alloc, 5, FaultKind::Empty(3))?)?;
    logs.jobs.push(fault(alloc, 6, FaultKind::Class(4))?)?;
    logs.jobs.push(fault(alloc, 7, FaultKind::Number(5))?)?;
    logs.jobs.push(fault(alloc, 8, FaultKind::Range(6))?)?;
    logs.jobs.push(fault(alloc, 9, FaultKind::NoFeature(7))?)?;
    logs.jobs
        .push(fault(alloc, 10, FaultKind::LongPending(8))?)?;
    logs.jobs.push(fault(alloc, 11, FaultKind::Limit(18_446_744_073_709_551_615))?)?;
    logs.jobs.push(fault(alloc, 12, FaultKind::Size)?)?;
    let count = FaultKind::Count {
        wanted: 9,
        found: 8,
    };
    logs.jobs.push(fault(alloc, 13, count)?)?;
    assert_eq!(rt; printed(alloc, &logs)?.as_slice(), JOBS.as_bytes());
    Ok(())
}

const JOURNALS: &str = "\
client\ta\tyou\n\
client\tb\tyou\n\
jobs\n\
journal\tyou\n\
dict\t1\tread\t2\t1\n\
learn\tb\t1\t2\tきょう\t今日\tは\t葉\n\
dict\t2\trefused\tnot-utf8\t7\n\
learn\ta\t18446744073709551615\t0\n\
dict\t3\trefused\tlimit\t100001\n\
end\tb\t1\n\
end\ta\t0\n\
journal\tnobody\n\
schedule\n";

#[test]
fn each_entry_of_a_journal_is_written(rt: HostRuntime) -> Result<(), Fail> {
    let alloc = rt.alloc();
    let mut logs = no_logs(alloc);
    let read = DictNote::Read {
        kept: 2,
        skipped: 1,
    };
    let notes = vec![in alloc; read, DictNote::NotUtf8(7), DictNote::Limit(100_001)]?;
    logs.users.push(UserLog {
        name: text(alloc, "you")?,
        dicts: Seq::from_vec(notes),
        entries: entries(alloc)?,
    })?;
    add_user(alloc, &mut logs, "nobody")?;
    add_client(alloc, &mut logs, "a", 1, Vec::new(alloc))?;
    add_client(alloc, &mut logs, "b", 1, Vec::new(alloc))?;
    assert_eq!(rt; printed(alloc, &logs)?.as_slice(), JOURNALS.as_bytes());
    Ok(())
}

fn entries(alloc: Global) -> Result<Seq<UserEntry>, NoMemory> {
    let mut pairs = nothing(alloc);
    pairs.push(pair(alloc, "きょう", "今日")?)?;
    pairs.push(pair(alloc, "は", "葉")?)?;
    let mut entries = nothing(alloc);
    entries.push(UserEntry::Dict { reload: 1 })?;
    entries.push(UserEntry::Learn {
        client: 2,
        seq: 1,
        pairs,
    })?;
    entries.push(UserEntry::Dict { reload: 2 })?;
    let seq = 18_446_744_073_709_551_615;
    entries.push(UserEntry::Learn {
        client: 1,
        seq,
        pairs: nothing(alloc),
    })?;
    entries.push(UserEntry::Dict { reload: 3 })?;
    entries.push(UserEntry::End {
        client: 2,
        count: 1,
    })?;
    entries.push(UserEntry::End {
        client: 1,
        count: 0,
    })?;
    Ok(entries)
}

fn pair(alloc: Global, key: &str, value: &str) -> Result<Pair, NoMemory> {
    Ok(Pair {
        key: text(alloc, key)?,
        value: text(alloc, value)?,
    })
}

const EVENTS: &str = "\
client\ta\tu\n\
client\tb\tv\n\
jobs\n\
journal\tu\n\
journal\tv\n\
schedule\n\
job\t1\tpublished\n\
job\t3\trefused\n\
job\t2\tskipped\n\
dict\tv\t7\n\
learn\tb\n\
take\tb\t1\n\
await\ta\t3\n\
notyet\ta\n\
step\tb\n\
end\ta\n\
close\n";

#[test]
fn each_event_is_written(rt: HostRuntime) -> Result<(), Fail> {
    let alloc = rt.alloc();
    let mut logs = no_logs(alloc);
    add_user(alloc, &mut logs, "u")?;
    add_user(alloc, &mut logs, "v")?;
    add_client(alloc, &mut logs, "a", 1, Vec::new(alloc))?;
    add_client(alloc, &mut logs, "b", 2, Vec::new(alloc))?;
    let events = vec![in alloc;
        Event::Job {
            job: 1,
            outcome: Outcome::Published
        },
        Event::Job {
            job: 3,
            outcome: Outcome::Refused
        },
        Event::Job {
            job: 2,
            outcome: Outcome::Skipped
        },
        Event::Dict { user: 2, reload: 7 },
        Event::Learn { client: 2 },
        Event::Take { client: 2, job: 1 },
        Event::Await { client: 1, job: 3 },
        Event::NotYet { client: 1 },
        Event::Step { client: 2 },
        Event::End { client: 1 },
        Event::Close,
    ]?;
    logs.events = Seq::from_vec(events);
    assert_eq!(rt; printed(alloc, &logs)?.as_slice(), EVENTS.as_bytes());
    Ok(())
}

const CERTIFICATES: &str = "\
client\tc1\tu\n\
jobs\n\
journal\tu\n\
schedule\n\
certificates\n\
cert\tc1\t7\t1\tきょうは\n\
bounds\n\
path\t1\t5\n\
potentials\t5100\t-400\n\
total\t750\n\
cert\tc1\t9\t2\tは\n\
bounds\t1\n\
path\n\
potentials\n\
total\t-1\n";

#[test]
fn certificates_are_written_where_they_are_kept(rt: HostRuntime) -> Result<(), Fail> {
    let alloc = rt.alloc();
    let mut logs = no_logs(alloc);
    add_user(alloc, &mut logs, "u")?;
    add_client(alloc, &mut logs, "c1", 1, Vec::new(alloc))?;
    let first = Certificate {
        bounds: nothing(alloc),
        path: Seq::from_vec(vec![in alloc; 1, 5]?),
        potentials: Seq::from_vec(vec![in alloc; 5100, -400]?),
        total: 750,
    };
    let second = Certificate {
        bounds: Seq::from_vec(vec![in alloc; 1]?),
        path: nothing(alloc),
        potentials: nothing(alloc),
        total: -1,
    };
    let mut kept = nothing(alloc);
    kept.push(certified(alloc, 7, 1, "きょうは", first)?)?;
    kept.push(certified(alloc, 9, 2, "は", second)?)?;
    logs.certificates = Some(kept);
    assert_eq!(rt; printed(alloc, &logs)?.as_slice(), CERTIFICATES.as_bytes());
    Ok(())
}

fn certified(
    alloc: Global,
    number: u32,
    version: u32,
    key: &str,
    cert: Certificate,
) -> Result<CertEntry, NoMemory> {
    Ok(CertEntry {
        client: 1,
        number,
        version,
        key: text(alloc, key)?,
        cert,
    })
}
