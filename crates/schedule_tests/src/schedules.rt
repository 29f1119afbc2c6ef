ghost use Rattle.std.specs.Prelude.{◌≡◌, IfOk, length};

use mz_base::{Event, Names, NoMemory, Outcome, Seq, Text};
use schedule::{print, read};
use std::alloc::Global;
use std::test::Fail;

// Lines, with a semicolon between them, and after the bar how many events they give, each with its line, how many lines there
// are, and the line that does not read. The users are u and v, the clients c1, c2 and v.
const FILES: &str = "\
|0 of 0:
job\t1\tpublished;job\t02\trefused;job\t0\tskipped;close|4 of 4: 1 2 3 4
dict\tu\t1;dict\tv\t4294967295;learn\tv;notyet\tc2;step\tc1;end\tc2|6 of 6: 1 2 3 4 5 6
take\tc1\t1;await\tc2\t0000000001;;take\tv\t2;|3 of 4: 1 2 4
close;close|2 of 2: 1 2
client\tc1\tu;schedule;step\tc1;;step\tc2;certificates;step\tc1;cert|2 of 8: 3 5
step\tc1;schedule;step\tc2|1 of 3: 3
schedule;step\tc1;schedule;step\tc2|1 of 4: 2 bad 3
certificates;step\tc1|0 of 2:
certificates;schedule;step\tc1;certificates|1 of 4: 3
schedule;;|0 of 2:
step\tc1\r;\r;step\tc2\r|2 of 3: 1 3
step\tc1;walk\tc1;step\tc1|1 of 3: 1 bad 2
step|0 of 1: bad 1
close\t|0 of 1: bad 1
step\tc1\t|0 of 1: bad 1
take\tc1|0 of 1: bad 1
take\tc1\t1\t|0 of 1: bad 1
dict\tu\t1\t2|0 of 1: bad 1
step\tc3|0 of 1: bad 1
step\tu|0 of 1: bad 1
step\t|0 of 1: bad 1
step c1|0 of 1: bad 1
dict\tc1\t1|0 of 1: bad 1
take\tc1\t4294967296|0 of 1: bad 1
take\tc1\t00000000001|0 of 1: bad 1
take\tc1\t+1|0 of 1: bad 1
take\tc1\t|0 of 1: bad 1
job\t1\tdone|0 of 1: bad 1
job\tu\tpublished|0 of 1: bad 1
# a comment|0 of 1: bad 1
 schedule;step\tc1|0 of 2: bad 1
";

#[test]
fn each_file_has_its_events_up_to_a_line_that_does_not_read(rt: HostRuntime) -> Result<(), Fail> {
    let alloc = rt.alloc();
    for case in FILES.split_terminator('\n') {
        let file = file_of(alloc, case)?;
        let found = told(alloc, file.as_bytes())?;
        assert_eq!(rt;
            found.as_str(),
            case.split('|').nth(1).unwrap_or("?"),
            "of {case:?}"
        );
    }
    Ok(())
}

fn file_of(alloc: Global, case: &str) -> Result<String, NoMemory> {
    let mut file = String::new(alloc);
    for (index, line) in case.split('|').next().unwrap_or("").split(';').enumerate() {
        if 0 < index {
            file.push('\n')?;
        }
        file.push_str(line)?;
    }
    Ok(file)
}

#[test]
fn lines_outside_the_schedule_need_not_be_text(rt: HostRuntime) -> Result<(), Fail> {
    let alloc = rt.alloc();
    let files: [(&[u8], &str); 3] = [
        (
            b"\xFF\nschedule\nstep\tc1\ncertificates\n\xFF\n",
            "1 of 5: 3",
        ),
        (b"step\tc1\n\xFF\nstep\tc1\n", "1 of 3: 1 bad 2"),
        (b"\xEF\xBB\xBFschedule\nstep\tc1", "1 of 2: 2"),
    ];
    for (file, wanted) in files {
        assert_eq!(rt; told(alloc, file)?.as_str(), wanted);
    }
    Ok(())
}

#[test]
fn each_event_has_its_line(rt: HostRuntime) -> Result<(), Fail> {
    let alloc = rt.alloc();
    let names = some_names(alloc)?;
    let events = [
        Event::Job {
            job: 1,
            outcome: Outcome::Published,
        },
        Event::Job {
            job: 4_294_967_295,
            outcome: Outcome::Refused,
        },
        Event::Dict { user: 2, reload: 3 },
        Event::Learn { client: 1 },
        Event::Take { client: 2, job: 1 },
        Event::Await { client: 3, job: 1 },
        Event::NotYet { client: 1 },
        Event::Step { client: 2 },
        Event::End { client: 3 },
        Event::Close,
    ];
    let wanted: &[u8] =
        b"job\t1\tpublished\njob\t4294967295\trefused\ndict\tv\t3\nlearn\tc1\ntake\tc2\t1\nawait\tv\t1\nnotyet\tc1\nstep\tc2\nend\tv\nclose\n";
    assert_eq!(rt; print(alloc, &events, &names)?.as_slice(), wanted);
    Ok(())
}

fn some_names(alloc: Global) -> Result<Names, NoMemory>
    ensures users { IfOk result (λ names. length names.users ≡ 2) }
    ensures clients { IfOk result (λ names. length names.clients ≡ 3) }
{
    let users = vec![in alloc; Text::from_str(alloc, "u")?, Text::from_str(alloc, "v")?]?;
    let clients = vec![in alloc;
        Text::from_str(alloc, "c1")?,
        Text::from_str(alloc, "c2")?,
        Text::from_str(alloc, "v")?,
    ]?;
    Ok(Names {
        users: Seq::from_vec(users),
        clients: Seq::from_vec(clients),
    })
}

/// How many events there are and how many lines, the lines of the events, and the line that does not read.
fn told(alloc: Global, bytes: &[u8]) -> Result<String, NoMemory> {
    let names = some_names(alloc)?;
    let reading = read(alloc, bytes, &names)?;
    let events = reading.events.as_slice();
    let mut text = String::new(alloc);
    let count = events.len();
    let lines = reading.lines;
    write!(&mut text, "{count} of {lines}:")?;
    for (line, _) in events {
        write!(&mut text, " {line}")?;
    }
    if let Some(line) = reading.bad {
        write!(&mut text, " bad {line}")?;
    }
    Ok(text)
}
