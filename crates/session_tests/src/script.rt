use keys::{Command, Key};
use mz_base::NoMemory;
use scenario::{ScriptError, read_script};
use std::alloc::Global;
use std::test::Fail;

// Lines, with a semicolon between them, and after the bar the commands that they give, or the line at fault.
const SCRIPTS: &str = "\
|
SEND_KEYS\tka|k a
SEND_KEYS\tk a|k Space a
SEND_KEYS\t |Space
SEND_KEYS\tきょ\u{80}\u{A0}😀#|き ょ \u{80} \u{A0} 😀 #
SEND_KEY\ta|a
SEND_KEY\tき|き
SEND_KEY\t😀|😀
SEND_KEY\t\u{80}|\u{80}
SEND_KEY\t |Space
SEND_KEY\tSpace|Space
SEND_KEY\tShift Left;SEND_KEY\tShift Right|ShiftLeft ShiftRight
SEND_KEY\tEnter;SEND_KEY\tEscape;SEND_KEY\tBackspace;SEND_KEY\tDelete|Enter Escape Backspace Delete
SEND_KEY\tLeft;SEND_KEY\tRight;SEND_KEY\tHome;SEND_KEY\tEnd;SEND_KEY\tUp;SEND_KEY\tDown|Left Right Home End Up Down
RESET|reset
SELECT\t1;SELECT\t0000000002;SELECT\t999999999|select:1 select:2 select:999999999
AWAIT\t1;AWAIT\t0000000002;AWAIT\t999999999|await:1 await:2 await:999999999
EXPECT_PREEDIT;EXPECT_PREEDIT\t;EXPECT_PREEDIT\tかk|preedit: preedit: preedit:かk
EXPECT_RESULT;EXPECT_RESULT\t;EXPECT_RESULT\tか か|result: result: result:か か
;# SEND_KEY;#;SEND_KEY\ta;;|a
SEND_KEY\ta\r;\r;SEND_KEY\tb|a b
SEND_KEY\ta;SEND_KEY\tF6|bad 2
SEND_KEY\tF6|bad 1
SEND_KEY\tenter|bad 1
SEND_KEY\tShiftLeft|bad 1
SEND_KEY\tShift  Left|bad 1
SEND_KEY\tab|bad 1
SEND_KEY\t  |bad 1
SEND_KEY\t|bad 1
SEND_KEY|bad 1
SEND_KEY\ta\t|bad 1
SEND_KEY\t\u{1}|bad 1
SEND_KEY\t\u{1F}|bad 1
SEND_KEY\t\u{7F}|bad 1
SEND_KEYS\t|bad 1
SEND_KEYS|bad 1
SEND_KEYS\ta\tb|bad 1
SEND_KEYS\ta\u{1}|bad 1
SEND_KEYS\t\u{1F}a|bad 1
SEND_KEYS\ta\u{7F}a|bad 1
RESET\t|bad 1
RESET\ta|bad 1
SELECT|bad 1
SELECT\t|bad 1
SELECT\t0|bad 1
SELECT\t0000000000|bad 1
SELECT\t1000000000|bad 1
SELECT\t00000000001|bad 1
SELECT\t+1|bad 1
SELECT\t-1|bad 1
SELECT\t1\t|bad 1
SELECT\t1 |bad 1
SELECT\t１|bad 1
AWAIT|bad 1
AWAIT\t0|bad 1
AWAIT\t1000000000|bad 1
AWAIT\t9999999999|bad 1
AWAIT\t00000000001|bad 1
AWAIT\t+1|bad 1
AWAIT\t-1|bad 1
EXPECT_PREEDIT\ta\tb|bad 1
EXPECT_RESULT\ta\t|bad 1
send_keys\ta|bad 1
Reset|bad 1
PRESS\ta|bad 1
SEND_KEY a|bad 1
 RESET|bad 1
 # a comment|bad 1
\t|bad 1
RESET;# a comment;;RESETS;RESET\t|bad 4
";

#[test]
fn each_line_has_its_commands_or_is_bad(rt: HostRuntime) -> Result<(), Fail> {
    let alloc = rt.alloc();
    for case in SCRIPTS.split_terminator('\n') {
        let script = script_of(alloc, case)?;
        let found = told(alloc, script.as_bytes())?;
        assert_eq!(rt;
            found.as_str(),
            case.split('|').nth(1).unwrap_or("?"),
            "of {case:?}"
        );
    }
    Ok(())
}

fn script_of(alloc: Global, case: &str) -> Result<String, NoMemory> {
    let mut script = String::new(alloc);
    for line in case.split('|').next().unwrap_or("").split(';') {
        write!(&mut script, "{line}\n")?;
    }
    Ok(script)
}

/// The commands, with spaces between them, or the line at fault.
fn told(alloc: Global, bytes: &[u8]) -> Result<String, NoMemory> {
    let mut text = String::new(alloc);
    match read_script(alloc, bytes) {
        Ok(commands) => {
            for (index, command) in commands.iter().enumerate() {
                if 0 < index {
                    text.push(' ')?;
                }
                tell(&mut text, command)?;
            }
        }
        Err(ScriptError::Bad(line)) => write!(&mut text, "bad {line}")?,
        Err(ScriptError::TooLarge(limit, line)) => write!(&mut text, "{limit} {line}")?,
        Err(ScriptError::NoMemory) => write!(&mut text, "memory")?,
    }
    Ok(text)
}

fn tell(text: &mut String, command: &Command) -> Result<(), NoMemory> {
    match command {
        Command::Key(Key::Char(c)) => write!(text, "{c}")?,
        Command::Key(key) => write!(text, "{key:?}")?,
        Command::Select(n) => write!(text, "select:{n}")?,
        Command::Reset => write!(text, "reset")?,
        Command::Await(n) => write!(text, "await:{n}")?,
        Command::ExpectPreedit(found) => write!(text, "preedit:{found}")?,
        Command::ExpectResult(found) => write!(text, "result:{found}")?,
    }
    Ok(())
}

#[test]
fn a_line_that_is_no_text_is_bad(rt: HostRuntime) -> Result<(), Fail> {
    let alloc = rt.alloc();
    let scripts: [&[u8]; 4] = [
        b"RESET\n\xFF\n",
        b"RESET\n#\xFF\n",
        b"RESET\nSEND_KEYS\ta\xE3\x81\n",
        b"RESET\nEXPECT_RESULT\t\xC0\x80",
    ];
    for script in scripts {
        assert_eq!(rt; told(alloc, script)?.as_str(), "bad 2");
    }
    Ok(())
}

#[test]
fn a_mark_and_a_missing_line_feed_are_nothing(rt: HostRuntime) -> Result<(), Fail> {
    let alloc = rt.alloc();
    let scripts: [&[u8]; 3] = [
        b"\xEF\xBB\xBFRESET\nSEND_KEY\ta",
        b"RESET\r\nSEND_KEY\ta\r",
        b"RESET\nSEND_KEY\ta\n",
    ];
    for script in scripts {
        assert_eq!(rt; told(alloc, script)?.as_str(), "reset a");
    }
    Ok(())
}

/// A line that sends so many characters of three bytes.
fn sending(script: &mut String, count: usize) -> Result<(), NoMemory> {
    script.push_str("SEND_KEYS\t")?;
    for _ in 0..count {
        script.push('あ')?;
    }
    script.push('\n')?;
    Ok(())
}

/// The number of commands, or the line at fault.
fn counted(alloc: Global, script: &str) -> Result<String, NoMemory> {
    match read_script(alloc, script.as_bytes()) {
        Ok(commands) => Ok(format!(in alloc; "{}", commands.len())?),
        Err(ScriptError::Bad(line)) => Ok(format!(in alloc; "bad {line}")?),
        Err(ScriptError::TooLarge(limit, line)) => Ok(format!(in alloc; "{limit} {line}")?),
        Err(ScriptError::NoMemory) => Ok(String::from_str(alloc, "memory")?),
    }
}

#[test]
fn a_line_sends_at_most_4096_characters(rt: HostRuntime) -> Result<(), Fail> {
    let alloc = rt.alloc();
    let mut script = String::new(alloc);
    sending(&mut script, 4_096)?;
    assert_eq!(rt; counted(alloc, script.as_str())?.as_str(), "4096");
    sending(&mut script, 4_097)?;
    assert_eq!(rt; counted(alloc, script.as_str())?.as_str(), "bad 2");
    Ok(())
}

#[test]
fn a_script_has_at_most_100000_commands(rt: HostRuntime) -> Result<(), Fail> {
    let alloc = rt.alloc();
    let mut script = String::new(alloc);
    for _ in 0..24 {
        sending(&mut script, 4_096)?;
    }
    sending(&mut script, 1_696)?;
    assert_eq!(rt; counted(alloc, script.as_str())?.as_str(), "100000");
    script.push_str("# a comment\n\n")?;
    assert_eq!(rt; counted(alloc, script.as_str())?.as_str(), "100000");
    let further = [
        ("RESET\nRESETS\n", "Commands 28"),
        ("SELECT\t0\n", "bad 28"),
        ("SEND_KEYS\tab\u{7F}\n", "bad 28"),
        ("SEND_KEYS\tab\n", "Commands 28"),
    ];
    for (line, wanted) in further {
        let whole = format!(in alloc; "{script}{line}")?;
        assert_eq!(rt;
            counted(alloc, whole.as_str())?.as_str(),
            wanted,
            "of {line:?}"
        );
    }
    Ok(())
}
