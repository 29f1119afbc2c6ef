//! The Sockflint program: its words, real files and standard output, and how it ends. What it answers: `mozc_cli`.
#![tactic(auto)]

use mozc_cli::{Action, action_for, ending_of, local, tell};
use mz_base::Status;
use mz_outside::{FileStore, OutSink};
use std::process::ExitCode;
use std::rt::Env;
use std::{env, io};

fn main(rt: HostRuntime) -> ExitCode {
    let words = words_of(&rt).ok();
    let mut sink = OutSink::new(io::writer(&rt));
    let status = match action_for(words.as_deref()) {
        Action::Tell(text) => tell(text, &mut sink),
        Action::Run(words) => {
            let mut store = FileStore::new(&rt, rt.alloc());
            local(rt.alloc(), words, &mut store, &mut sink)
        }
        Action::Refuse => Status::Usage,
    };
    ended(&rt, &status)
}

/// The words after the program's name.
fn words_of(rt: &(impl Env + AllocGlobal)) -> io::Result<Vec<String>> {
    let mut words = Vec::new(rt.alloc());
    for word in env::args(rt)?.skip(1) {
        words.push(word)?;
    }
    Ok(words)
}

fn ended(rt: &impl Eprint, status: &Status) -> ExitCode {
    let ending = ending_of(status);
    if let Some(text) = ending.text {
        let _ = eprintln!(rt; "{text}");
    }
    ExitCode::from(ending.number)
}
