ghost use Rattle.std.specs.Prelude.{◌≡◌, ◌≤◌, ◌<◌, ◌++◌, [], length, take, drop, OnOk, IfOk};
ghost use Rattle.mz_base.specs.Kana.{AreRules, after_output, finish, kana, longest, turn, waits};

use mz_base::{NoMemory, Romaji, RuleView};
use std::alloc::Global;
use std::marker::Model;

/// What is shown of typed characters so far, and the text that is still to be turned into kana.
#[derive(Drop)]
pub struct Shown {
    output: Vec<char>,
    // A pending text is shorter than the input that it stands for, so each turn writes it over the typed characters:
    // none is moved.
    text: Vec<char>,
    start: usize,
}

impl Model for Shown {
    ghost use Rattle.std.specs.Prelude.{◌≤◌, drop, vec_len};
    ghost use Rattle.mz_base.specs.Kana.{Shown as OutputAndPending};

    ghost Value = { OutputAndPending };

    ghost view = { λ s. record { output = s.output.items; pending = drop s.start s.text.items } };

    ghost invariant = { λ s. s.start ≤ vec_len s.text };
}

impl Shown {
    fn new(alloc: Global, run: &[char]) -> Result<Shown, NoMemory>
        ensures { IfOk result (λ shown. shown ≡ record { output = []; pending = run.now }) }
    {
        Ok(Shown {
            output: Vec::new(alloc),
            text: Vec::from_slice(alloc, run)?,
            start: 0,
        })
    }

    pub fn output(&self) -> &[char]
        ensures { result.now ≡ self.now.output }
    {
        self.output.as_slice()
    }

    pub fn pending(&self) -> &[char]
        ensures { result.now ≡ self.now.pending }
    {
        &self.text[self.start..]
    }

    // Takes the longest rule that fits, or passes one character.
    fn turn<R: Romaji>(&mut self, table: &R) -> Result<(), NoMemory>
        requires { 0 < length self.old.pending }
        ensures turned { OnOk result (self.new ≡ after_output self.old.output (turn (longest (R.rules table.now) self.old.pending) self.old.pending)) }
        ensures shorter { OnOk result (length self.new.pending < length self.old.pending) }
        ensures sound { AreRules (R.rules table.now) }
    {
        match table.longest(self.pending()) {
            Some(rule) => self.replace(rule),
            None => self.pass_one(),
        }
    }

    fn replace(&mut self, rule: RuleView<'_>) -> Result<(), NoMemory>
        requires fits { rule.length ≤ length self.old.pending }
        requires shorter { length rule.pending.now < rule.length }
        ensures replaced { OnOk result (self.new ≡ record { output = self.old.output ++ rule.entry.output.now; pending = rule.entry.pending.now ++ drop rule.entry.length self.old.pending }) }
        ensures shorter { OnOk result (length self.new.pending < length self.old.pending) }
    {
        self.output.extend_from_slice(rule.output)?;
        let end = self.start + rule.length;
        self.start = end - rule.pending.len();
        self.text[self.start..end].copy_from_slice(rule.pending);
        Ok(())
    }

    fn pass_one(&mut self) -> Result<(), NoMemory>
        requires { 0 < length self.old.pending }
        ensures { OnOk result (self.new ≡ record { output = self.old.output ++ take 1 self.old.pending; pending = drop 1 self.old.pending }) }
    {
        self.output.push(self.text[self.start])?;
        self.start += 1;
        Ok(())
    }
}

/// The kana of a run.
pub fn kana<R: Romaji>(alloc: Global, table: &R, run: &[char]) -> Result<Shown, NoMemory>
    ensures { IfOk result (λ shown. shown ≡ kana (R.rules table.now) run.now) }
{
    let mut shown = Shown::new(alloc, run)?;
    while !waits(table, shown.pending()) {
        shown.turn(table)?;
    }
    Ok(shown)
}

fn waits<R: Romaji>(table: &R, text: &[char]) -> bool
    ensures { result ≡ waits (R.rules table.now) text.now }
{
    text.is_empty() || table.is_open(text)
}

/// The kana of a run of which no more comes.
pub fn finish<R: Romaji>(alloc: Global, table: &R, run: &[char]) -> Result<Vec<char>, NoMemory>
    ensures { IfOk result (λ text. text.items ≡ finish (R.rules table.now) run.now) }
{
    let mut shown = Shown::new(alloc, run)?;
    while !shown.pending().is_empty() {
        shown.turn(table)?;
    }
    let Shown { output, .. } = shown;
    Ok(output)
}
