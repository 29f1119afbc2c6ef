ghost use Rattle.std.specs.Prelude.{◌≡◌, ◌<◌, ◌+◌, ◌-◌, ◌^◌, ◌∷◌, [], true, IfOk, Some, drop, length};
ghost use Rattle.std.specs.Fmt.{decimal};
ghost use Rattle.std.specs.Option.{option_map};
ghost use Rattle.session_meaning.specs.Lines.{line_with};
ghost use Rattle.session_meaning.specs.Steps.{step};
ghost use Rattle.run_meaning.specs.Deeds.{awaited_by, awaited_line, lacks_learn, lacks_take, need_of, not_yet_line, pairs_of};
ghost use Rattle.run_meaning.specs.Plays.{has_ended};
ghost use Rattle.run_meaning.specs.States.{begun_with};
ghost use Rattle.session_meaning.specs.Laws.{is_learned, is_taken};
ghost use Rattle.core_steps.specs.Helds.{may_await, may_end, may_find_none, may_step, may_take, next_in, over_with, stepped_by};

use crate::plans::ClientPlan;
use keys::Command;
use mz_base::{DataSet, Line, NoMemory, Pair, Seq, Text, Word};
use session::{Need, Pinned, Session};
use std::alloc::Global;
use std::marker::Model;
use user_dict::UserDict;

/// A client: its plan, and how far it is.
#[derive(Drop)]
pub struct Progress<D: DataSet> {
    plan: ClientPlan,
    session: Session<D, UserDict>,
    /// The place of the next command.
    next: usize,
    /// Whether what the next command commits was learned.
    learned: bool,
    /// The data that were taken for the next command.
    taken: Option<Pinned<D, UserDict>>,
    /// The highest job that the client has seen.
    seen: u32,
    learns: u64,
    ended: bool,
}

impl<D: DataSet> Model for Progress<D> {
    ghost use Rattle.std.specs.Prelude.{drop};
    ghost use Rattle.core_steps.specs.Helds.{Held};

    ghost Value = { Held };

    ghost view = { λ p. record { plan = p.plan; progress = record { session = p.session; rest = drop p.next p.plan.commands; learned = p.learned; taken = p.taken; seen = p.seen; learns = p.learns; ended = p.ended } } };
}

impl<D: DataSet + Drop> Progress<D> {
    /// A client that has not begun.
    pub fn new(alloc: Global, plan: ClientPlan) -> Progress<D>
        ensures { result ≡ record { plan = plan; progress = begun_with plan.commands } }
    {
        Progress {
            plan,
            session: Session::new(alloc),
            next: 0,
            learned: false,
            taken: None,
            seen: 0,
            learns: 0,
            ended: false,
        }
    }

    /// The number of the client's user.
    pub fn user(&self) -> u32
        ensures { result ≡ self.now.plan.user }
    {
        self.plan.user
    }

    pub fn seen(&self) -> u32
        ensures { result ≡ self.now.progress.seen }
    {
        self.seen
    }

    pub fn learns(&self) -> u64
        ensures { result ≡ self.now.progress.learns }
    {
        self.learns
    }

    pub fn session(&self) -> &Session<D, UserDict>
        ensures { result.now ≡ self.now.progress.session }
    {
        &self.session
    }

    /// The next command, if there is one.
    pub fn next(&self) -> Option<&Command>
        ensures { option_map (λ command. command.now) result ≡ next_in self.now.progress.rest }
    {
        self.plan.commands.as_slice().get(self.next)
    }

    /// How many commands the client has in all.
    pub fn commands(&self) -> usize
        ensures { result ≡ length self.now.plan.commands }
    {
        self.plan.commands.len()
    }

    /// The command of this index among all of the client.
    fn command_at(&self, index: usize) -> Option<&Command>
        ensures { option_map (λ command. command.now) result ≡ next_in (drop index self.now.plan.commands) }
    {
        self.plan.commands.as_slice().get(index)
    }

    /// The job that the command of this index waits for, where it is a wait.
    pub fn wait_at(&self, index: usize) -> Option<u32>
        ensures { result ≡ awaited_by (drop index self.now.plan.commands) }
    {
        match self.command_at(index) {
            Some(Command::Await(job)) => Some(*job),
            _ => None,
        }
    }

    /// What the command of this index needs now.
    pub fn need_at(&self, index: usize) -> Need
        ensures { result ≡ need_of self.now.progress.session (drop index self.now.plan.commands) }
    {
        match self.command_at(index) {
            Some(command) => self.session.needs(command),
            None => Need::Nothing,
        }
    }

    /// What the next command needs.
    pub fn need(&self) -> Need
        ensures { result ≡ need_of self.now.progress.session self.now.progress.rest }
    {
        match self.next() {
            Some(command) => self.session.needs(command),
            None => Need::Nothing,
        }
    }

    /// Whether the next command needs a learn that has not come.
    pub fn lacks_learn(&self) -> bool
        ensures { result ≡ lacks_learn self.now.progress }
    {
        is_learned(self.need()) && !self.learned
    }

    /// Whether the next command needs a take that has not come.
    pub fn lacks_take(&self) -> bool
        ensures { result ≡ lacks_take self.now.progress }
    {
        is_taken(self.need()) && self.taken.is_none()
    }

    /// The job that the next command waits for, where it is a wait.
    pub fn awaited(&self) -> Option<u32>
        ensures { result ≡ awaited_by self.now.progress.rest }
    {
        match self.next() {
            Some(Command::Await(job)) => Some(*job),
            _ => None,
        }
    }

    /// Whether the data of a job, which stands published, may be taken.
    pub fn may_take(&self, job: u32) -> bool
        ensures { result ≡ may_take self.now.progress job }
    {
        self.lacks_take() && !self.lacks_learn() && self.seen <= job
    }

    /// Whether the next command waits, and a job, which stands published, ends it.
    pub fn may_await(&self, job: u32) -> bool
        ensures { result ≡ may_await self.now.progress job }
    {
        match self.awaited() {
            Some(wanted) => wanted <= job && self.seen <= job,
            None => false,
        }
    }

    /// Whether the next command waits for a job above the newest.
    pub fn may_find_none(&self, newest: u32) -> bool
        ensures { result ≡ may_find_none self.now.progress newest }
    {
        match self.awaited() {
            Some(wanted) => newest < wanted,
            None => false,
        }
    }

    /// Whether no command is left, and the client has ended.
    pub fn has_ended(&self) -> bool
        ensures { result ≡ has_ended self.now.progress }
    {
        self.next().is_none() && self.ended
    }

    /// The line of a wait that ends with a job.
    pub fn awaited_line(&self, alloc: Global, job: u32) -> Result<Line, NoMemory>
        ensures { IfOk result (λ line. line ≡ awaited_line self.now.progress.session job) }
    {
        self.wait_line(alloc, Word::Awaited, job)
    }

    /// The line of a wait that finds no job.
    pub fn not_yet_line(&self, alloc: Global, newest: u32) -> Result<Line, NoMemory>
        ensures { IfOk result (λ line. line ≡ not_yet_line self.now.progress.session newest) }
    {
        self.wait_line(alloc, Word::NotYet, newest)
    }

    fn wait_line(&self, alloc: Global, word: Word, job: u32) -> Result<Line, NoMemory>
        ensures { IfOk result (λ line. line ≡ line_with word self.now.progress.session.stage (decimal job ∷ [])) }
    {
        let mut rest = Vec::new(alloc);
        rest.push(decimal_text(alloc, job)?)?;
        Ok(Line {
            word,
            mode: self.session.mode(),
            version: self.session.version(),
            result: Text::from_vec(Vec::new(alloc)),
            rest: Seq::from_vec(rest),
        })
    }

    /// Whether no command is left, and the client has not ended.
    pub fn may_end(&self) -> bool
        ensures { result ≡ may_end self.now.progress }
    {
        self.next().is_none() && !self.ended
    }

    /// Whether there is a next command, which is no wait, and what it needs has come.
    pub fn may_step(&self) -> bool
        ensures { result ≡ may_step self.now.progress }
    {
        self.next().is_some()
            && self.awaited().is_none()
            && !self.lacks_learn()
            && !self.lacks_take()
    }

    /// The pairs that the next command commits.
    pub fn pairs(&self, alloc: Global) -> Result<Vec<Pair>, NoMemory>
        ensures { IfOk result (λ pairs. pairs.items ≡ pairs_of self.now.progress.session self.now.progress.rest) }
    {
        match self.next() {
            Some(command) => self.session.learned(command),
            None => Ok(Vec::new(alloc)),
        }
    }

    /// What the next command commits was learned.
    pub fn learned(&mut self)
        requires { self.old.progress.learns < 2 ^ 64 - 1 }
        ensures { self.new ≡ record self.old { progress = record self.old.progress { learned = true; learns = self.old.progress.learns + 1 } } }
    {
        self.learned = true;
        self.learns += 1;
    }

    /// These data were taken for the next command.
    pub fn took(&mut self, taken: Pinned<D, UserDict>)
        ensures { self.new ≡ record self.old { progress = record self.old.progress { taken = Some taken; seen = taken.version } } }
    {
        self.seen = taken.version;
        self.taken = Some(taken);
    }

    /// The client has seen a job.
    pub fn saw(&mut self, job: u32)
        ensures { self.new ≡ record self.old { progress = record self.old.progress { seen = job } } }
    {
        self.seen = job;
    }

    /// The next command, a wait, is over, and the client has seen a job.
    pub fn awaited_job(&mut self, job: u32)
        ensures { self.new ≡ record self.old { progress = record (over_with self.old.progress self.old.progress.session) { seen = job } } }
    {
        self.pass();
        self.saw(job);
    }

    pub fn ended(&mut self)
        ensures { self.new ≡ record self.old { progress = record self.old.progress { ended = true } } }
    {
        self.ended = true;
    }

    /// What the next command makes of the session, and its line.
    pub fn stepped(&self) -> Result<Option<Stepped<D>>, NoMemory>
        ensures { IfOk result (λ made. option_map (λ made. record { session = made.session; line = made.line }) made ≡ stepped_by self.now.progress) }
    {
        match self.next() {
            Some(command) => Ok(Some(self.stepped_by(command)?)),
            None => Ok(None),
        }
    }

    fn stepped_by(&self, command: &Command) -> Result<Stepped<D>, NoMemory>
        ensures { IfOk result (λ made. record { session = made.session; line = made.line } ≡ step self.now.progress.session command.now self.now.progress.taken) }
    {
        let mut session = self.session.copy()?;
        let taken = self.shared_taken()?;
        let line = session.step(command, taken)?;
        Ok(Stepped { session, line })
    }

    fn shared_taken(&self) -> Result<Option<Pinned<D, UserDict>>, NoMemory>
        ensures { IfOk result (λ taken. taken ≡ self.now.progress.taken) }
    {
        match &self.taken {
            Some(taken) => Ok(Some(taken.share()?)),
            None => Ok(None),
        }
    }

    /// The next command is over, and this is the session.
    pub fn over(&mut self, session: Session<D, UserDict>)
        ensures { self.new ≡ record self.old { progress = over_with self.old.progress session } }
    {
        self.session = session;
        self.pass();
    }

    /// The next command is over, and the session stays.
    pub fn pass(&mut self)
        ensures { self.new ≡ record self.old { progress = over_with self.old.progress self.old.progress.session } }
    {
        self.learned = false;
        self.taken = None;
        if self.next < self.plan.commands.len() {
            self.next += 1;
        }
    }
}

/// What a command made.
#[derive(Drop)]
pub struct Stepped<D: DataSet> {
    pub session: Session<D, UserDict>,
    pub line: Line,
}

fn decimal_text(alloc: Global, number: u32) -> Result<Text, NoMemory>
    ensures { IfOk result (λ text. text ≡ decimal number) }
{
    let digits = number.to_string(alloc)?;
    Text::from_str(alloc, digits.as_str())
}

fn is_learned(need: Need) -> bool
    ensures { result ≡ is_learned need }
{
    match need {
        Need::Learn | Need::LearnThenTake => true,
        Need::Nothing | Need::Take => false,
    }
}

fn is_taken(need: Need) -> bool
    ensures { result ≡ is_taken need }
{
    match need {
        Need::Take | Need::LearnThenTake => true,
        Need::Nothing | Need::Learn => false,
    }
}
