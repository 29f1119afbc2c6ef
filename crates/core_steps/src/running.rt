ghost use Rattle.std.specs.Prelude.{◌≡◌, ◌<◌, ◌+◌, ◌-◌, ◌^◌, ◌&&◌, true, false, Some, IfNone, IfSome, OnErr, OnOk, length, slice_index_or};
ghost use Rattle.std.specs.List.{list_all};
ghost use Rattle.run_meaning.specs.Jobs.{is_logged, is_published, newest};
ghost use Rattle.run_meaning.specs.Numbers.{is_number, numbers};
ghost use Rattle.run_meaning.specs.Plays.{are_entered, has_ended, is_complete, play};
ghost use Rattle.run_meaning.specs.States.{is_open};
ghost use Rattle.run_meaning.specs.Worlds.{no_client, user_of};
ghost use Rattle.core_steps.specs.Cores.{IsStepped};
ghost use Rattle.core_steps.specs.Helds.{over_with};
ghost use Rattle.core_steps.specs.Standings.{has_all};
ghost use Rattle.core_steps.specs.Kepts.{IsKept, StandsAt, logs_after, progress_at, ran, with_progress};

use crate::addition::{Beside, add};
use crate::board::Board;
use crate::error::StepError;
use crate::progress::Progress;
use crate::standing::Standing;
use mz_base::{BadSet, DataSet, Event, Line, Logs, NoMemory, Own};
use session::{Pinned, Session};
use std::alloc::Global;
use std::marker::Model;
use std::sync::Arc;
use user_dict::UserDict;

/// A run of several clients, as far as it is.
#[derive(Drop)]
pub struct Running<D: DataSet> {
    pub alloc: Global,
    pub jobs: Vec<Result<Arc<D>, BadSet>>,
    pub board: Board,
    pub users: Vec<Standing>,
    pub clients: Vec<Progress<D>>,
    pub logs: Logs,
}

impl<D: DataSet> Model for Running<D> {
    ghost use Rattle.std.specs.Prelude.{map};
    ghost use Rattle.std.specs.Arc.{arc_value};
    ghost use Rattle.core_steps.specs.JobFiles.{lists_read};
    ghost use Rattle.core_steps.specs.Kepts.{Kept, kept_of};

    ghost Value = { Kept };

    ghost view = { λ r. kept_of (map (lists_read (λ set. D.lists (arc_value set))) r.jobs.items) r.board r.users.items r.clients.items r.logs };
}

impl<D: DataSet + Drop> Running<D> {
    /// One event. Where it is refused, all is as before.
    pub fn step(&mut self, event: &Event) -> Result<(), StepError>
        requires { IsKept self.old }
        ensures kept { IsKept self.new }
        ensures stepped { IsStepped (ran self.old) event.now result (ran self.new) }
    {
        match event {
            Event::Job { job, outcome } => self.job(*job, *outcome),
            Event::Close => self.close(),
            Event::Dict { user, reload } => self.reload(*user, *reload),
            Event::Learn { client } => self.learn(*client),
            Event::Take { client, job } => self.take(*client, *job),
            Event::Step { client } => self.carry_out(*client),
            Event::Await { client, job } => self.awaits(*client, *job),
            Event::NotYet { client } => self.not_yet(*client),
            Event::End { client } => self.end(*client),
        }
    }

    // ---- What stands

    /// The place of a client that is there, where job 1 stands published.
    pub fn place_of(&self, client: u32) -> Option<usize>
        requires { IsKept self.now }
        ensures there { IfSome result (StandsAt self.now client) }
        ensures nowhere { IfNone result ((is_open self.now.state && is_number self.now.state.clients client) ≡ false) }
    {
        if !self.is_published(1) {
            return None;
        }
        let place = (client as usize).checked_sub(1)?;
        if place < self.clients.len() {
            Some(place)
        } else {
            None
        }
    }

    pub fn is_published(&self, job: u32) -> bool
        requires { IsKept self.now }
        ensures { result ≡ is_published self.now.state.logs.jobs job }
    {
        self.board.is_published(job)
    }

    pub fn is_logged(&self, job: u32) -> bool
        requires { IsKept self.now }
        ensures { result ≡ is_logged self.now.state.logs.jobs job }
    {
        self.board.is_logged(job)
    }

    pub fn newest(&self) -> u32
        requires { IsKept self.now }
        ensures { result ≡ newest self.now.state.logs.jobs }
    {
        self.board.newest()
    }

    pub fn is_closed(&self) -> bool
        ensures { result ≡ self.now.state.logs.closed }
    {
        self.logs.closed
    }

    pub fn client(&self, place: usize) -> &Progress<D>
        requires { place < length self.now.state.clients }
        ensures progress { result.now.progress ≡ progress_at self.now place }
        ensures plan { result.now.plan ≡ slice_index_or self.now.world.clients place no_client }
    {
        &self.clients[place]
    }

    /// What stands is what the events that are noted lead to. Nothing runs.
    pub fn is_played(&self)
        requires { IsKept self.now }
        ensures { play self.now.world self.now.state.logs.events ≡ Some self.now.state }
    {}

    /// Whether each job, reload and command came, the log is closed, and each client ended.
    pub fn is_complete(&self) -> bool
        requires { IsKept self.now }
        ensures { result ≡ is_complete self.now.world self.now.state }
    {
        self.board.is_full() && self.are_all_entered() && self.logs.closed && self.have_all_ended()
    }

    fn are_all_entered(&self) -> bool
        requires { IsKept self.now }
        ensures { result ≡ list_all (are_entered self.now.world self.now.state) (numbers (length self.now.world.users)) }
    {
        have_all(self.users.as_slice())
    }

    fn have_all_ended(&self) -> bool
        ensures { result ≡ list_all has_ended self.now.state.clients }
    {
        all_ended(self.clients.as_slice())
    }

    // ---- What a deed changes

    /// A deed of the client at a place comes into the logs.
    pub fn note(
        &mut self,
        place: usize,
        own: Own,
        line: Option<Line>,
        beside: Beside,
    ) -> Result<(), NoMemory>
        requires kept { IsKept self.old }
        requires within { place < length self.old.state.clients }
        ensures ok { OnOk result (self.new ≡ logs_after self.old place (user_of self.old.world (place + 1) - 1) own line beside) }
        ensures err { OnErr result (self.new ≡ self.old) }
    {
        let user = self.user_place(place);
        add(&mut self.logs, place, user, own, line, beside)
    }

    /// The place of the user of the client at a place.
    pub fn user_place(&self, place: usize) -> usize
        requires kept { IsKept self.now }
        requires within { place < length self.now.state.clients }
        ensures is { result + 1 ≡ user_of self.now.world (place + 1) }
        ensures within { result < length self.now.users }
    {
        (self.client(place).user() as usize) - 1
    }

    pub fn learned(&mut self, place: usize)
        requires within { place < length self.old.state.clients }
        requires few { (progress_at self.old place).learns < 2 ^ 64 - 1 }
        ensures { self.new ≡ with_progress self.old place (record (progress_at self.old place) { learned = true; learns = (progress_at self.old place).learns + 1 }) }
    {
        self.clients[place].learned();
    }

    pub fn took(&mut self, place: usize, taken: Pinned<D, UserDict>)
        requires { place < length self.old.state.clients }
        ensures { self.new ≡ with_progress self.old place (record (progress_at self.old place) { taken = Some taken; seen = taken.version }) }
    {
        self.clients[place].took(taken);
    }

    pub fn over(&mut self, place: usize, session: Session<D, UserDict>)
        requires { place < length self.old.state.clients }
        ensures { self.new ≡ with_progress self.old place (over_with (progress_at self.old place) session) }
    {
        self.clients[place].over(session);
    }

    pub fn pass(&mut self, place: usize)
        requires { place < length self.old.state.clients }
        ensures { self.new ≡ with_progress self.old place (over_with (progress_at self.old place) (progress_at self.old place).session) }
    {
        self.clients[place].pass();
    }

    /// The next command is over, and the client has seen a job.
    pub fn awaited(&mut self, place: usize, job: u32)
        requires { place < length self.old.state.clients }
        ensures { self.new ≡ with_progress self.old place (record (over_with (progress_at self.old place) (progress_at self.old place).session) { seen = job }) }
    {
        self.clients[place].awaited_job(job);
    }

    pub fn ended(&mut self, place: usize)
        requires { place < length self.old.state.clients }
        ensures { self.new ≡ with_progress self.old place (record (progress_at self.old place) { ended = true }) }
    {
        self.clients[place].ended();
    }
}

fn have_all(users: &[Standing]) -> bool
    ensures { result ≡ list_all has_all users.now }
{
    users.iter().all(|user| user.has_all())
}

fn all_ended<D: DataSet + Drop>(clients: &[Progress<D>]) -> bool
    ensures { result ≡ list_all (λ client. has_ended client.progress) clients.now }
{
    clients.iter().all(|client| client.has_ended())
}
