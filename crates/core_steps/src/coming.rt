ghost use Rattle.std.specs.Prelude.{◌≡◌, ◌<◌, ◌+◌, ◌&&◌, ◌||◌, ◌++◌, ◌∷◌, [], not, true, None, IfNone, IfSome, OnErr, OnOk, length};
ghost use Rattle.mz_base.specs.declared.event.Event.TheVariants as event;
ghost use Rattle.mz_base.specs.declared.logs.UserEntry.TheVariants as entry;
ghost use Rattle.run_meaning.specs.Jobs.{entry_after, outcome_of};
ghost use Rattle.run_meaning.specs.Numbers.{is_number};
ghost use Rattle.run_meaning.specs.Plays.{apply, is_close_legal, is_first};
ghost use Rattle.run_meaning.specs.States.{is_open, journal_of};
ghost use Rattle.run_meaning.specs.Users.{is_entered};
ghost use Rattle.run_meaning.specs.Worlds.{job_at, reloads_of};
ghost use Rattle.core_steps.specs.Additions.{entered_at};
ghost use Rattle.core_steps.specs.Comings.{JobMayCome, ReloadMayCome, closed_now, with_job_now, with_reload_now};
ghost use Rattle.core_steps.specs.Cores.{IsStepped};
ghost use Rattle.core_steps.specs.Kepts.{IsKept, ran};

use crate::addition::enter;
use crate::error::StepError;
use crate::jobs::{entry_after, outcome_after};
use crate::running::Running;
use mz_base::{DataSet, Event, JobEntry, Logs, NoMemory, Outcome, UserEntry};

impl<D: DataSet + Drop> Running<D> {
    // ---- A job comes

    pub fn job(&mut self, job: u32, outcome: Outcome) -> Result<(), StepError>
        requires { IsKept self.old }
        ensures kept { IsKept self.new }
        ensures stepped { IsStepped (ran self.old) (event.Job job outcome) result (ran self.new) }
    {
        let place = self.comer(job, outcome).ok_or(StepError::Illegal)?;
        Ok(self.do_job(job, place, outcome)?)
    }

    /// The place of a job that did not come, where this becomes of it.
    fn comer(&self, job: u32, outcome: Outcome) -> Option<usize>
        requires { IsKept self.now }
        ensures may { IfSome result (JobMayCome self.now job outcome) }
        ensures illegal { IfNone result (apply self.now.world self.now.state (event.Job job outcome) ≡ None) }
    {
        let place = (job as usize).checked_sub(1)?;
        if place < self.jobs.len()
            && self.may_begin(job, outcome)
            && !self.is_logged(job)
            && outcome == self.outcome_at(job, place)
        {
            Some(place)
        } else {
            None
        }
    }

    /// Whether job 1 stands published, or comes so.
    fn may_begin(&self, job: u32, outcome: Outcome) -> bool
        requires { IsKept self.now }
        ensures { result ≡ (is_open self.now.state || is_first job outcome) }
    {
        self.is_published(1) || (job == 1 && outcome == Outcome::Published)
    }

    /// What becomes of a job now.
    pub fn outcome_at(&self, job: u32, place: usize) -> Outcome
        requires kept { IsKept self.now }
        requires number { place + 1 ≡ job }
        requires within { place < length self.now.world.jobs }
        ensures { result ≡ outcome_of (entry_after self.now.state.logs.jobs job (job_at self.now.world job)) }
    {
        outcome_after(self.newest(), job, &self.jobs[place])
    }

    fn do_job(&mut self, job: u32, place: usize, outcome: Outcome) -> Result<(), NoMemory>
        requires kept { IsKept self.old }
        requires may { JobMayCome self.old job outcome place }
        ensures kept { IsKept self.new }
        ensures ok { OnOk result (ran self.new ≡ with_job_now (ran self.old) job outcome) }
        ensures err { OnErr result (self.new ≡ self.old) }
    {
        let newest = self.newest();
        let entry = entry_after(self.alloc, newest, job, &self.jobs[place])?;
        note_job(&mut self.logs, entry, Event::Job { job, outcome })?;
        self.board.note(job, outcome);
        Ok(())
    }

    // ---- The log closes

    pub fn close(&mut self) -> Result<(), StepError>
        requires { IsKept self.old }
        ensures kept { IsKept self.new }
        ensures stepped { IsStepped (ran self.old) event.Close result (ran self.new) }
    {
        if !self.may_close() {
            return Err(StepError::Illegal);
        }
        Ok(self.do_close()?)
    }

    pub fn may_close(&self) -> bool
        requires { IsKept self.now }
        ensures { result ≡ is_close_legal self.now.world self.now.state }
    {
        self.is_published(1) && self.board.is_full() && !self.logs.closed
    }

    fn do_close(&mut self) -> Result<(), NoMemory>
        requires kept { IsKept self.old }
        requires may { is_close_legal self.old.world self.old.state ≡ true }
        ensures kept { IsKept self.new }
        ensures ok { OnOk result (ran self.new ≡ closed_now (ran self.old)) }
        ensures err { OnErr result (self.new ≡ self.old) }
    {
        self.logs.events.push(Event::Close)?;
        self.logs.closed = true;
        Ok(())
    }

    // ---- A user's dictionary is read anew

    pub fn reload(&mut self, user: u32, reload: u32) -> Result<(), StepError>
        requires { IsKept self.old }
        ensures kept { IsKept self.new }
        ensures stepped { IsStepped (ran self.old) (event.Dict user reload) result (ran self.new) }
    {
        let place = self.reloader(user, reload).ok_or(StepError::Illegal)?;
        Ok(self.do_reload(user, place, reload)?)
    }

    /// The place of the user, where the reload is one of the user's that did not come.
    fn reloader(&self, user: u32, reload: u32) -> Option<usize>
        requires { IsKept self.now }
        ensures may { IfSome result (ReloadMayCome self.now user reload) }
        ensures illegal { IfNone result (apply self.now.world self.now.state (event.Dict user reload) ≡ None) }
    {
        let place = (user as usize).checked_sub(1)?;
        if self.is_published(1) && place < self.users.len() && self.awaits_reload(place, reload) {
            Some(place)
        } else {
            None
        }
    }

    /// Whether the reload is one of the user's at a place, and did not come.
    fn awaits_reload(&self, place: usize, reload: u32) -> bool
        requires kept { IsKept self.now }
        requires within { place < length self.now.users }
        ensures { result ≡ (is_number (reloads_of self.now.world (place + 1)) reload && not (is_entered (journal_of self.now.state (place + 1)) reload)) }
    {
        let user = &self.users[place];
        user.has_reload(reload) && !user.is_entered(reload)
    }

    fn do_reload(&mut self, user: u32, place: usize, reload: u32) -> Result<(), NoMemory>
        requires kept { IsKept self.old }
        requires may { ReloadMayCome self.old user reload place }
        ensures kept { IsKept self.new }
        ensures ok { OnOk result (ran self.new ≡ with_reload_now (ran self.old) user reload) }
        ensures err { OnErr result (self.new ≡ self.old) }
    {
        note_reload(&mut self.logs, place, user, reload)?;
        self.users[place].note(reload);
        Ok(())
    }
}

/// A job and its event come into the logs.
fn note_job(logs: &mut Logs, entry: JobEntry, event: Event) -> Result<(), NoMemory>
    ensures ok { OnOk result (logs.new ≡ record logs.old { jobs = logs.old.jobs ++ entry ∷ []; events = logs.old.events ++ event ∷ [] }) }
    ensures err { OnErr result (logs.new ≡ logs.old) }
{
    logs.jobs.push(entry)?;
    if logs.events.push(event).is_err() {
        logs.jobs.pop();
        return Err(NoMemory);
    }
    Ok(())
}

/// A reload and its event come into the logs, where the user stands at a place.
fn note_reload(logs: &mut Logs, place: usize, user: u32, reload: u32) -> Result<(), NoMemory>
    requires { place < length logs.old.users }
    ensures ok { OnOk result (logs.new ≡ record logs.old { users = entered_at logs.old.users place (entry.Dict reload); events = logs.old.events ++ event.Dict user reload ∷ [] }) }
    ensures err { OnErr result (logs.new ≡ logs.old) }
{
    logs.events.push(Event::Dict { user, reload })?;
    if enter(&mut logs.users, place, UserEntry::Dict { reload }).is_err() {
        logs.events.pop();
        return Err(NoMemory);
    }
    Ok(())
}
