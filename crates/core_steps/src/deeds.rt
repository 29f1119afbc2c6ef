ghost use Rattle.std.specs.Prelude.{◌≡◌, ◌<◌, ◌+◌, ◌&&◌, None, IfNone, IfOk, IfSome, IsOk, IsTrue, OnErr, OnOk, length, map};
ghost use Rattle.std.specs.Arc.{arc_value};
ghost use Rattle.mz_base.specs.declared.event.Event.TheVariants as event;
ghost use Rattle.mz_base.specs.declared.logs.UserEntry.TheVariants as entry;
ghost use Rattle.run_meaning.specs.Deeds.{Awaits, Ends, FindsNone, Learns, Steps, pairs_of};
ghost use Rattle.run_meaning.specs.Jobs.{is_published, newest};
ghost use Rattle.run_meaning.specs.Numbers.{at_number};
ghost use Rattle.run_meaning.specs.Plays.{apply};
ghost use Rattle.run_meaning.specs.States.{journal_of};
ghost use Rattle.run_meaning.specs.Users.{data_of};
ghost use Rattle.run_meaning.specs.Worlds.{lists_in, no_job, user_of};
ghost use Rattle.core_steps.specs.Cores.{IsStepped};
ghost use Rattle.core_steps.specs.Helds.{may_await, may_find_none, may_take};
ghost use Rattle.core_steps.specs.JobFiles.{lists_read};
ghost use Rattle.core_steps.specs.Kepts.{IsKept, IsTaking, MayDo, after_deed, progress_at, ran, taking_now, with_users};

use crate::addition::Beside;
use crate::error::StepError;
use crate::progress::Stepped;
use crate::running::Running;
use mz_base::{BadSet, DataSet, Event, NoMemory, Own, Seq, UserEntry};
use session::Pinned;
use std::sync::Arc;
use user_dict::UserDict;

impl<D: DataSet + Drop> Running<D> {
    // ---- What is committed is learned

    pub fn learn(&mut self, client: u32) -> Result<(), StepError>
        requires { IsKept self.old }
        ensures kept { IsKept self.new }
        ensures stepped { IsStepped (ran self.old) (event.Learn client) result (ran self.new) }
    {
        let place = self.learner(client).ok_or(StepError::Illegal)?;
        Ok(self.do_learn(client, place)?)
    }

    fn learner(&self, client: u32) -> Option<usize>
        requires { IsKept self.now }
        ensures may { IfSome result (λ place. MayDo self.now client place Learns) }
        ensures illegal { IfNone result (apply self.now.world self.now.state (event.Learn client) ≡ None) }
    {
        let place = self.place_of(client)?;
        if self.client(place).lacks_learn() {
            Some(place)
        } else {
            None
        }
    }

    fn do_learn(&mut self, client: u32, place: usize) -> Result<(), NoMemory>
        requires kept { IsKept self.old }
        requires may { MayDo self.old client place Learns }
        ensures ok { OnOk result (self.new ≡ after_deed self.old client (event.Learn client) Learns) }
        ensures err { OnErr result (self.new ≡ self.old) }
    {
        let own = Own {
            event: Event::Learn { client },
            prefix: 0,
        };
        let entry = self.learn_entry(client, place)?;
        self.note(place, own, None, Beside::Entry(entry))?;
        self.learned(place);
        Ok(())
    }

    fn learn_entry(&self, client: u32, place: usize) -> Result<UserEntry, NoMemory>
        requires kept { IsKept self.now }
        requires within { place < length self.now.state.clients }
        ensures { IfOk result (λ made. made ≡ entry.Learn client ((progress_at self.now place).learns + 1) (pairs_of (progress_at self.now place).session (progress_at self.now place).rest)) }
    {
        let progress = self.client(place);
        let pairs = Seq::from_vec(progress.pairs(self.alloc)?);
        let seq = progress.learns() + 1;
        Ok(UserEntry::Learn { client, seq, pairs })
    }

    // ---- Data are taken

    pub fn take(&mut self, client: u32, job: u32) -> Result<(), StepError>
        requires { IsKept self.old }
        ensures kept { IsKept self.new }
        ensures stepped { IsStepped (ran self.old) (event.Take client job) result (ran self.new) }
    {
        let place = self.taker(client, job).ok_or(StepError::Illegal)?;
        Ok(self.do_take(client, place, job)?)
    }

    fn taker(&self, client: u32, job: u32) -> Option<usize>
        requires { IsKept self.now }
        ensures may { IfSome result (λ place. IsTaking self.now client place job) }
        ensures illegal { IfNone result (apply self.now.world self.now.state (event.Take client job) ≡ None) }
    {
        let place = self.place_of(client)?;
        if self.can_take(place, job) {
            Some(place)
        } else {
            None
        }
    }

    /// Whether the job stands published, and the client at a place may take its data.
    fn can_take(&self, place: usize, job: u32) -> bool
        requires kept { IsKept self.now }
        requires within { place < length self.now.state.clients }
        ensures { result ≡ (is_published self.now.state.logs.jobs job && may_take (progress_at self.now place) job) }
    {
        self.is_published(job) && self.client(place).may_take(job)
    }

    fn do_take(&mut self, client: u32, place: usize, job: u32) -> Result<(), NoMemory>
        requires kept { IsKept self.old }
        requires may { IsTaking self.old client place job }
        ensures kept { IsKept self.new }
        ensures ok { OnOk result (self.new ≡ with_users (after_deed self.old client (event.Take client job) (taking_now self.old client job)) self.new.users) }
        ensures err { OnErr result (self.new ≡ with_users self.old self.new.users) }
    {
        let own = Own {
            event: Event::Take { client, job },
            prefix: self.entries(place),
        };
        let taken = self.pinned(place, job)?;
        self.note(place, own, None, Beside::Nothing)?;
        self.took(place, taken);
        Ok(())
    }

    /// How many entries the journal of the client's user has.
    fn entries(&self, place: usize) -> u64
        requires kept { IsKept self.now }
        requires within { place < length self.now.state.clients }
        ensures { result ≡ length (journal_of self.now.state (user_of self.now.world (place + 1))) }
    {
        self.journal(place).len() as u64
    }

    /// The journal of the client's user.
    fn journal(&self, place: usize) -> &[UserEntry]
        requires kept { IsKept self.now }
        requires within { place < length self.now.state.clients }
        ensures { result.now ≡ journal_of self.now.state (user_of self.now.world (place + 1)) }
    {
        let user = self.user_place(place);
        self.logs.users.as_slice()[user].entries.as_slice()
    }

    /// The data of a job that stands published, for the client at a place.
    fn pinned(&mut self, place: usize, job: u32) -> Result<Pinned<D, UserDict>, NoMemory>
        requires kept { IsKept self.old }
        requires within { place < length self.old.state.clients }
        requires published { IsTrue (is_published self.old.state.logs.jobs job) }
        ensures kept { IsKept self.new }
        ensures beside { self.new ≡ with_users self.old self.new.users }
        ensures data { IfOk result (λ pinned. pinned ≡ data_of self.old.world (user_of self.old.world (place + 1)) job (journal_of self.old.state (user_of self.old.world (place + 1)))) }
    {
        let user = self.user_place(place);
        let set = set_at(self.jobs.as_slice(), job);
        let journal = self.logs.users.as_slice()[user].entries.as_slice();
        self.users[user].pinned(self.alloc, job, set, journal)
    }

    // ---- The next command is carried out

    pub fn carry_out(&mut self, client: u32) -> Result<(), StepError>
        requires { IsKept self.old }
        ensures kept { IsKept self.new }
        ensures stepped { IsStepped (ran self.old) (event.Step client) result (ran self.new) }
    {
        let place = self.stepper(client).ok_or(StepError::Illegal)?;
        Ok(self.do_step(client, place)?)
    }

    fn stepper(&self, client: u32) -> Option<usize>
        requires { IsKept self.now }
        ensures may { IfSome result (λ place. MayDo self.now client place Steps) }
        ensures illegal { IfNone result (apply self.now.world self.now.state (event.Step client) ≡ None) }
    {
        let place = self.place_of(client)?;
        if self.client(place).may_step() {
            Some(place)
        } else {
            None
        }
    }

    fn do_step(&mut self, client: u32, place: usize) -> Result<(), NoMemory>
        requires kept { IsKept self.old }
        requires may { MayDo self.old client place Steps }
        ensures ok { OnOk result (self.new ≡ after_deed self.old client (event.Step client) Steps) }
        ensures err { OnErr result (self.new ≡ self.old) }
    {
        let Some(made) = self.client(place).stepped()? else {
            unreachable!()
        };
        let beside = self.certificate(client, place, &made)?;
        let own = Own {
            event: Event::Step { client },
            prefix: 0,
        };
        let Stepped { session, line } = made;
        self.note(place, own, Some(line), beside)?;
        self.over(place, session);
        Ok(())
    }

    // ---- A wait ends with a job

    pub fn awaits(&mut self, client: u32, job: u32) -> Result<(), StepError>
        requires { IsKept self.old }
        ensures kept { IsKept self.new }
        ensures stepped { IsStepped (ran self.old) (event.Await client job) result (ran self.new) }
    {
        let place = self.waiter(client, job).ok_or(StepError::Illegal)?;
        Ok(self.do_await(client, place, job)?)
    }

    fn waiter(&self, client: u32, job: u32) -> Option<usize>
        requires { IsKept self.now }
        ensures may { IfSome result (λ place. MayDo self.now client place (Awaits job)) }
        ensures illegal { IfNone result (apply self.now.world self.now.state (event.Await client job) ≡ None) }
        ensures published { IfSome result (λ place. IsTrue (is_published self.now.state.logs.jobs job)) }
    {
        let place = self.place_of(client)?;
        if self.can_await(place, job) {
            Some(place)
        } else {
            None
        }
    }

    /// Whether the job stands published, and the client at a place waited for it.
    fn can_await(&self, place: usize, job: u32) -> bool
        requires kept { IsKept self.now }
        requires within { place < length self.now.state.clients }
        ensures { result ≡ (is_published self.now.state.logs.jobs job && may_await (progress_at self.now place) job) }
    {
        self.is_published(job) && self.client(place).may_await(job)
    }

    fn do_await(&mut self, client: u32, place: usize, job: u32) -> Result<(), NoMemory>
        requires kept { IsKept self.old }
        requires may { MayDo self.old client place (Awaits job) }
        ensures ok { OnOk result (self.new ≡ after_deed self.old client (event.Await client job) (Awaits job)) }
        ensures err { OnErr result (self.new ≡ self.old) }
    {
        let own = Own {
            event: Event::Await { client, job },
            prefix: 0,
        };
        let alloc = self.alloc;
        let line = self.client(place).awaited_line(alloc, job)?;
        self.note(place, own, Some(line), Beside::Nothing)?;
        self.awaited(place, job);
        Ok(())
    }

    // ---- A wait finds none

    pub fn not_yet(&mut self, client: u32) -> Result<(), StepError>
        requires { IsKept self.old }
        ensures kept { IsKept self.new }
        ensures stepped { IsStepped (ran self.old) (event.NotYet client) result (ran self.new) }
    {
        let place = self.finder(client).ok_or(StepError::Illegal)?;
        Ok(self.do_not_yet(client, place)?)
    }

    fn finder(&self, client: u32) -> Option<usize>
        requires { IsKept self.now }
        ensures may { IfSome result (λ place. MayDo self.now client place (FindsNone (newest self.now.state.logs.jobs))) }
        ensures illegal { IfNone result (apply self.now.world self.now.state (event.NotYet client) ≡ None) }
        ensures closed { IfSome result (λ place. IsTrue self.now.state.logs.closed) }
    {
        let place = self.place_of(client)?;
        if self.can_find_none(place) {
            Some(place)
        } else {
            None
        }
    }

    /// Whether the log is closed, and the client at a place waits for a higher job than any.
    fn can_find_none(&self, place: usize) -> bool
        requires kept { IsKept self.now }
        requires within { place < length self.now.state.clients }
        ensures { result ≡ (self.now.state.logs.closed && may_find_none (progress_at self.now place) (newest self.now.state.logs.jobs)) }
    {
        self.is_closed() && self.client(place).may_find_none(self.newest())
    }

    fn do_not_yet(&mut self, client: u32, place: usize) -> Result<(), NoMemory>
        requires kept { IsKept self.old }
        requires may { MayDo self.old client place (FindsNone (newest self.old.state.logs.jobs)) }
        ensures ok { OnOk result (self.new ≡ after_deed self.old client (event.NotYet client) (FindsNone (newest self.old.state.logs.jobs))) }
        ensures err { OnErr result (self.new ≡ self.old) }
    {
        let own = Own {
            event: Event::NotYet { client },
            prefix: 0,
        };
        let alloc = self.alloc;
        let newest = self.newest();
        let line = self.client(place).not_yet_line(alloc, newest)?;
        self.note(place, own, Some(line), Beside::Nothing)?;
        self.pass(place);
        Ok(())
    }

    // ---- A client ends

    pub fn end(&mut self, client: u32) -> Result<(), StepError>
        requires { IsKept self.old }
        ensures kept { IsKept self.new }
        ensures stepped { IsStepped (ran self.old) (event.End client) result (ran self.new) }
    {
        let place = self.ender(client).ok_or(StepError::Illegal)?;
        Ok(self.do_end(client, place)?)
    }

    fn ender(&self, client: u32) -> Option<usize>
        requires { IsKept self.now }
        ensures may { IfSome result (λ place. MayDo self.now client place Ends) }
        ensures illegal { IfNone result (apply self.now.world self.now.state (event.End client) ≡ None) }
    {
        let place = self.place_of(client)?;
        if self.client(place).may_end() {
            Some(place)
        } else {
            None
        }
    }

    fn do_end(&mut self, client: u32, place: usize) -> Result<(), NoMemory>
        requires kept { IsKept self.old }
        requires may { MayDo self.old client place Ends }
        ensures ok { OnOk result (self.new ≡ after_deed self.old client (event.End client) Ends) }
        ensures err { OnErr result (self.new ≡ self.old) }
    {
        let own = Own {
            event: Event::End { client },
            prefix: 0,
        };
        let count = self.client(place).learns();
        self.note(
            place,
            own,
            None,
            Beside::Entry(UserEntry::End { client, count }),
        )?;
        self.ended(place);
        Ok(())
    }
}

/// The set of a job that reads.
fn set_at<D: DataSet>(jobs: &[Result<Arc<D>, BadSet>], job: u32) -> &Arc<D>
    requires { IsOk (at_number no_job (map (lists_read (λ set. D.lists (arc_value set))) jobs.now) job) }
    ensures { D.lists (arc_value result.now) ≡ lists_in (at_number no_job (map (lists_read (λ set. D.lists (arc_value set))) jobs.now) job) }
{
    match &jobs[job as usize - 1] {
        Ok(set) => set,
        Err(_) => unreachable!(),
    }
}
