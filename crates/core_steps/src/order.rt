ghost use Rattle.std.specs.Prelude.{◌≡◌, ◌<◌, ◌≤◌, ◌+◌, ◌-◌, ◌^◌, ◌++◌, ◌∷◌, [], ◌&&◌, false, if◌then◌else◌, IfNone, IfSome, OnOk, drop, length};
ghost use Rattle.std.specs.List.{fold};
ghost use Rattle.mz_base.specs.declared.event.Event.TheVariants as event;
ghost use Rattle.run_meaning.specs.Jobs.{entry_after, newest, outcome_of};
ghost use Rattle.run_meaning.specs.Numbers.{is_number, numbers};
ghost use Rattle.run_meaning.specs.Orders.{all_jobs, all_made, all_served, answered, before_step, job_came, made, most_reloads, obeyed, reload_came, reloads_left, run, served, then_closed, waited};
ghost use Rattle.run_meaning.specs.Worlds.{client_plan, job_at};
ghost use Rattle.core_steps.specs.Cores.{beginning, now};
ghost use Rattle.core_steps.specs.Kepts.{IsKept, ran};
ghost use Rattle.core_steps.specs.Followings.{obeyed_first};

use crate::error::StepError;
use crate::running::Running;
use mz_base::{DataSet, Event, NoMemory};
use session::Need;

impl<D: DataSet + Drop> Running<D> {
    // ---- The whole run

    /// The run, from its beginning to its end.
    pub fn run(&mut self) -> Result<(), NoMemory>
        requires kept { IsKept self.old }
        requires begins { ran self.old ≡ beginning self.old.world }
        ensures kept { IsKept self.new }
        ensures ok { OnOk result (ran self.new ≡ now (ran self.old) (run self.old.world)) }
    {
        self.all_served()?;
        self.all_jobs()?;
        self.all_reloads()?;
        self.then_closed()
    }

    /// Job 1 with its reloads, then the clients.
    fn all_served(&mut self) -> Result<(), NoMemory>
        requires kept { IsKept self.old }
        requires begins { ran self.old ≡ beginning self.old.world }
        ensures kept { IsKept self.new }
        ensures ok { OnOk result (ran self.new ≡ now (ran self.old) (all_served self.old.world)) }
    {
        self.job_came(1)?;
        self.serve_all()
    }

    /// The clients, each after the one before it.
    fn serve_all(&mut self) -> Result<(), NoMemory>
        requires { IsKept self.old }
        ensures kept { IsKept self.new }
        ensures ok { OnOk result (ran self.new ≡ now (ran self.old) (fold (served self.old.world) self.old.state (numbers (length self.old.world.clients)))) }
    {
        for place in 0..self.clients.len() {
            self.served(place)?;
        }
        Ok(())
    }

    /// The jobs that are left, each with its reloads.
    fn all_jobs(&mut self) -> Result<(), NoMemory>
        requires { IsKept self.old }
        ensures kept { IsKept self.new }
        ensures ok { OnOk result (ran self.new ≡ now (ran self.old) (all_jobs self.old.world self.old.state)) }
    {
        for place in self.logs.jobs.as_slice().len()..self.jobs.len() {
            self.job_came(place as u32 + 1)?;
        }
        Ok(())
    }

    /// The reloads whose number no job has.
    fn all_reloads(&mut self) -> Result<(), NoMemory>
        requires { IsKept self.old }
        ensures kept { IsKept self.new }
        ensures ok { OnOk result (ran self.new ≡ now (ran self.old) (fold (reload_came self.old.world) self.old.state (reloads_left self.old.world))) }
    {
        for place in self.jobs.len()..self.most_reloads() {
            self.reload_came(place as u32 + 1)?;
        }
        Ok(())
    }

    /// The most reloads of a user.
    fn most_reloads(&self) -> usize
        requires { IsKept self.now }
        ensures is { result ≡ most_reloads self.now.world }
        ensures few { result < 2 ^ 32 }
    {
        self.most_of_users()
    }

    fn most_of_users(&self) -> usize
        requires { IsKept self.now }
        ensures { result ≡ most_reloads self.now.world }
    {
        self.users
            .as_slice()
            .iter()
            .fold(0, |most, user| most.max(user.reloads()))
    }

    // ---- A client

    /// All commands of the client at a place, and its end.
    fn served(&mut self, place: usize) -> Result<(), NoMemory>
        requires kept { IsKept self.old }
        requires within { place < length self.old.world.clients }
        ensures kept { IsKept self.new }
        ensures ok { OnOk result (ran self.new ≡ now (ran self.old) (served self.old.world self.old.state (place + 1))) }
    {
        self.all_obeyed(place)?;
        self.make(Event::End {
            client: place as u32 + 1,
        })
    }

    /// All commands of the client at a place.
    fn all_obeyed(&mut self, place: usize) -> Result<(), NoMemory>
        requires kept { IsKept self.old }
        requires within { place < length self.old.world.clients }
        ensures kept { IsKept self.new }
        ensures ok { OnOk result (ran self.new ≡ now (ran self.old) (fold (obeyed self.old.world (place + 1)) self.old.state (client_plan self.old.world (place + 1)).commands)) }
    {
        for index in 0..self.client(place).commands() {
            self.obeyed(place, index)?;
        }
        Ok(())
    }

    /// The command of this index among those of the client at a place.
    fn obeyed(&mut self, place: usize, index: usize) -> Result<(), NoMemory>
        requires kept { IsKept self.old }
        requires within { place < length self.old.world.clients }
        requires there { index < length (client_plan self.old.world (place + 1)).commands }
        ensures kept { IsKept self.new }
        ensures ok { OnOk result (ran self.new ≡ now (ran self.old) (obeyed_first self.old.world (place + 1) self.old.state (drop index (client_plan self.old.world (place + 1)).commands))) }
    {
        let client = place as u32 + 1;
        match self.client(place).wait_at(index) {
            Some(wanted) => {
                self.waited(wanted)?;
                self.answered(client, wanted)
            }
            None => {
                let need = self.client(place).need_at(index);
                self.stepped(client, need)
            }
        }
    }

    /// What a command needs, and its step.
    fn stepped(&mut self, client: u32, need: Need) -> Result<(), NoMemory>
        requires { IsKept self.old }
        ensures kept { IsKept self.new }
        ensures ok { OnOk result (ran self.new ≡ now (ran self.old) (all_made self.old.world self.old.state (before_step need client (newest self.old.state.logs.jobs) ++ event.Step client ∷ []))) }
    {
        self.before_step(client, need)?;
        self.make(Event::Step { client })
    }

    /// What a command needs before its step; a take is of the newest published job.
    fn before_step(&mut self, client: u32, need: Need) -> Result<(), NoMemory>
        requires { IsKept self.old }
        ensures kept { IsKept self.new }
        ensures ok { OnOk result (ran self.new ≡ now (ran self.old) (all_made self.old.world self.old.state (before_step need client (newest self.old.state.logs.jobs)))) }
    {
        let job = self.newest();
        match need {
            Need::Nothing => Ok(()),
            Need::Learn => self.make(Event::Learn { client }),
            Need::Take => self.make(Event::Take { client, job }),
            Need::LearnThenTake => {
                self.make(Event::Learn { client })?;
                self.make(Event::Take { client, job })
            }
        }
    }

    /// A wait ends with the newest published job, or with none.
    fn answered(&mut self, client: u32, wanted: u32) -> Result<(), NoMemory>
        requires { IsKept self.old }
        ensures kept { IsKept self.new }
        ensures ok { OnOk result (ran self.new ≡ now (ran self.old) (answered self.old.world client wanted self.old.state)) }
    {
        let job = self.newest();
        if wanted <= job {
            self.make(Event::Await { client, job })
        } else {
            self.then_closed()?;
            self.make(Event::NotYet { client })
        }
    }

    /// Jobs come while the newest published one is below the wanted one.
    fn waited(&mut self, wanted: u32) -> Result<(), NoMemory>
        requires { IsKept self.old }
        ensures kept { IsKept self.new }
        ensures ok { OnOk result (ran self.new ≡ now (ran self.old) (waited self.old.world self.old.state wanted)) }
    {
        for place in self.logs.jobs.as_slice().len()..self.jobs.len() {
            if wanted <= self.newest() {
                return Ok(());
            }
            self.job_came(place as u32 + 1)?;
        }
        Ok(())
    }

    // ---- Jobs and reloads

    /// A job, and then the reloads of its number.
    fn job_came(&mut self, job: u32) -> Result<(), NoMemory>
        requires { IsKept self.old }
        ensures kept { IsKept self.new }
        ensures ok { OnOk result (ran self.new ≡ now (ran self.old) (job_came self.old.world self.old.state job)) }
    {
        self.job_made(job)?;
        self.reload_came(job)
    }

    /// A job, with what becomes of it now.
    fn job_made(&mut self, job: u32) -> Result<(), NoMemory>
        requires { IsKept self.old }
        ensures kept { IsKept self.new }
        ensures ok { OnOk result (ran self.new ≡ now (ran self.old) (made self.old.world self.old.state (event.Job job (outcome_of (entry_after self.old.state.logs.jobs job (job_at self.old.world job)))))) }
    {
        match self.job_place(job) {
            Some(place) => {
                let outcome = self.outcome_at(job, place);
                self.make(Event::Job { job, outcome })
            }
            None => Ok(()),
        }
    }

    /// The place of a job, where it is there.
    fn job_place(&self, job: u32) -> Option<usize>
        ensures number { IfSome result (λ place. place + 1 ≡ job) }
        ensures within { IfSome result (λ place. place < length self.now.world.jobs) }
        ensures nowhere { IfNone result (is_number self.now.world.jobs job ≡ false) }
    {
        let place = (job as usize).checked_sub(1)?;
        if place < self.jobs.len() {
            Some(place)
        } else {
            None
        }
    }

    /// The reloads of this number, user by user.
    fn reload_came(&mut self, reload: u32) -> Result<(), NoMemory>
        requires { IsKept self.old }
        ensures kept { IsKept self.new }
        ensures ok { OnOk result (ran self.new ≡ now (ran self.old) (reload_came self.old.world self.old.state reload)) }
    {
        // Of a user that has none of this number it is not legal, and nothing is made.
        for place in 0..self.users.len() {
            self.make(Event::Dict {
                user: place as u32 + 1,
                reload,
            })?;
        }
        Ok(())
    }

    // ---- One event

    /// The log is closed, if it is not yet.
    fn then_closed(&mut self) -> Result<(), NoMemory>
        requires { IsKept self.old }
        ensures kept { IsKept self.new }
        ensures ok { OnOk result (ran self.new ≡ now (ran self.old) (then_closed self.old.world self.old.state)) }
    {
        if self.is_closed() {
            Ok(())
        } else {
            self.make(Event::Close)
        }
    }

    /// Makes an event, where it is legal.
    pub fn make(&mut self, event: Event) -> Result<(), NoMemory>
        requires { IsKept self.old }
        ensures kept { IsKept self.new }
        ensures ok { OnOk result (ran self.new ≡ now (ran self.old) (made self.old.world self.old.state event)) }
    {
        match self.step(&event) {
            Err(StepError::NoMemory) => Err(NoMemory),
            Ok(()) | Err(StepError::Illegal) => Ok(()),
        }
    }
}
