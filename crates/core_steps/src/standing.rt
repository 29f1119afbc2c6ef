ghost use Rattle.std.specs.Prelude.{◌≡◌, ◌<◌, ◌≤◌, ◌+◌, ◌++◌, ◌∷◌, [], List, None, IfOk, IfSome, OnErr, OnOk, length};
ghost use Rattle.std.specs.List.{list_all};
ghost use Rattle.mz_base.specs.declared.logs.UserEntry.{UserEntry};
ghost use Rattle.mz_base.specs.declared.logs.UserEntry.TheVariants as entry;
ghost use Rattle.run_meaning.specs.Numbers.{is_number};
ghost use Rattle.std.specs.Arc.{arc_value};
ghost use Rattle.session_meaning.specs.History.{learn};
ghost use Rattle.user_dict.specs.Dictionaries.{taken_in};
ghost use Rattle.run_meaning.specs.Users.{history_of, is_entered, reload_at, rows_in, rows_of};
ghost use Rattle.core_steps.specs.Standings.{Empties, Enters, IsCaught, IsFirst, IsShared, has_all, history_in};

use crate::plans::UserPlan;
use history::History;
use mz_base::{DataSet, NoMemory, Pair, UserEntry};
use session::Pinned;
use std::alloc::Global;
use std::sync::Arc;
use user_dict::UserDict;

/// A user: its plan, and what the first entries of its journal made.
#[derive(Drop)]
pub struct Standing {
    plan: UserPlan,
    /// How many entries of the journal are in what follows.
    upto: usize,
    /// What these entries make of the history; nothing where none was learned.
    history: Option<History>,
    /// The same, shared, where data were taken since the last learn.
    shared: Option<Arc<Vec<Pair>>>,
    /// The highest reload of these entries that reads; 0 where none does.
    in_force: u32,
    /// The words of a user without a reload in force.
    nothing: Arc<UserDict>,
    /// By the number of a reload: whether it stands in the journal.
    entered: Vec<bool>,
}

impl Standing {
    /// Nothing was entered yet.
    pub fn new(alloc: Global, plan: UserPlan) -> Result<Standing, NoMemory>
        ensures { IfOk result (IsFirst plan) }
    {
        let mut entered = Vec::new(alloc);
        entered.resize(plan.dicts.len(), false)?;
        Ok(Standing {
            plan,
            upto: 0,
            history: None,
            shared: None,
            in_force: 0,
            nothing: Arc::new(alloc, UserDict::empty(alloc))?,
            entered,
        })
    }

    pub fn plan(&self) -> &UserPlan
        ensures { result.now ≡ self.now.plan }
    {
        &self.plan
    }

    /// Whether the reload stands in the journal.
    pub fn is_entered(&self, reload: u32) -> bool
        ensures { (journal : List UserEntry) → IsCaught journal self.now → result ≡ is_entered journal reload }
    {
        let Some(place) = (reload as usize).checked_sub(1) else {
            return false;
        };
        match self.entered.as_slice().get(place) {
            Some(entered) => *entered,
            None => false,
        }
    }

    /// Whether the user has a reload of this number.
    pub fn has_reload(&self, reload: u32) -> bool
        ensures { result ≡ is_number self.now.plan.reloads reload }
    {
        0 < reload && reload as usize <= self.plan.dicts.len()
    }

    /// How many reloads the user has.
    pub fn reloads(&self) -> usize
        ensures { result ≡ length self.now.plan.reloads }
    {
        self.plan.dicts.len()
    }

    /// Whether all reloads of the user stand in the journal.
    pub fn has_all(&self) -> bool
        ensures { result ≡ has_all self.now }
    {
        all_stand(self.entered.as_slice())
    }

    /// The reload comes into the journal.
    pub fn note(&mut self, reload: u32)
        requires from { 0 < reload }
        requires to { reload ≤ length self.old.entered.items }
        ensures kept { (journal : List UserEntry) → IsCaught journal self.old → IsCaught (journal ++ entry.Dict reload ∷ []) self.new }
        ensures plan { self.new.plan ≡ self.old.plan }
    {
        self.entered[reload as usize - 1] = true;
    }

    /// The data that are taken now: the set of a job, and what the journal makes.
    pub fn pinned<D: DataSet>(
        &mut self,
        alloc: Global,
        job: u32,
        set: &Arc<D>,
        journal: &[UserEntry],
    ) -> Result<Pinned<D, UserDict>, NoMemory>
        requires { IsCaught journal.now self.old }
        ensures taken { IfOk result (λ pinned. pinned ≡ record { version = job; lists = D.lists (arc_value set.now); history = history_of journal.now; rows = rows_of self.old.plan.reloads journal.now }) }
        ensures kept { IsCaught journal.now self.new }
        ensures plan { self.new.plan ≡ self.old.plan }
    {
        self.catch_up(alloc, journal)?;
        self.pinned_now(alloc, job, set)
    }

    /// The entries of the journal that are not in it yet come into it.
    fn catch_up(&mut self, alloc: Global, journal: &[UserEntry]) -> Result<(), NoMemory>
        requires { IsCaught journal.now self.old }
        ensures kept { IsCaught journal.now self.new }
        ensures plan { self.new.plan ≡ self.old.plan }
        ensures all { OnOk result (self.new.upto ≡ length journal.now) }
    {
        while self.upto < journal.len() {
            self.enter_next(alloc, journal)?;
        }
        Ok(())
    }

    /// The next entry of the journal comes into it. Where memory is refused, it may be that nothing is in it any more.
    fn enter_next(&mut self, alloc: Global, journal: &[UserEntry]) -> Result<(), NoMemory>
        requires caught { IsCaught journal.now self.old }
        requires more { self.old.upto < length journal.now }
        ensures kept { IsCaught journal.now self.new }
        ensures plan { self.new.plan ≡ self.old.plan }
        ensures one { OnOk result (self.new.upto ≡ self.old.upto + 1) }
    {
        self.enter(alloc, &journal[self.upto])?;
        self.upto += 1;
        Ok(())
    }

    /// An entry comes into it.
    fn enter(&mut self, alloc: Global, entry: &UserEntry) -> Result<(), NoMemory>
        ensures ok { OnOk result (Enters self.old entry.now self.new) }
        ensures err { OnErr result (Empties self.old self.new) }
    {
        match entry {
            UserEntry::Learn { pairs, .. } => self.learn(alloc, pairs.as_slice()),
            UserEntry::Dict { reload } => {
                self.in_force = self.plan.higher(self.in_force, *reload);
                Ok(())
            }
            UserEntry::End { .. } => Ok(()),
        }
    }

    /// These pairs are learned.
    fn learn(&mut self, alloc: Global, pairs: &[Pair]) -> Result<(), NoMemory>
        ensures learned { OnOk result (history_in self.new.history ≡ learn (history_in self.old.history) pairs.now) }
        ensures ok { OnOk result (self.new ≡ record self.old { history = self.new.history; shared = None }) }
        ensures err { OnErr result (Empties self.old self.new) }
    {
        self.shared = None;
        match self.learned(alloc, pairs) {
            Ok(history) => {
                self.history = Some(history);
                Ok(())
            }
            Err(NoMemory) => {
                self.upto = 0;
                self.in_force = 0;
                Err(NoMemory)
            }
        }
    }

    /// The history with these pairs. It is taken out.
    fn learned(&mut self, alloc: Global, pairs: &[Pair]) -> Result<History, NoMemory>
        ensures learned { IfOk result (λ history. history ≡ learn (history_in self.old.history) pairs.now) }
        ensures taken { self.new ≡ record self.old { history = None } }
    {
        let mut history = begun(alloc, self.history.take())?;
        history.learn_all(alloc, pairs)?;
        Ok(history)
    }

    /// The set of a job, with what is kept.
    fn pinned_now<D: DataSet>(
        &mut self,
        alloc: Global,
        job: u32,
        set: &Arc<D>,
    ) -> Result<Pinned<D, UserDict>, NoMemory>
        requires shared { IsShared self.old }
        requires nothing { (taken_in (arc_value self.old.nothing)).rows ≡ [] }
        ensures taken { IfOk result (λ pinned. pinned ≡ record { version = job; lists = D.lists (arc_value set.now); history = history_in self.old.history; rows = rows_in (reload_at self.old.plan.reloads self.old.in_force) }) }
        ensures shared { IfSome self.new.shared (λ shared. (arc_value shared).items ≡ history_in self.old.history) }
        ensures beside { self.new ≡ record self.old { shared = self.new.shared } }
    {
        let words = self.words()?;
        let history = self.shared_history(alloc)?;
        Ok(Pinned {
            version: job,
            set: Arc::try_clone(set)?,
            history,
            words,
        })
    }

    fn words(&self) -> Result<Arc<UserDict>, NoMemory>
        requires { (taken_in (arc_value self.now.nothing)).rows ≡ [] }
        ensures { IfOk result (λ words. (taken_in (arc_value words)).rows ≡ rows_in (reload_at self.now.plan.reloads self.now.in_force)) }
    {
        match self.plan.words_of(self.in_force) {
            Some(words) => Ok(Arc::try_clone(words)?),
            None => Ok(Arc::try_clone(&self.nothing)?),
        }
    }

    /// The history, shared. Its list is made once after a learn.
    fn shared_history(&mut self, alloc: Global) -> Result<Arc<Vec<Pair>>, NoMemory>
        requires { IsShared self.old }
        ensures history { IfOk result (λ shared. (arc_value shared).items ≡ history_in self.old.history) }
        ensures shared { IfSome self.new.shared (λ shared. (arc_value shared).items ≡ history_in self.old.history) }
        ensures beside { self.new ≡ record self.old { shared = self.new.shared } }
    {
        if let Some(shared) = &self.shared {
            return Ok(Arc::try_clone(shared)?);
        }
        let shared = Arc::new(alloc, self.pairs(alloc)?)?;
        self.shared = Some(Arc::try_clone(&shared)?);
        Ok(shared)
    }

    fn pairs(&self, alloc: Global) -> Result<Vec<Pair>, NoMemory>
        ensures { IfOk result (λ pairs. pairs.items ≡ history_in self.now.history) }
    {
        match &self.history {
            Some(history) => history.pairs(alloc),
            None => Ok(Vec::new(alloc)),
        }
    }
}

/// Whether each of them is set.
fn all_stand(entered: &[bool]) -> bool
    ensures { result ≡ list_all (λ stands. stands) entered.now }
{
    entered.iter().all(|stands| *stands)
}

/// The history that is kept, or one where nothing is learned yet.
fn begun(alloc: Global, kept: Option<History>) -> Result<History, NoMemory>
    ensures { IfOk result (λ history. history ≡ history_in kept) }
{
    match kept {
        Some(history) => Ok(history),
        None => History::new(alloc),
    }
}
