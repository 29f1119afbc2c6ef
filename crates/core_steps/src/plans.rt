ghost use Rattle.std.specs.Prelude.{◌≡◌, ◌^◌, true, IfNone, IfSome, IsOk, is_some, length, map, nat_lt};
ghost use Rattle.std.specs.List.{list_all};
ghost use Rattle.std.specs.Arc.{arc_value};
ghost use Rattle.mz_base.specs.declared.logs.UserEntry.TheVariants as entry;
ghost use Rattle.user_dict.specs.Dictionaries.{taken_in};
ghost use Rattle.run_meaning.specs.Users.{higher, no_reload, reads, reload_at, rows_in};
ghost use Rattle.run_meaning.specs.Worlds.{IsCounted, IsWorld, job_at};
ghost use Rattle.core_steps.specs.Plans.{is_sound, reload_of};

use keys::Command;
use mz_base::{BadSet, DataSet, Text};
use std::marker::Model;
use std::sync::Arc;
use user_dict::{ImportError, UserDict};

/// Jobs, users, clients, reloads of a user and commands of a client are fewer than this.
const COUNTED: usize = 1 << 32;

/// What a run is given. Jobs, users, the reloads of a user and clients are numbered from 1.
#[derive(Drop)]
pub struct World<D: DataSet> {
    /// The data set of each job, or the file at fault with its first fault.
    pub jobs: Vec<Result<Arc<D>, BadSet>>,
    pub users: Vec<UserPlan>,
    pub clients: Vec<ClientPlan>,
    /// Whether certificates of conversions are kept.
    pub certificates: bool,
}

/// A user, with the reloads of the user's dictionary.
#[derive(Drop)]
pub struct UserPlan {
    pub name: Text,
    /// What each file gave. Want of memory is none of its faults.
    pub dicts: Vec<Result<Arc<UserDict>, ImportError>>,
}

/// A client, with the number of its user, and its commands.
#[derive(Drop)]
pub struct ClientPlan {
    pub name: Text,
    pub user: u32,
    pub commands: Vec<Command>,
}

impl<D: DataSet> Model for World<D> {
    ghost use Rattle.std.specs.Prelude.{map};
    ghost use Rattle.std.specs.Arc.{arc_value};
    ghost use Rattle.run_meaning.specs.Worlds.{World as Meant};
    ghost use Rattle.core_steps.specs.JobFiles.{lists_read};

    ghost Value = { Meant };

    ghost view = { λ w. record { jobs = map (lists_read (λ set. D.lists (arc_value set))) w.jobs.items; users = w.users.items; clients = w.clients.items; certificates = w.certificates } };
}

impl Model for UserPlan {
    ghost use Rattle.std.specs.Prelude.{map};
    ghost use Rattle.core_steps.specs.Plans.{reload_of};
    ghost use Rattle.run_meaning.specs.Worlds.{UserPlan as Meant};

    ghost Value = { Meant };

    ghost view = { λ p. record { name = p.name; reloads = map reload_of p.dicts.items } };
}

impl Model for ClientPlan {
    ghost use Rattle.run_meaning.specs.Worlds.{ClientPlan as Meant};

    ghost Value = { Meant };

    ghost view = { λ p. record { name = p.name; user = p.user; commands = p.commands.items } };
}

impl<D: DataSet> World<D> {
    /// Whether it can be run: the first set reads, the user of each client is there, and there are fewer than 2^32 jobs, users,
    /// clients, reloads of one user and commands of one client. It walks users and clients once.
    pub fn can_run(&self) -> bool
        ensures { result ≡ true → IsWorld self.now }
    {
        self.reads_first()
            && self.has_few_plans()
            && self.has_few_reloads()
            && self.has_sound_clients()
    }

    fn reads_first(&self) -> bool
        ensures { result ≡ true → IsOk (job_at self.now 1) }
    {
        matches!(self.jobs.as_slice().first(), Some(Ok(_)))
    }

    fn has_few_plans(&self) -> bool
        ensures jobs { result ≡ true → IsCounted self.now.jobs }
        ensures users { result ≡ true → IsCounted self.now.users }
        ensures clients { result ≡ true → IsCounted self.now.clients }
    {
        self.jobs.len() < COUNTED && self.users.len() < COUNTED && self.clients.len() < COUNTED
    }

    fn has_few_reloads(&self) -> bool
        ensures { result ≡ list_all (λ user. nat_lt (length user.reloads) (2 ^ 32)) self.now.users }
    {
        are_reloads_few(self.users.as_slice())
    }

    fn has_sound_clients(&self) -> bool
        ensures { result ≡ list_all (is_sound (length self.now.users)) self.now.clients }
    {
        are_sound(self.clients.as_slice(), self.users.len())
    }
}

fn are_reloads_few(users: &[UserPlan]) -> bool
    ensures { result ≡ list_all (λ user. nat_lt (length user.reloads) (2 ^ 32)) users.now }
{
    users.iter().all(|user| has_few(user))
}

fn has_few(user: &UserPlan) -> bool
    ensures { result ≡ nat_lt (length user.now.reloads) (2 ^ 32) }
{
    user.dicts.len() < COUNTED
}

fn are_sound(clients: &[ClientPlan], users: usize) -> bool
    ensures { result ≡ list_all (is_sound users) clients.now }
{
    clients.iter().all(|client| is_sound(client, users))
}

fn is_sound(client: &ClientPlan, users: usize) -> bool
    ensures { result ≡ is_sound users client.now }
{
    0 < client.user && client.user as usize <= users && client.commands.len() < COUNTED
}

impl UserPlan {
    /// The words of a reload that reads. Reloads are numbered from 1.
    pub(crate) fn words_of(&self, reload: u32) -> Option<&Arc<UserDict>>
        ensures rows { IfSome result (λ words. (taken_in (arc_value words.now)).rows ≡ rows_in (reload_at self.now.reloads reload)) }
        ensures reads { is_some result ≡ reads (reload_at self.now.reloads reload) }
    {
        words_at(self.dicts.as_slice(), reload)
    }

    /// The reload in force, where this one is entered after the one that was before.
    pub(crate) fn higher(&self, before: u32, reload: u32) -> u32
        ensures { result ≡ higher self.now.reloads before (entry.Dict reload) }
    {
        if self.words_of(reload).is_some() {
            before.max(reload)
        } else {
            before
        }
    }
}

fn words_at(dicts: &[Result<Arc<UserDict>, ImportError>], reload: u32) -> Option<&Arc<UserDict>>
    ensures rows { IfSome result (λ words. (taken_in (arc_value words.now)).rows ≡ rows_in (reload_at (map reload_of dicts.now) reload)) }
    ensures reads { is_some result ≡ reads (reload_at (map reload_of dicts.now) reload) }
{
    match dict_at(dicts, reload) {
        Some(dict) => words_in(dict),
        None => None,
    }
}

/// What the file of a reload gave.
fn dict_at(
    dicts: &[Result<Arc<UserDict>, ImportError>],
    reload: u32,
) -> Option<&Result<Arc<UserDict>, ImportError>>
    ensures there { IfSome result (λ dict. reload_at (map reload_of dicts.now) reload ≡ reload_of dict.now) }
    ensures nowhere { IfNone result (reload_at (map reload_of dicts.now) reload ≡ no_reload) }
{
    let place = (reload as usize).checked_sub(1)?;
    dicts.get(place)
}

fn words_in(dict: &Result<Arc<UserDict>, ImportError>) -> Option<&Arc<UserDict>>
    ensures rows { IfSome result (λ words. (taken_in (arc_value words.now)).rows ≡ rows_in (reload_of dict.now)) }
    ensures reads { is_some result ≡ reads (reload_of dict.now) }
{
    match dict {
        Ok(words) => Some(words),
        Err(_) => None,
    }
}
