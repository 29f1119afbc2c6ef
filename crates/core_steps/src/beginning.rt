ghost use Rattle.std.specs.Prelude.{◌≡◌, IfOk, map};
ghost use Rattle.run_meaning.specs.States.{begun_with, client_log, first_logs, user_log};
ghost use Rattle.run_meaning.specs.Worlds.{IsWorld, note_of};
ghost use Rattle.core_steps.specs.Cores.{beginning};
ghost use Rattle.core_steps.specs.Kepts.{IsKept, ran};
ghost use Rattle.core_steps.specs.Standings.{AreFirst};
ghost use Rattle.core_steps.specs.Plans.{reload_of};

use crate::board::Board;
use crate::plans::{ClientPlan, UserPlan, World};
use crate::progress::Progress;
use crate::running::Running;
use crate::standing::Standing;
use mz_base::{ClientLog, DataSet, DictNote, Logs, NoMemory, Seq, UserLog};
use std::alloc::Global;
use std::sync::Arc;
use user_dict::{ImportError, UserDict};

impl<D: DataSet + Drop> Running<D> {
    /// A run before any event.
    pub fn new(alloc: Global, world: World<D>) -> Result<Running<D>, NoMemory>
        requires { IsWorld world }
        ensures { IfOk result (λ made. (ran made ≡ beginning world) × IsKept made) }
    {
        let logs = first_logs(alloc, &world)?;
        let World {
            jobs,
            users,
            clients,
            ..
        } = world;
        let board = Board::new(alloc, jobs.len())?;
        Ok(Running {
            alloc,
            jobs,
            board,
            users: standings(alloc, users)?,
            clients: progresses(alloc, clients)?,
            logs,
        })
    }
}

/// The users, with empty journals.
fn standings(alloc: Global, plans: Vec<UserPlan>) -> Result<Vec<Standing>, NoMemory>
    ensures { IfOk result (λ made. AreFirst plans.items made.items) }
{
    let mut made = Vec::new(alloc);
    for plan in plans {
        made.push(Standing::new(alloc, plan)?)?;
    }
    Ok(made)
}

/// The clients, which have not begun.
fn progresses<D: DataSet + Drop>(
    alloc: Global,
    plans: Vec<ClientPlan>,
) -> Result<Vec<Progress<D>>, NoMemory>
    ensures plans { IfOk result (λ made. map (λ client. client.plan) made.items ≡ plans.items) }
    ensures progress { IfOk result (λ made. map (λ client. client.progress) made.items ≡ map (λ plan. begun_with plan.commands) plans.items) }
{
    let mut made = Vec::new(alloc);
    for plan in plans {
        made.push(Progress::new(alloc, plan))?;
    }
    Ok(made)
}

/// The logs before any event.
fn first_logs<D: DataSet>(alloc: Global, world: &World<D>) -> Result<Logs, NoMemory>
    ensures { IfOk result (λ logs. logs ≡ first_logs world.now) }
{
    Ok(Logs {
        clients: client_logs(alloc, world.clients.as_slice())?,
        jobs: Seq::from_vec(Vec::new(alloc)),
        closed: false,
        users: user_logs(alloc, world.users.as_slice())?,
        events: Seq::from_vec(Vec::new(alloc)),
        certificates: if world.certificates {
            Some(Seq::from_vec(Vec::new(alloc)))
        } else {
            None
        },
    })
}

fn client_logs(alloc: Global, plans: &[ClientPlan]) -> Result<Seq<ClientLog>, NoMemory>
    ensures { IfOk result (λ logs. logs ≡ map client_log plans.now) }
{
    let mut logs = Vec::new(alloc);
    for plan in plans {
        logs.push(client_log(alloc, plan)?)?;
    }
    Ok(Seq::from_vec(logs))
}

fn client_log(alloc: Global, plan: &ClientPlan) -> Result<ClientLog, NoMemory>
    ensures { IfOk result (λ log. log ≡ client_log plan.now) }
{
    Ok(ClientLog {
        name: plan.name.copy(alloc)?,
        user: plan.user,
        lines: Seq::from_vec(Vec::new(alloc)),
        own: Seq::from_vec(Vec::new(alloc)),
    })
}

fn user_logs(alloc: Global, plans: &[UserPlan]) -> Result<Seq<UserLog>, NoMemory>
    ensures { IfOk result (λ logs. logs ≡ map user_log plans.now) }
{
    let mut logs = Vec::new(alloc);
    for plan in plans {
        logs.push(user_log(alloc, plan)?)?;
    }
    Ok(Seq::from_vec(logs))
}

fn user_log(alloc: Global, plan: &UserPlan) -> Result<UserLog, NoMemory>
    ensures { IfOk result (λ log. log ≡ user_log plan.now) }
{
    Ok(UserLog {
        name: plan.name.copy(alloc)?,
        dicts: notes(alloc, plan.dicts.as_slice())?,
        entries: Seq::from_vec(Vec::new(alloc)),
    })
}

fn notes(
    alloc: Global,
    dicts: &[Result<Arc<UserDict>, ImportError>],
) -> Result<Seq<DictNote>, NoMemory>
    ensures { IfOk result (λ notes. notes ≡ map note_of (map reload_of dicts.now)) }
{
    let mut notes = Vec::new(alloc);
    for dict in dicts {
        notes.push(note_of(dict))?;
    }
    Ok(Seq::from_vec(notes))
}

/// What is noted of a reload. Want of memory is no file's fault.
fn note_of(dict: &Result<Arc<UserDict>, ImportError>) -> DictNote
    ensures { result ≡ note_of (reload_of dict.now) }
{
    match dict {
        Ok(words) => DictNote::Read {
            kept: words.rows().len() as u64,
            skipped: words.skipped().len() as u64,
        },
        Err(ImportError::NotUtf8(line)) => DictNote::NotUtf8(*line),
        Err(ImportError::Limit(line)) => DictNote::Limit(*line),
        Err(ImportError::NoMemory) => DictNote::NotUtf8(0),
    }
}
