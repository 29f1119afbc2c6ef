ghost use Rattle.std.specs.Prelude.{◌≡◌, ◌<◌, ◌^◌, ◌-◌, ◌++◌, ◌∷◌, [], IfOk, OnOk, length, map};
ghost use Rattle.core_steps.specs.Plans.{reload_of};
ghost use Rattle.world_files.specs.Reloads.{reloads_of};
ghost use Rattle.world_files.specs.Users.{gift_of, plan_of, plans_from, user_of};

use crate::reload::{DictFault, Reload};
use core_steps::UserPlan;
use mz_base::{NoMemory, Seq, Text};
use std::alloc::Global;
use std::sync::Arc;
use user_dict::{ImportError, UserDict};

/// A user, and the reloads of the user's dictionary, by number from 1.
#[derive(Drop)]
pub struct User {
    pub name: Text,
    pub reloads: Seq<Reload>,
}

/// The user of this number and name, with the user's own of these reloads.
pub fn user_of(
    alloc: Global,
    reloads: &[Reload],
    number: u32,
    name: &Text,
) -> Result<User, NoMemory>
    ensures { IfOk result (λ user. user ≡ user_of reloads.now number name.now) }
{
    Ok(User {
        name: name.copy(alloc)?,
        reloads: Seq::from_vec(reloads_of(alloc, reloads, number)?),
    })
}

fn reloads_of(alloc: Global, reloads: &[Reload], number: u32) -> Result<Vec<Reload>, NoMemory>
    ensures { IfOk result (λ own. own.items ≡ reloads_of number reloads.now) }
{
    let mut own = Vec::new(alloc);
    for reload in reloads {
        put_own(&mut own, reload, number)?;
    }
    Ok(own)
}

fn put_own(own: &mut Vec<Reload>, reload: &Reload, number: u32) -> Result<(), NoMemory>
    ensures { OnOk result (own.new.items ≡ own.old.items ++ reloads_of number (reload.now ∷ [])) }
{
    if reload.user == number {
        own.push(reload.share()?)?;
    }
    Ok(())
}

/// The users of a run, by number from 1, with their own of these reloads.
pub fn plans_of(
    alloc: Global,
    reloads: &[Reload],
    names: &[Text],
) -> Result<Vec<UserPlan>, NoMemory>
    requires { length names.now < 2 ^ 32 - 1 }
    ensures { IfOk result (λ plans. plans.items ≡ plans_from reloads.now 1 names.now) }
{
    let mut plans = Vec::new(alloc);
    for (index, name) in names.iter().enumerate() {
        plans.push(plan_of(alloc, reloads, index as u32 + 1, name)?)?;
    }
    Ok(plans)
}

fn plan_of(
    alloc: Global,
    reloads: &[Reload],
    number: u32,
    name: &Text,
) -> Result<UserPlan, NoMemory>
    ensures { IfOk result (λ plan. plan ≡ plan_of reloads.now number name.now) }
{
    Ok(UserPlan {
        name: name.copy(alloc)?,
        dicts: gifts_of(alloc, reloads, number)?,
    })
}

/// What the files of a user's reloads gave.
fn gifts_of(
    alloc: Global,
    reloads: &[Reload],
    number: u32,
) -> Result<Vec<Result<Arc<UserDict>, ImportError>>, NoMemory>
    ensures { IfOk result (λ gifts. map reload_of gifts.items ≡ map gift_of (reloads_of number reloads.now)) }
{
    let mut gifts = Vec::new(alloc);
    for reload in reloads {
        put_gift(&mut gifts, reload, number)?;
    }
    Ok(gifts)
}

fn put_gift(
    gifts: &mut Vec<Result<Arc<UserDict>, ImportError>>,
    reload: &Reload,
    number: u32,
) -> Result<(), NoMemory>
    ensures { OnOk result (map reload_of gifts.new.items ≡ map reload_of gifts.old.items ++ map gift_of (reloads_of number (reload.now ∷ []))) }
{
    if reload.user == number {
        gifts.push(gift_of(reload)?)?;
    }
    Ok(())
}

/// What the file of a reload gave, shared.
fn gift_of(reload: &Reload) -> Result<Result<Arc<UserDict>, ImportError>, NoMemory>
    ensures { IfOk result (λ gift. reload_of gift ≡ gift_of reload.now) }
{
    match &reload.dict {
        Ok(dict) => Ok(Ok(Arc::try_clone(dict)?)),
        Err(DictFault::NotUtf8(line)) => Ok(Err(ImportError::NotUtf8(*line))),
        Err(DictFault::Limit(line)) => Ok(Err(ImportError::Limit(*line))),
    }
}
