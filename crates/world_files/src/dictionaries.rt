ghost use Rattle.std.specs.Prelude.{◌≡◌, ◌≢◌, [], Some, Ok, Err, IfOk};
ghost use Rattle.user_dict.specs.Dictionaries.{taken_in};
ghost use Rattle.world_files.specs.Dictionaries.{reload_in, reload_of, reloads_after};
ghost use Rattle.world_files.specs.Reading.{Files, Reads, Tells};
ghost use Rattle.world_files.specs.Sound.{AreReloadsOf};

use crate::reading::read_file;
use crate::reload::{DictFault, Reload};
use mz_base::{Refusal, Seq};
use mz_outside::Store;
use scenario::DictLine;
use std::alloc::Global;
use std::sync::Arc;
use user_dict::{ImportError, UserDict, import};

/// The reloads of a manifest, and how many bytes may be read after them.
#[derive(Drop)]
pub struct Reloads {
    pub reloads: Seq<Reload>,
    pub left: usize,
}

/// The reloads of these lines, in their order. A file that two lines name is read twice.
pub fn read_reloads<S: Store>(
    alloc: Global,
    store: &mut S,
    left: usize,
    lines: &[DictLine],
) -> Result<Reloads, Refusal>
    ensures told { (files : Files) → S.files store.old ≡ Some files → Tells (λ dicts. dicts) result (reloads_after files [] left lines.now) }
    ensures of { IfOk result (λ dicts. AreReloadsOf lines.now dicts.reloads) }
    ensures reads { Reads (S.files store.old) (S.files store.new) (S.faults store.old) (S.faults store.new) result }
{
    let mut reloads = Vec::new(alloc);
    let mut unread = left;
    for line in lines {
        let bytes = read_file(alloc, store, unread, &line.path)?;
        unread -= bytes.len();
        reloads.push(reload_of(alloc, line, bytes.as_slice())?)?;
    }
    Ok(Reloads {
        reloads: Seq::from_vec(reloads),
        left: unread,
    })
}

fn reload_of(alloc: Global, line: &DictLine, bytes: &[u8]) -> Result<Reload, Refusal>
    ensures told { Tells (λ reload. reload) result (reload_of line.now bytes.now) }
    ensures user { IfOk result (λ reload. reload.user ≡ line.now.user) }
    ensures reads_nothing { result ≢ Err Refusal.ReadFault }
{
    let user = line.user;
    match import(alloc, bytes) {
        Ok(dict) => read_reload(alloc, user, dict),
        Err(ImportError::NotUtf8(line)) => Ok(refused(user, DictFault::NotUtf8(line))),
        Err(ImportError::Limit(line)) => Ok(refused(user, DictFault::Limit(line))),
        Err(ImportError::NoMemory) => Err(Refusal::Memory),
    }
}

fn refused(user: u32, fault: DictFault) -> Reload
    ensures { result ≡ record { user = user; gives = Err fault } }
{
    Reload {
        user,
        dict: Err(fault),
    }
}

fn read_reload(alloc: Global, user: u32, dict: UserDict) -> Result<Reload, Refusal>
    ensures told { Tells (λ reload. reload) result (reload_in user (Ok (taken_in dict))) }
    ensures user { IfOk result (λ reload. reload.user ≡ user) }
    ensures reads_nothing { result ≢ Err Refusal.ReadFault }
{
    Ok(Reload {
        user,
        dict: Ok(Arc::new(alloc, dict)?),
    })
}
