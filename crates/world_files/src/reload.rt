ghost use Rattle.std.specs.Prelude.{◌≡◌, IfOk};
ghost use Rattle.world_files.specs.Reloads.{note_of};

use mz_base::{DictNote, NoMemory};
use std::marker::Model;
use std::sync::Arc;
use user_dict::UserDict;

/// A reload of a user's dictionary.
#[derive(Drop)]
pub struct Reload {
    /// The number of the user, from 1.
    pub user: u32,
    /// The dictionary, shared, or why the file gives none.
    pub dict: Result<Arc<UserDict>, DictFault>,
}

/// Why a file gives no dictionary.
#[derive(Clone, Copy)]
pub enum DictFault {
    /// The line, from 1, is no text.
    NotUtf8(u64),
    /// The row of this line is one too many.
    Limit(u64),
}

impl Model for Reload {
    ghost use Rattle.std.specs.Arc.{arc_value};
    ghost use Rattle.std.specs.Result.{result_map_both};
    ghost use Rattle.user_dict.specs.Dictionaries.{taken_in};
    ghost use Rattle.world_files.specs.Reloads.{Reload as Meant};

    ghost Value = { Meant };

    ghost view = { λ r. record { user = r.user; gives = result_map_both (λ dict. taken_in (arc_value dict)) (λ fault. fault) r.dict } };
}

impl Reload {
    /// What is noted of it.
    pub fn note(&self) -> DictNote
        ensures { result ≡ note_of self.now }
    {
        match &self.dict {
            Ok(dict) => DictNote::Read {
                kept: dict.rows().len() as u64,
                skipped: dict.skipped().len() as u64,
            },
            Err(DictFault::NotUtf8(line)) => DictNote::NotUtf8(*line),
            Err(DictFault::Limit(line)) => DictNote::Limit(*line),
        }
    }

    /// The same reload, shared.
    pub fn share(&self) -> Result<Reload, NoMemory>
        ensures { IfOk result (λ shared. shared ≡ self.now) }
    {
        let dict = match &self.dict {
            Ok(dict) => Ok(Arc::try_clone(dict)?),
            Err(fault) => Err(*fault),
        };
        Ok(Reload {
            user: self.user,
            dict,
        })
    }
}
