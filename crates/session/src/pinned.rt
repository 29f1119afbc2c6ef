ghost use Rattle.std.specs.Prelude.{◌≡◌, IfOk};
ghost use Rattle.mz_base.specs.Data.{AreDataSound};
ghost use Rattle.session_meaning.specs.Reached.{IsPinnedSound};

use mz_base::{DataSet, NoMemory, Pair, UserWords};
use std::marker::Model;
use std::sync::Arc;

/// The data that a composition keeps until its commit or cancel. They are shared, so that no copy of them is made.
#[derive(Drop)]
pub struct Pinned<D: DataSet, U: UserWords> {
    /// The number of the job that published the data set, from 1.
    pub version: u32,
    pub set: Arc<D>,
    /// What the user chose before, the newest first.
    pub history: Arc<Vec<Pair>>,
    pub words: Arc<U>,
}

impl<D: DataSet, U: UserWords> Model for Pinned<D, U> {
    ghost use Rattle.std.specs.Arc.{arc_value};
    ghost use Rattle.session_meaning.specs.Stages.{Pinned as Meant};

    ghost Value = { Meant };

    ghost view = { λ p. record { version = p.version; lists = D.lists (arc_value p.set); history = (arc_value p.history).items; rows = U.rows (arc_value p.words) } };
}

impl<D: DataSet + Drop, U: UserWords + Drop> Pinned<D, U> {
    /// The data are within their limits. Nothing runs.
    pub fn data_are_sound(&self)
        ensures { IsPinnedSound self.now }
    {
        set_is_sound(&*self.set);
    }

    /// The same data, shared.
    pub fn share(&self) -> Result<Pinned<D, U>, NoMemory>
        ensures { IfOk result (λ shared. shared ≡ self.now) }
    {
        Ok(Pinned {
            version: self.version,
            set: Arc::try_clone(&self.set)?,
            history: Arc::try_clone(&self.history)?,
            words: Arc::try_clone(&self.words)?,
        })
    }
}

/// A data set is within its limits. Nothing runs.
fn set_is_sound<D: DataSet>(_set: &D)
    ensures { AreDataSound (D.lists _set.now) }
{}
