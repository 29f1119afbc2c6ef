ghost use Rattle.std.specs.Prelude.{◌≡◌, [], ◌∷◌, ◌++◌, IfOk, OnOk, replicate};
ghost use Rattle.viterbi.specs.Table.{no_reached, reached};

use crate::table::{Reached, not_reached};
use mz_base::NoMemory;
use std::alloc::Global;
use std::marker::Model;

/// The rows of a table by ordinal. Those of the entries that begin before the span say nothing, and take no room.
#[derive(Drop)]
pub struct Rows {
    /// How many entries begin before the span.
    before: usize,
    rows: Vec<Reached>,
}

impl Model for Rows {
    ghost use Rattle.std.specs.Prelude.{◌++◌, List, replicate};
    ghost use Rattle.viterbi.specs.Table.{no_reached};
    ghost use Rattle.viterbi.specs.declared.table.Reached.{Reached};

    ghost Value = { List Reached };

    ghost view = { λ r. replicate r.before no_reached ++ r.rows.items };
}

impl Rows {
    /// Rows of the entries before a span, with room for those of the span.
    pub fn new(alloc: Global, before: usize, room: usize) -> Result<Rows, NoMemory>
        ensures { IfOk result (λ rows. rows ≡ replicate before no_reached) }
    {
        let rows = Vec::with_capacity(alloc, room)?;
        Ok(Rows { before, rows })
    }

    /// Adds the row of the next entry.
    pub fn push(&mut self, row: &Reached) -> Result<(), NoMemory>
        ensures { OnOk result (self.new ≡ self.old ++ row.now ∷ []) }
    {
        self.rows.push(*row)?;
        Ok(())
    }

    /// The row at an ordinal; one that says nothing where there is none.
    pub fn at(&self, ordinal: usize) -> Reached
        ensures { result ≡ reached self.now ordinal }
    {
        if ordinal < self.before {
            return not_reached();
        }
        match self.rows.as_slice().get(ordinal - self.before) {
            Some(row) => *row,
            None => not_reached(),
        }
    }
}
