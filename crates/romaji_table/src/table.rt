ghost use Rattle.std.specs.Prelude.{◌≡◌, IfOk};
ghost use Rattle.mz_base.specs.Kana.{AreRules, IsView};

use crate::index::{is_open, longest_of, most_typed, places_by_input};
use mz_base::{NoMemory, Romaji, Rule, RuleView};
use std::alloc::Global;
use std::marker::Model;

/// A romaji table.
#[derive(Drop)]
pub struct Table {
    rules: Vec<Rule>,
    /// The places of the rules, in the order of their inputs.
    places: Vec<usize>,
    /// The characters of the longest input.
    most: usize,
}

impl Model for Table {
    ghost use Rattle.std.specs.Prelude.{List};
    ghost use Rattle.mz_base.specs.declared.romaji.Rule.{Rule};
    ghost use Rattle.romaji_table.specs.Index.{IsTable};

    ghost Value = { List Rule };

    ghost view = { λ t. t.rules.items };

    ghost invariant = { λ t. IsTable t.rules.items t.places.items t.most };
}

impl Table {
    pub fn from_rows(alloc: Global, rows: Vec<Rule>) -> Result<Table, NoMemory>
        requires { AreRules rows.items }
        ensures { IfOk result (λ table. table ≡ rows.items) }
    {
        let places = places_by_input(alloc, rows.as_slice())?;
        let most = most_typed(rows.as_slice());
        Ok(Table {
            rules: rows,
            places,
            most,
        })
    }

    /// The rules, in the order of their rows; those of a file, in the order of their inputs.
    pub fn rows(&self) -> &[Rule]
        ensures value { result.now ≡ self.now }
        ensures sound { AreRules self.now }
    {
        self.rules.as_slice()
    }
}

impl Romaji for Table {
    ghost rules = { λ t. t };

    fn longest(&self, text: &[char]) -> Option<RuleView<'_>> {
        match longest_of(
            self.rules.as_slice(),
            self.places.as_slice(),
            self.most,
            text,
        ) {
            Some(rule) => Some(view_of(rule)),
            None => None,
        }
    }

    fn is_open(&self, text: &[char]) -> bool {
        is_open(self.rules.as_slice(), self.places.as_slice(), text)
    }
}

fn view_of(rule: &Rule) -> RuleView<'_>
    ensures { IsView result rule.now }
{
    RuleView {
        length: rule.input.as_chars().len(),
        output: rule.output.as_chars(),
        pending: rule.pending.as_chars(),
    }
}
