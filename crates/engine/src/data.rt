ghost use Rattle.std.specs.Prelude.{◌≡◌, length};
ghost use Rattle.mz_base.specs.Data.{AreDataSound};
ghost use Rattle.dict_index.specs.Cheapest.{indexed_rows};
ghost use Rattle.std.proofs.Props.{props};
ghost use Rattle.engine.specs.Props.{AreDistinct-prop};
ghost use Rattle.engine.specs.Tables.{data_in};

use crate::tables::Tables;
use dict_index::{SortedIndex, WordIndex};
use mz_base::{Class, DataSet, Hit, NoMemory, PricedRow, Romaji, RuleView, Text, WordView};
use std::alloc::Global;

/// A data set.
#[derive(Drop)]
pub struct Engine {
    tables: Tables,
    index: SortedIndex,
    ghost sound: { AreDataSound (data_in tables) } by { Prim.hlevel (props, AreDistinct-prop) },
    ghost indexed: { index ≡ indexed_rows (data_in tables).words },
}

impl Engine {
    /// The data set of these tables, with the index of their words.
    pub(crate) fn of(tables: Tables, index: SortedIndex) -> Engine
        requires sound { AreDataSound (data_in tables) }
        requires indexed { index ≡ indexed_rows (data_in tables).words }
        ensures { ⟦<Engine as DataSet>⟧.lists result ≡ data_in tables }
    {
        Engine { tables, index }
    }

    /// The number of word rows.
    pub fn word_count(&self) -> usize
        ensures { result ≡ length (⟦<Engine as DataSet>⟧.lists self.now).words }
    {
        self.tables.words.len()
    }

    /// The number of romaji rules, whose inputs are distinct.
    pub fn rule_count(&self) -> usize
        ensures { result ≡ length (⟦<Engine as DataSet>⟧.lists self.now).rules }
    {
        self.tables.rules.rows().len()
    }
}

impl Romaji for Engine {
    ghost use Rattle.engine.specs.Lists.{lists_of};

    ghost rules = { λ engine. (lists_of engine).rules };

    fn longest(&self, text: &[char]) -> Option<RuleView<'_>> {
        self.tables.rules.longest(text)
    }

    fn is_open(&self, text: &[char]) -> bool {
        self.tables.rules.is_open(text)
    }
}

impl DataSet for Engine {
    ghost use Rattle.std.specs.Prelude.{refl};
    ghost use Rattle.engine.specs.Lists.{lists_of};

    ghost lists = { lists_of };

    ghost sound = { λ engine. engine.sound };

    ghost same_rules = { λ _. refl };

    fn ids(&self) -> u32 {
        self.tables.matrix.size()
    }

    #[tactic(auto, unfolding(mz_base::specs::Data::connection))]
    fn conn(&self, r: u16, l: u16) -> i32 {
        self.tables.matrix.cost(r, l)
    }

    #[tactic(auto, unfolding(mz_base::specs::Data::joins))]
    fn joins(&self, r: u16, l: u16) -> bool {
        self.tables.joins.joins(r, l)
    }

    #[tactic(auto, unfolding(mz_base::specs::Data::unknown_of))]
    fn unknown(&self, class: Class) -> (u16, i32) {
        self.tables.unknown.unknown(class)
    }

    #[tactic(auto, unfolding(mz_base::specs::Data::pos_of))]
    fn pos(&self, name: &[char]) -> Option<(u16, i32)> {
        self.tables.pos.pos(name)
    }

    #[tactic(auto, unfolding(mz_base::specs::Data::word_at))]
    fn word(&self, row: u32) -> WordView<'_> {
        let word = &self.tables.words[row as usize];
        WordView {
            reading: word.reading.as_chars(),
            lid: word.lid,
            rid: word.rid,
            cost: word.cost,
            value: word.value.as_chars(),
        }
    }

    fn words_at(&self, alloc: Global, key: &[char], begin: usize) -> Result<Vec<Hit>, NoMemory> {
        self.index.words_at(alloc, key, begin)
    }

    fn words_with_prefix(&self, alloc: Global, prefix: &[char]) -> Result<Vec<u32>, NoMemory> {
        self.index.words_with_prefix(alloc, prefix)
    }

    fn cheapest_with_prefix(
        &self,
        alloc: Global,
        prefix: &[char],
        most: usize,
    ) -> Result<Vec<PricedRow>, NoMemory> {
        self.index.cheapest_with_prefix(alloc, prefix, most)
    }

    fn symbols(&self, reading: &[char]) -> &[Text] {
        self.tables.symbols.symbols(reading)
    }

    fn kanji(&self, reading: &[char]) -> &[Text] {
        self.tables.kanji.kanji(reading)
    }
}
