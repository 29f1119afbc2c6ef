ghost use Rattle.std.specs.Prelude.{◌≡◌, ◌++◌, map, IfOk, OnOk, slice_index_or, []};
ghost use Rattle.mz_base.specs.Data.{readings, rows_with};
ghost use Rattle.conversion_meaning.specs.Examples.{set};

use mz_base::{Class, DataSet, Hit, NoMemory, Romaji, RuleView, Text, WordView};
use std::alloc::Global;

/// The reading きょう.
pub static KYOU: [char; 3] = ['き', 'ょ', 'う'];

/// The reading は, and its value.
pub static HA: [char; 1] = ['は'];

/// The value 今日.
pub static TODAY: [char; 2] = ['今', '日'];

/// The part of speech 名詞.
pub static NOUN: [char; 2] = ['名', '詞'];

/// The part of speech 抑制単語.
pub static SUPPRESSED: [char; 4] = ['抑', '制', '単', '語'];

static MO: [char; 1] = ['も'];

static CAPITAL: [char; 1] = ['京'];

static LEAF: [char; 1] = ['葉'];

static SEAWEED: [char; 1] = ['藻'];

static MOURNING: [char; 1] = ['喪'];

const COSTS: [i32; 9] = [0, 100, 500, 100, 400, 50, 200, 100, 800];

// きょう 今日, きょう 京, は は, は 葉, も 藻, も 喪.
const WORDS: u32 = 6;

/// The data set of the worked examples. It has no romaji rules, and its look-ups go over all words.
#[derive(Drop)]
pub struct ExampleSet;

impl Romaji for ExampleSet {
    ghost use Rattle.std.specs.Prelude.{[]};

    ghost rules = { λ _. [] };

    fn longest(&self, _text: &[char]) -> Option<RuleView<'_>> {
        None
    }

    fn is_open(&self, _text: &[char]) -> bool {
        false
    }
}

impl DataSet for ExampleSet {
    ghost use Rattle.std.specs.Prelude.{refl};
    ghost use Rattle.conversion_meaning.specs.Examples.{set};
    ghost use Rattle.conversion_meaning.proofs.SetLemmas.{AreDataSound-set};

    ghost lists = { λ _. set };

    ghost sound = { λ _. AreDataSound-set };

    ghost same_rules = { λ _. refl };

    fn ids(&self) -> u32 {
        3
    }

    #[tactic(auto, unfolding(mz_base::specs::Data::connection))]
    fn conn(&self, r: u16, l: u16) -> i32 {
        COSTS[usize::from(r) * 3 + usize::from(l)]
    }

    #[tactic(auto, unfolding(mz_base::specs::Data::joins))]
    fn joins(&self, r: u16, l: u16) -> bool {
        r == 1 && l == 2
    }

    #[tactic(auto, unfolding(mz_base::specs::Data::unknown_of))]
    fn unknown(&self, class: Class) -> (u16, i32) {
        match class {
            Class::Hiragana => (1, 5000),
            Class::Katakana => (1, 6000),
            Class::Digit => (1, 6000),
            Class::Letter => (1, 6000),
            Class::Other => (1, 6000),
        }
    }

    #[tactic(auto, unfolding(mz_base::specs::Data::pos_of))]
    fn pos(&self, name: &[char]) -> Option<(u16, i32)> {
        if name == NOUN.as_slice() {
            Some((1, 100))
        } else if name == SUPPRESSED.as_slice() {
            Some((2, 200))
        } else {
            None
        }
    }

    #[tactic(auto, unfolding(mz_base::specs::Data::word_at))]
    fn word(&self, row: u32) -> WordView<'_> {
        match row {
            0 => view(&KYOU, 1, 300, &TODAY),
            1 => view(&KYOU, 1, 350, &CAPITAL),
            2 => view(&HA, 2, 100, &HA),
            3 => view(&HA, 1, 600, &LEAF),
            4 => view(&MO, 1, 300, &SEAWEED),
            5 => view(&MO, 1, 300, &MOURNING),
            _ => unreachable!(),
        }
    }

    fn words_at(&self, alloc: Global, key: &[char], begin: usize) -> Result<Vec<Hit>, NoMemory> {
        let mut hits = Vec::new(alloc);
        for end in begin + 1..key.len() + 1 {
            push_hits(alloc, &key[begin..end], end as u16, &mut hits)?;
        }
        Ok(hits)
    }

    #[tactic(auto, unfolding(mz_base::specs::Data::places))]
    fn words_with_prefix(&self, alloc: Global, prefix: &[char]) -> Result<Vec<u32>, NoMemory> {
        let rows = (0..WORDS)
            .filter(|row| reading(*row).starts_with(prefix))
            .collect(alloc)?;
        Ok(rows)
    }

    #[tactic(auto, unfolding(mz_base::specs::Data::values_of))]
    fn symbols(&self, _reading: &[char]) -> &[Text] {
        &[]
    }

    #[tactic(auto, unfolding(mz_base::specs::Data::values_of, mz_base::specs::Data::kanji_rows))]
    fn kanji(&self, _reading: &[char]) -> &[Text] {
        &[]
    }
}

fn view<'a>(reading: &'a [char], id: u16, cost: i32, value: &'a [char]) -> WordView<'a>
    ensures { result ≡ record { reading = reading.entry; lid = id; rid = id; cost = cost; value = value.entry } }
{
    WordView {
        reading,
        lid: id,
        rid: id,
        cost,
        value,
    }
}

fn reading(row: u32) -> &'static [char]
    ensures { result.now ≡ slice_index_or (readings set) row [] }
{
    match row {
        0 => &KYOU,
        1 => &KYOU,
        2 => &HA,
        3 => &HA,
        4 => &MO,
        5 => &MO,
        _ => &[],
    }
}

fn push_hits(alloc: Global, text: &[char], end: u16, out: &mut Vec<Hit>) -> Result<(), NoMemory>
    ensures { OnOk result (out.new.items ≡ out.old.items ++ map (λ row. record { end = end; row = row }) (rows_with (readings set) text.now)) }
{
    let rows = rows_of(alloc, text)?;
    for row in &rows {
        out.push(Hit { end, row: *row })?;
    }
    Ok(())
}

#[tactic(auto, unfolding(mz_base::specs::Data::places))]
fn rows_of(alloc: Global, text: &[char]) -> Result<Vec<u32>, NoMemory>
    ensures { IfOk result (λ rows. rows.items ≡ rows_with (readings set) text.now) }
{
    let rows = (0..WORDS)
        .filter(|row| reading(*row) == text)
        .collect(alloc)?;
    Ok(rows)
}
