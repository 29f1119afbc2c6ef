ghost use Rattle.std.specs.Prelude.{◌≡◌, IfOk, OnOk};
ghost use Rattle.conversion_meaning.specs.Rules.{rewritten, rewritten_by, values_by, with_values};
ghost use Rattle.rewrite_rules.specs.Newest.{asked};

use crate::candidates::{add_values, copies};
use crate::history::chosen_first;
use crate::kana::add_kana;
use crate::numbers::add_numbers;
use crate::wide::add_wide;
use mz_base::{Ask, Candidate, DataSet, NoMemory};
use std::alloc::Global;

/// What a rule makes of a list: 1 puts what was chosen last for the key first; 2 to 6 add kana, numbers, full width,
/// symbols and kanji, each where no candidate has it. Any other number leaves the list as it is.
pub fn apply<D: DataSet>(
    alloc: Global,
    rule: u8,
    ask: &Ask<'_, D>,
    list: &[Candidate],
) -> Result<Vec<Candidate>, NoMemory>
    ensures { IfOk result (λ made. made.items ≡ rewritten rule (asked (D.lists ask.now.set.now) ask.now.history.now ask.now.key.now) list.now) }
{
    let copied = copies(alloc, list)?;
    rewrite(alloc, rule, ask, copied)
}

/// The same of a list that is no longer wanted as it was, without a copy.
#[tactic(auto, unfolding(conversion_meaning::specs::Rules::rewritten))]
pub fn rewrite<D: DataSet>(
    alloc: Global,
    rule: u8,
    ask: &Ask<'_, D>,
    list: Vec<Candidate>,
) -> Result<Vec<Candidate>, NoMemory>
    ensures { IfOk result (λ made. made.items ≡ rewritten rule (asked (D.lists ask.now.set.now) ask.now.history.now ask.now.key.now) list.items) }
{
    if rule == 1 {
        return chosen_first(alloc, ask.history, ask.key, list);
    }
    let mut made = list;
    add_by(alloc, rule, ask, &mut made)?;
    Ok(made)
}

/// What the rules of these numbers make of it, one after the other.
pub fn rewrite_by<D: DataSet>(
    alloc: Global,
    numbers: &[u8],
    ask: &Ask<'_, D>,
    list: Vec<Candidate>,
) -> Result<Vec<Candidate>, NoMemory>
    ensures { IfOk result (λ made. made.items ≡ rewritten_by numbers.now (asked (D.lists ask.now.set.now) ask.now.history.now ask.now.key.now) list.items) }
{
    let mut made = list;
    for rule in numbers {
        made = rewrite(alloc, *rule, ask, made)?;
    }
    Ok(made)
}

/// Adds what a rule adds.
fn add_by<D: DataSet>(
    alloc: Global,
    rule: u8,
    ask: &Ask<'_, D>,
    list: &mut Vec<Candidate>,
) -> Result<(), NoMemory>
    ensures { OnOk result (list.new.items ≡ with_values list.old.items (values_by rule (asked (D.lists ask.now.set.now) ask.now.history.now ask.now.key.now) list.old.items)) }
{
    if rule == 2 {
        return add_kana(alloc, list, ask.key);
    }
    if rule == 3 {
        return add_numbers(alloc, list, ask.key);
    }
    if rule == 4 {
        return add_wide(alloc, list);
    }
    if rule == 5 {
        return add_values(alloc, list, ask.set.symbols(ask.key));
    }
    if rule == 6 {
        return add_values(alloc, list, ask.set.kanji(ask.key));
    }
    Ok(())
}
