ghost use Rattle.rewrite_rules.specs.Laws.{AgainIsOnce, ChosenIsMoved, DistinctStay, RulesAdd};
ghost use Rattle.rewrite_rules.specs.Worth.{SpelledIsWorth};

/// A number that is written with units is worth itself.
pub fn numbers_are_worth_themselves()
    ensures { SpelledIsWorth }
{}

/// Rules 2 to 6 keep the list in front, and add values that stood nowhere before, without a cost.
pub fn rules_add()
    ensures { RulesAdd }
{}

/// Rule 1 leaves a list as it is, or moves one candidate to the front.
pub fn chosen_is_moved()
    ensures { ChosenIsMoved }
{}

/// Distinct values stay distinct.
pub fn distinct_values_stay()
    ensures { DistinctStay }
{}

/// A rule from 2 to 6 that is applied again changes nothing.
pub fn again_is_once()
    ensures { AgainIsOnce }
{}
