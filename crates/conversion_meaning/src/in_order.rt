ghost use Rattle.conversion_meaning.specs.AnswerLaws.{BestIsFirst, FirstIsBest, InOrderAreOnce, InOrderArePaths, InOrderIsOne, InOrderRises, PathsAreInOrder};

/// The list of paths in order has each path.
pub fn paths_are_in_order()
    ensures { PathsAreInOrder }
{}

/// It has nothing else.
pub fn in_order_are_paths()
    ensures { InOrderArePaths }
{}

/// It has no path twice.
pub fn in_order_are_once()
    ensures { InOrderAreOnce }
{}

/// Each path is before all later ones.
pub fn in_order_rises()
    ensures { InOrderRises }
{}

/// A list that has just the paths over a span, each before all later ones, is this one.
pub fn in_order_is_one()
    ensures { InOrderIsOne }
{}

/// The first path in order is the best one.
pub fn first_is_best()
    ensures { FirstIsBest }
{}

/// The best path is the first in order.
pub fn best_is_first()
    ensures { BestIsFirst }
{}
