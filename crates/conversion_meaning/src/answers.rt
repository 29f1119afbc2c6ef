ghost use Rattle.conversion_meaning.specs.AnswerLaws.{FirstAnswerIsFirst, FirstAnswerIsOne, LeastCostsAreLeast, LeastCostsAreOne};

/// The least costs of a span, as a function, are least costs.
pub fn least_costs_are_least()
    ensures { LeastCostsAreLeast }
{}

/// A span has one list of least costs.
pub fn least_costs_are_one()
    ensures { LeastCostsAreOne }
{}

/// The first answer to a key has the best path over its lattice, the least costs and the path's cost.
pub fn first_answer_is_first()
    ensures { FirstAnswerIsFirst }
{}

/// A key has one first answer.
pub fn first_answer_is_one()
    ensures { FirstAnswerIsOne }
{}
