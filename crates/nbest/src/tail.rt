ghost use Rattle.std.specs.Prelude.{◌≡◌, ◌<◌, ◌∷◌, [], true, false, length};
ghost use Rattle.nbest.specs.Tails.{IsFamily, ending, family};

use crate::chain::Chain;
use std::sync::Arc;

/// The last entries of paths over a span. The order of tails is that in which a search looks at them: by the least cost
/// of a path that ends so, then by the ordinals from the last entry on.
#[derive(PartialEq, Eq, PartialOrd, Ord, Drop)]
pub struct Tail {
    /// The least cost of a path that ends so.
    pub estimate: i64,
    /// The ordinals, from the last entry to the first.
    pub ordinals: Chain,
    /// What may stand in the place of its first entry, in order.
    pub siblings: Arc<Vec<Sibling>>,
    /// From where on the siblings are behind this tail.
    pub next: usize,
    /// What the entries after the first one cost, with the connections to them and between them but for the first.
    pub rest: i64,
}

/// The first entry of a tail, by its ordinal, and what it adds to the estimate: the least cost of a list that ends with it,
/// and its connection to what comes after it.
#[derive(Clone, Copy, PartialEq, Eq, PartialOrd, Ord)]
pub struct Sibling {
    pub added: i64,
    pub ordinal: u32,
}

/// Puts the next sibling in the place of a tail's first entry, and says whether there is one.
pub fn pass_to_next(tail: &mut Tail) -> bool
    requires { IsFamily tail.old }
    ensures next { result ≡ true → family tail.old ≡ ending tail.old ∷ family tail.new }
    ensures last { result ≡ false → family tail.old ≡ ending tail.old ∷ [] }
    ensures some { 0 < length tail.new.ordinals }
{
    let Some(next) = tail.siblings.as_slice().get(tail.next) else {
        return false;
    };
    let sibling = *next;
    tail.ordinals.set_first(sibling.ordinal);
    tail.estimate = sibling.added + tail.rest;
    tail.next += 1;
    true
}
