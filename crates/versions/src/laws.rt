//! What follows from the definitions of specs/Histories.antt, for all histories.
//! A caller of these learns them; nothing runs.

ghost use Rattle.std.specs.Prelude.{◌≡◌, ℕ, ◌+◌, ◌≤◌, [], ◌∷◌, ◌++◌, length, Some};
ghost use Rattle.versions.specs.Histories.{Prefix, after_operation, entries_of, latest, Begins, IsPlace};

/// An operation leaves its value, adds its entry, makes the place one more, and keeps what was before.
pub fn an_operation_adds<T, E>()
    ensures value { (p : Prefix T E) (value : T) (entry : E) → latest (after_operation p value entry).log ≡ Some value }
    ensures entry { (p : Prefix T E) (value : T) (entry : E) → entries_of (after_operation p value entry).log ≡ entries_of p.log ++ entry ∷ [] }
    ensures place { (p : Prefix T E) (value : T) (entry : E) (n : ℕ) → IsPlace n p.log → IsPlace (n + 1) (after_operation p value entry).log }
    ensures begins { (p : Prefix T E) (value : T) (entry : E) → Begins p (after_operation p value entry) }
{}

/// Of two prefixes of one history the shorter begins the longer.
pub fn the_shorter_begins_the_longer<T, E>()
    ensures { (p q whole : Prefix T E) → Begins p whole → Begins q whole → length p.log ≤ length q.log → Begins p q }
{}
