//! What follows from the definitions of specs/. A caller of these learns them; nothing runs.

ghost use Rattle.std.specs.Prelude.{◌≡◌, ◌⊎◌, ℕ, List, ◌∷◌, [], IsSome};
ghost use Rattle.std.specs.List.{AllByRecursion};
ghost use Rattle.mz_base.specs.declared.report.Mode.{Mode};
ghost use Rattle.mz_base.specs.declared.report.Mode.TheVariants as mode;
ghost use Rattle.keys.specs.Bindings.{IsChar, action_in};
ghost use Rattle.keys.specs.Names.{IsAmong, IsSingle, key_of, key_of_char, names};
ghost use Rattle.keys.specs.declared.key.Key.{Key};
ghost use Rattle.keys.specs.declared.key.Key.TheVariants.{Char};

/// Each name is that of its key, and no other name stands before it.
#[tactic(auto, unfolding(crate::specs::Names::key_of))]
pub fn names_have_their_keys()
    ensures { AllByRecursion (λ named. key_of named.0 ≡ Some named.1) names }
{}

/// Each key is that of one of the names, or of a single character.
pub fn keys_are_named_or_characters()
    ensures { (name : List ℕ) (k : Key) → key_of name ≡ Some k → IsAmong names name k ⊎ IsSingle name k }
{}

/// A single character names its own key.
#[tactic(auto, unfolding(crate::specs::Names::key_of))]
pub fn characters_name_their_keys()
    ensures { (c : ℕ) → key_of (c ∷ []) ≡ key_of_char c }
{}

/// A character has a row in each mode.
pub fn characters_are_bound()
    ensures { (m : Mode) (c : ℕ) → IsSome (action_in m (Char c)) }
{}

/// In precomposition nothing else has a row.
pub fn precomposition_binds_characters_alone()
    ensures { (key : Key) → IsSome (action_in mode.P key) → IsChar key }
{}
