ghost use Rattle.std.specs.Prelude.{◌≡◌, List};
ghost use Rattle.mz_base.specs.Kana.{AreRules, Shows, is_open, longest};
ghost use Rattle.mz_base.specs.declared.romaji.Rule.{Rule};

use crate::Text;

/// A rule of a romaji table: `kk` gives っ and leaves `k` pending.
#[derive(Drop)]
pub struct Rule {
    /// What is typed, at least one character.
    pub input: Text,
    /// What is shown for it.
    pub output: Text,
    /// What is typed on, fewer characters than the input.
    pub pending: Text,
}

/// A rule as a look-up lends it.
#[derive(Clone, Copy)]
pub struct RuleView<'a> {
    /// The number of characters of the input.
    pub length: usize,
    pub output: &'a [char],
    pub pending: &'a [char],
}

/// A romaji table.
pub trait Romaji {
    /// The rules that it means. Their inputs are distinct.
    ghost rules: { Self → List Rule };

    /// The rule with the longest input that is a prefix of the text.
    fn longest(&self, text: &[char]) -> Option<RuleView<'_>>
        ensures found { Shows result (longest (rules self.now) text.now) }
        ensures sound { AreRules (rules self.now) };

    /// Whether the text is a proper prefix of a rule's input.
    fn is_open(&self, text: &[char]) -> bool
        ensures { result ≡ is_open (rules self.now) text.now };
}
