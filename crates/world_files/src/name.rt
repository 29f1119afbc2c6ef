ghost use Rattle.std.specs.Prelude.{◌≡◌, IfOk, length};
ghost use Rattle.std.specs.Str.{chars};

use mz_base::{NoMemory, Text};
use std::alloc::Global;
use std::marker::Model;

/// A name or a key as a command lends it, seen as its characters. It takes no memory.
#[derive(Drop)]
pub struct Name<'a> {
    text: &'a str,
}

impl<'a> Model for Name<'a> {
    ghost use Rattle.std.specs.Prelude.{ℕ, List};
    ghost use Rattle.std.specs.Str.{chars};

    ghost Value = { List ℕ };

    ghost view = { λ n. chars n.text.now };
}

impl<'a> Name<'a> {
    pub fn new(text: &'a str) -> Name<'a>
        ensures { result ≡ chars text.now }
    {
        Name { text }
    }

    /// The same characters, in a copy.
    pub fn to_text(&self, alloc: Global) -> Result<Text, NoMemory>
        ensures { IfOk result (λ text. text ≡ self.now) }
    {
        Text::from_str(alloc, self.text)
    }

    /// How many characters it has.
    pub fn count(&self) -> usize
        ensures { result ≡ length self.now }
    {
        self.text.chars().count()
    }
}
