ghost use Rattle.std.specs.Prelude.{◌≡◌, ◌↔◌, ◌<◌, ◌++◌, ◌∷◌, [], IsSome, OnOk, OnErr, length, option_to_list, slice_index_or};
ghost use Rattle.std.specs.Borrow.{sem};
ghost use Rattle.mz_base.specs.Lending.{LendsItem};

use crate::NoMemory;
use std::marker::Model;

/// A vector that contracts see as a list, for fields of types that definitions compute.
#[derive(Drop)]
pub struct Seq<T> {
    items: Vec<T>,
}

impl<T> Model for Seq<T> {
    ghost use Rattle.std.specs.Prelude.{List};

    ghost Value = { List T };

    ghost view = { λ s. s.items.items };
}

impl<T> Seq<T> {
    pub fn from_vec(items: Vec<T>) -> Seq<T>
        ensures { result ≡ items.items }
    {
        Seq { items }
    }

    pub fn into_vec(self) -> Vec<T>
        ensures { result.items ≡ self }
    {
        let Seq { items } = self;
        items
    }

    pub fn as_slice(&self) -> &[T]
        ensures { result.now ≡ self.now }
    {
        self.items.as_slice()
    }

    /// Takes the last item, if there is one.
    pub fn pop(&mut self) -> Option<T>
        ensures items { self.old ≡ self.new ++ option_to_list result }
        ensures some { IsSome result ↔ (0 < length self.old) }
    {
        self.items.pop()
    }

    /// The item at a place, to be changed there.
    pub fn at_mut(&mut self, place: usize) -> &mut T
        requires { place < length self.old }
        ensures* writes_back { sem 𝓛 (LendsItem T.row self.entry place result) }
        ensures item { (d : T) → result.now ≡ slice_index_or self.old place d }
    {
        &mut self.items[place]
    }
}

impl<T: Drop> Seq<T> {
    /// Puts an item at the end.
    pub fn push(&mut self, item: T) -> Result<(), NoMemory>
        ensures ok { OnOk result (self.new ≡ self.old ++ item ∷ []) }
        ensures err { OnErr result (self.new ≡ self.old) }
    {
        Ok(self.items.push(item)?)
    }
}
