ghost use Rattle.std.specs.Prelude.{◌≡◌};
ghost use Rattle.versions.specs.Histories.{IsPlace};

use crate::shown::Shown;
use std::marker::Model;

/// What a publisher tells of its history: a prefix of it, with the value that the prefix leaves. Contracts see it as
/// that prefix. A reader that learns it takes no older value afterwards.
#[derive(Drop)]
pub struct Receipt<T, E> {
    shown: Shown<T, E>,
}

impl<T, E> Model for Receipt<T, E> {
    ghost use Rattle.versions.specs.Histories.{Prefix, prefix_code};

    ghost Value = { Prefix T E };

    ghost coded = { prefix_code T.code E.code };

    ghost view = { λ r. r.shown.known };
}

impl<T, E> Receipt<T, E> {
    pub(crate) fn new(shown: Shown<T, E>) -> Receipt<T, E>
        ensures { result ≡ shown.known }
    {
        Receipt { shown }
    }

    /// How many operations it stands for.
    pub fn place(&self) -> u64
        ensures { IsPlace result self.now.log }
    {
        self.shown.known.place()
    }

    pub(crate) fn into_shown(self) -> Shown<T, E>
        ensures { result.known ≡ self }
    {
        self.shown
    }
}
