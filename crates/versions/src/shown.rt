//! What a registry shows, and the rule over it: what each seat knows is a prefix of what is shown.
ghost use Rattle.std.specs.Prelude.{◌≡◌, Some, IfOk, MatchOption};
ghost use Rattle.std.specs.Coded.{Coded-set, coded_option};
ghost use Rattle.std.specs.Arc.{arc_value};
ghost use Rattle.versions.specs.Histories.{latest, Begins, IsPlace};

use crate::known::Known;
use atomic_table::{Join, Split};
use crossbeam_utils::rule::{Outcome, Protocol};
use left_right::Absorb;
use mz_base::NoMemory;
use std::alloc::AllocError;
use std::sync::Arc;

/// A value, beside the prefix that left it.
#[derive(Drop)]
pub struct Shown<T, E> {
    pub value: Arc<T>,
    pub known: Known<T, E>,
    ghost newest: { latest known.log ≡ Some (arc_value value) } by { Coded-set (coded_option T.code) (latest known.log) (Some (arc_value value)) },
}

impl<T, E> Shown<T, E> {
    pub fn new(value: Arc<T>, known: Known<T, E>) -> Shown<T, E>
        requires { latest known.log ≡ Some (arc_value value) }
        ensures value { result.value ≡ value }
        ensures known { result.known ≡ known }
    {
        Shown { value, known }
    }

    /// One more owner of the value. `Err` where its count of owners is full.
    pub fn another(&self) -> Result<Shown<T, E>, AllocError>
        ensures { IfOk result (λ shown. shown.known ≡ self.now.known) }
    {
        Ok(Shown {
            value: Arc::try_clone(&self.value)?,
            known: self.known.again(),
        })
    }

    /// The value, and how many operations led to it.
    pub fn answer(&self) -> Result<(Arc<T>, u64), NoMemory>
        ensures { IfOk result (λ answer. (latest self.now.known.log ≡ Some (arc_value answer.0)) × IsPlace answer.1 self.now.known.log) }
    {
        Ok((Arc::try_clone(&self.value)?, self.known.place()))
    }

    /// A copy of the other, where it has more operations.
    pub fn newer(&self, other: &Shown<T, E>) -> Result<Option<Shown<T, E>>, NoMemory>
        requires { other.now.known.registry ≡ self.now.known.registry }
        ensures { IfOk result (λ news. MatchOption news
            (Begins other.now.known self.now.known)
            (λ shown. (shown.known ≡ other.now.known) × Begins self.now.known shown.known)) }
    {
        if !other.known.is_longer_than(&self.known) {
            return Ok(None);
        }
        Ok(Some(other.another()?))
    }
}

/// An operation sets what is shown, whatever was shown before.
impl<T: Drop, E: Drop> Absorb<Shown<T, E>> for Shown<T, E> {
    type State = Known<T, E>;

    ghost state = { λ shown. shown.known };

    ghost applied = { λ before operation. operation.known };

    fn absorb_first(
        &mut self,
        operation: &Shown<T, E>,
        _other: &Shown<T, E>,
    ) -> Result<(), AllocError> {
        *self = operation.another()?;
        Ok(())
    }

    fn absorb_second(
        &mut self,
        operation: Shown<T, E>,
        _other: &Shown<T, E>,
    ) -> Result<(), Shown<T, E>> {
        *self = operation;
        Ok(())
    }
}

/// What a seat knows is nothing, or a prefix of what is shown.
pub struct OneHistory;

impl<T, E> Protocol<Shown<T, E>, Option<Known<T, E>>> for OneHistory {
    ghost use Rattle.std.specs.Prelude.{None};
    ghost use Rattle.versions.specs.Seats.{AllAgree};

    ghost holds = { λ shown views. AllAgree shown.known views };

    ghost first = { None };
}

/// A step of a seat that then knows what is shown.
pub struct Sees;

impl<T, E> Outcome<Shown<T, E>, Option<Known<T, E>>> for Sees {
    ghost use Rattle.std.specs.Prelude.{◌≡◌, Some};
    ghost use Rattle.versions.specs.Seats.{Agrees};

    ghost then = { λ before x y after. Agrees before x.known × (after ≡ Some y.known) };
}

/// What one seat tells another: all that it knows.
pub struct Told;

impl<T, E> Split<Option<Known<T, E>>> for Told {
    ghost left = { λ known. known };

    ghost right = { λ known. known };
}

impl<T, E> Join<Option<Known<T, E>>> for Told {
    ghost use Rattle.std.specs.Prelude.{None};

    ghost both = { λ own told. told };

    ghost spent = { None };
}
