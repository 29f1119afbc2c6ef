ghost use Rattle.std.specs.Prelude.{◌≡◌, ◌⊎◌, ◌+◌, min, Some, IfOk, OnOk, OnErr};
ghost use Rattle.std.specs.Arc.{arc_value};
ghost use Rattle.left_right.specs.Sides.{view as seat_view};
ghost use Rattle.versions.specs.Histories.{latest, longer_of, Begins, IsPlace};
ghost use Rattle.versions.specs.Seats.{SitsAt};

use crate::known::Known;
use crate::receipt::Receipt;
use crate::shown::{OneHistory, Sees, Shown};
use left_right::reader::Reader as Seat;
use mz_base::NoMemory;
use std::marker::Model;
use std::sync::Arc;

/// Takes a registry's value. It goes to any thread, and none of its calls waits. Contracts see the prefix that it
/// stands for and its `unmet`.
#[derive(Drop)]
pub struct Reader<T: Drop, E: Drop> {
    // Always there, but while a take has it.
    seat: Option<Seat<Shown<T, E>, Option<Known<T, E>>, OneHistory>>,
    kept: Shown<T, E>,
    unmet: u64,
}

impl<T: Drop, E: Drop> Model for Reader<T, E> {
    ghost use Rattle.versions.specs.Histories.{Standing, standing_code};

    ghost Value = { Standing T E };

    ghost coded = { standing_code T.code E.code };

    ghost use Rattle.std.specs.Prelude.{IfSome};
    ghost use Rattle.left_right.specs.Sides.{view as seat_view};
    ghost use Rattle.versions.specs.Seats.{SitsAt};

    ghost view = { λ r. record { prefix = r.kept.known; unmet = r.unmet } };

    ghost invariant = { λ r. IfSome r.seat (λ seat. SitsAt r.kept.known.registry (seat_view seat.place)) };
}

impl<T: Drop, E: Drop> Reader<T, E> {
    pub(crate) fn new(
        seat: Seat<Shown<T, E>, Option<Known<T, E>>, OneHistory>,
        kept: Shown<T, E>,
    ) -> Reader<T, E>
        requires { SitsAt kept.known.registry (seat_view seat.place) }
        ensures { result ≡ record { prefix = kept.known; unmet = 0 } }
    {
        Reader {
            seat: Some(seat),
            kept,
            unmet: 0,
        }
    }

    /// The value of the registry, and how many operations led to it. It is never older than one that this reader took
    /// before or was told of.
    pub fn take(&mut self) -> Result<(Arc<T>, u64), NoMemory>
        ensures value { IfOk result (λ answer. latest self.new.prefix.log ≡ Some (arc_value answer.0)) }
        ensures place { IfOk result (λ answer. IsPlace answer.1 self.new.prefix.log) }
        ensures grows { Begins self.old.prefix self.new.prefix }

        // The reader is as before where it could not look, and answers from what it keeps.
        ensures met { OnOk result ((self.new.unmet ≡ 0) ⊎ (self.new ≡ self.old)) }
        ensures err { OnErr result (self.new ≡ self.old) }
    {
        let Some(seat) = self.seat.take() else {
            return self.kept.answer();
        };
        let reading = match seat.enter_as::<Sees>() {
            Ok(reading) => reading,
            Err(seat) => {
                self.seat = Some(seat);
                return self.kept.answer();
            }
        };
        let news = self.kept.newer(reading.get());
        self.seat = Some(reading.leave());
        if let Some(news) = news? {
            let answer = news.answer()?;
            self.kept = news;
            self.unmet = 0;
            return Ok(answer);
        }
        let answer = self.kept.answer()?;
        self.unmet = 0;
        Ok(answer)
    }

    /// Takes in what a publisher told. It takes no memory.
    pub fn learn(&mut self, receipt: Receipt<T, E>)
        requires { receipt.registry ≡ self.old.prefix.registry }
        ensures longer { self.new.prefix ≡ longer_of self.old.prefix receipt }
        ensures own { Begins self.old.prefix self.new.prefix }
        ensures receipt { Begins receipt self.new.prefix }
        ensures unmet { self.new.unmet ≡ min (self.old.unmet + 1) u64.MAX }
    {
        let told = receipt.into_shown();
        if told.known.is_longer_than(&self.kept.known) {
            self.kept = told;
        }
        self.unmet = self.unmet.saturating_add(1);
    }

    /// How many operations led to what it stands for.
    pub fn seen(&self) -> u64
        ensures { IsPlace result self.now.prefix.log }
    {
        self.kept.known.place()
    }

    /// How many receipts it has learned since its last `take` that looked at what is shown.
    pub fn unmet(&self) -> u64
        ensures { result ≡ self.now.unmet }
    {
        self.unmet
    }
}
