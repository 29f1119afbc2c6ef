//! The two copies of what is shown, with the publisher's seat at them.
ghost use Rattle.std.specs.Prelude.{◌≡◌, Some, IfSome, OnOk};
ghost use Rattle.left_right.specs.Sides.{view as seat_view};
ghost use Rattle.versions.specs.Histories.{Begins};

use crate::known::Known;
use crate::shown::{OneHistory, Sees, Shown};
use left_right::writer::Writer;
use mz_base::NoMemory;
use std::mem;
use std::mem::ManuallyDrop;
use std::sync::Wait;

pub type Copies<T, E> = Writer<Shown<T, E>, Shown<T, E>, Option<Known<T, E>>, OneHistory>;

/// Shows the operation. It waits for readers that still have the copy which is to change. At `Err` readers see what
/// they saw, and the operation may be shown with the next one.
pub fn install<T: Drop, E: Drop, R: Wait>(
    mut copies: Copies<T, E>,
    rt: &R,
    operation: Shown<T, E>,
) -> (Copies<T, E>, Result<(), NoMemory>)
    requires { Begins copies.desk.shown.value.known operation.known }
    ensures begins { Begins result.0.desk.shown.value.known operation.known }
    ensures shown { OnOk result.1 (result.0.desk.shown.value.known ≡ operation.known) }
    ensures seat { OnOk result.1 (seat_view result.0.desk.place ≡ Some operation.known) }
{
    let Ok(()) = copies.append(operation) else {
        return (copies, Err(NoMemory));
    };
    let (copies, shown) = copies.publish_as::<Sees, R>(rt);
    match shown {
        Ok(()) => (copies, Ok(())),
        Err(_) => (copies, Err(NoMemory)),
    }
}

/// Shows the operation, where there is something to show it with.
pub fn show<T: Drop, E: Drop, R: Wait>(
    copies: &mut Option<Copies<T, E>>,
    rt: &R,
    operation: Shown<T, E>,
)
    requires { IfSome copies.old (λ before. Begins before.desk.shown.value.known operation.known) }
    ensures { IfSome copies.new (λ after. Begins after.desk.shown.value.known operation.known) }
{
    if let Some(before) = copies.take() {
        let (after, _) = install(before, rt, operation);
        leak(mem::replace(copies, Some(after)));
    }
}

// Lets the two copies go, which are not given back: that would wait.
fn leak<T: Drop, E: Drop>(copies: Option<Copies<T, E>>) {
    if let Some(copies) = copies {
        let _ = unsafe { ManuallyDrop::new_unchecked(copies) };
    }
}
