//! What a driver takes down of an answer to a Prepare.

ghost use Rattle.std.specs.Prelude.{◌≡◌, Some, IfSome, OnOk, option_map};
ghost use Rattle.txn_core.specs.declared.verdict.Verdict.{Verdict};
ghost use Rattle.txn_core.specs.Driver.{reason_in, verdict_of};
ghost use Rattle.coordinator.specs.Driving.{Notes};

use crate::driver::DriverOf;
use std::alloc::AllocError as NoMemory;
use txn_core::{Answer, Reason, Reply, Rules, Verdict};

/// The verdict and the reason in an answer to a Prepare.
fn told_by<R: Rules>(answer: Reply<R>) -> Option<(Verdict, Reason<R::Value, R::Fault>)>
    ensures verdict { option_map (λ told. told.0) result ≡ verdict_of answer }
    ensures reason { IfSome result (λ told. told.1 ≡ reason_in answer) }
{
    match answer {
        Answer::Accepted => Some((Verdict::Accepted, Reason::None)),
        Answer::Held { number } => Some((Verdict::Held { number }, Reason::Held { number })),
        Answer::Late { stamp } => Some((Verdict::Late { stamp }, Reason::Late { stamp })),
        Answer::CondFalse { old } => Some((Verdict::CondFalse, Reason::ConditionFalse { old })),
        Answer::Invalid { fault } => Some((Verdict::Invalid, Reason::Invalid { fault })),
        Answer::Stale => Some((Verdict::NoTable, Reason::None)),
        _ => None,
    }
}

/// Takes down the verdict and the reason in the answer to the Prepare of the action at a place.
pub(crate) fn note<R: Rules>(
    driver: &mut DriverOf<R>,
    place: u32,
    answer: Reply<R>,
) -> Result<(), NoMemory>
    requires { (v : Verdict) × (verdict_of answer ≡ Some v) }
    ensures { OnOk result (Notes driver.old place answer driver.new) }
{
    let Some((verdict, reason)) = told_by::<R>(answer) else {
        unreachable!()
    };
    driver.found.push(reason)?;
    driver.course.took_verdict(verdict);
    if matches!(verdict, Verdict::NoTable) {
        driver.no_table = Some(place);
    }
    Ok(())
}
