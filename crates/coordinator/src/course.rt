//! The step of a course that comes next.

ghost use Rattle.std.specs.Prelude.{◌≡◌, ◌↔◌, ◌<◌, reverse, IfErr, IfOk, IfSome, IfNone, OnOk, Err};
ghost use Rattle.turnstile.specs.Passes.{most_units};
ghost use Rattle.txn_core.specs.declared.course.Move.{Move};
ghost use Rattle.txn_core.specs.Course.{IsToldSo, Told, next_move};
ghost use Rattle.txn_core.specs.Driver.{course_left};
ghost use Rattle.cluster.specs.Steps.{IsAtRest, partitions_of};
ghost use Rattle.cluster.specs.declared.step.StepError.{StepError};
ghost use Rattle.coordinator.specs.Driving.{Advances, Fails, IsDriver, IsNext, point_after};

use crate::decision::{cancel, commit};
use crate::driver::DriverOf;
use crate::ending::{finish, settle};
use crate::gate::Point;
use crate::preparation::prepare;
use cluster::{Caller, StepError, TableWorld};
use partition::PageRules;
use std::sync::Wait;
use turnstile::Pass;
use txn_core::Move;

/// Takes the step of the course that comes next, and tells at which point the transaction is then; none, where the course is at
/// its end, and then nothing is done.
pub fn advance<R: PageRules, T: Wait>(
    caller: &Caller<'_, R, T>,
    pass: &mut Pass<TableWorld<R>>,
    driver: &mut DriverOf<R>,
) -> Result<Option<Point>, StepError>
where
    R::Fault: Copy,
    requires rests { IsAtRest caller.now pass.old }
    requires driver { IsDriver (R.protocol (partitions_of caller.now)) (reverse pass.old.front) driver.old }
    ensures ok { OnOk result (Advances (R.protocol (partitions_of caller.now)) pass.old driver.old pass.new driver.new) }
    ensures less { IfOk result (λ point. IfSome point (λ _. course_left driver.new.course < course_left driver.old.course)) }
    ensures point { IfOk result (λ point.
        (told : Told) → IsToldSo driver.old.course told → point ≡ point_after (next_move told)) }
    ensures end { IfOk result (λ point. IfNone point (IsNext driver.old.course Move.End)) }
    ensures same { IfOk result (λ point. IfNone point ((driver.new ≡ driver.old) × (pass.new ≡ pass.old))) }
    ensures err { IfErr result (λ error. Fails (R.protocol (partitions_of caller.now)) pass.old driver.old error pass.new) }
    ensures spent { result ≡ Err StepError.Spent ↔ ((pass.old.used ≡ most_units) × (IsNext driver.old.course Move.End → ⊥)) }
{
    match driver.course.next() {
        Move::Prepare(place) => {
            prepare(caller, pass, driver, place)?;
            Ok(Some(Point::AfterPrepare(place)))
        }
        Move::Commit => {
            commit(caller, pass, driver)?;
            Ok(Some(Point::AfterDecide))
        }
        Move::Cancel => {
            cancel(caller, pass, driver)?;
            Ok(Some(Point::AfterDecide))
        }
        Move::Apply(place) => {
            settle(caller, pass, driver)?;
            Ok(Some(Point::AfterFinish(place)))
        }
        Move::Release(place) => {
            settle(caller, pass, driver)?;
            Ok(Some(Point::AfterFinish(place)))
        }
        Move::Done => {
            finish(caller, pass, driver)?;
            Ok(Some(Point::AfterDone))
        }
        Move::End => Ok(None),
    }
}
