//! The step that asks for the acceptance of an action.

ghost use Rattle.std.specs.Prelude.{◌≡◌, ◌≢◌, ◌↔◌, ◌<◌, Some, length, reverse, slice_get, IfErr, IfOk, OnOk, Err};
ghost use Rattle.turnstile.specs.Passes.{most_units};
ghost use Rattle.txn_core.specs.declared.course.Move.{Move};
ghost use Rattle.txn_core.specs.Driver.{course_left};
ghost use Rattle.cluster.specs.Steps.{IsAtRest, partitions_of};
ghost use Rattle.cluster.specs.declared.step.StepError.{StepError};
ghost use Rattle.coordinator.specs.Driving.{Advances, Fails, IsDriver, IsNext};

use crate::driver::DriverOf;
use crate::reasons::make_ready;
use crate::verdict::note;
use cluster::{Caller, StepError, TableWorld};
use partition::PageRules;
use std::alloc::{AllocError as NoMemory, Global};
use std::sync::Wait;
use turnstile::Pass;
use txn_core::{Message, Rules};

// A copy of the action at a place.
fn copy_of_action<R: Rules>(
    alloc: Global,
    driver: &DriverOf<R>,
    place: u32,
) -> Result<R::Action, NoMemory>
    requires { place < length driver.now.actions.items }
    ensures { IfOk result (λ action. slice_get driver.now.actions.items place ≡ Some action) }
{
    let Some(action) = driver.actions.get(place as usize) else {
        unreachable!()
    };
    R::copy_of_action(alloc, action)
}

// Asks for the acceptance, where a unit is left for it.
fn ask_acceptance<R: PageRules, T: Wait>(
    caller: &Caller<'_, R, T>,
    pass: &mut Pass<TableWorld<R>>,
    driver: &mut DriverOf<R>,
    place: u32,
) -> Result<(), StepError>
where
    R::Fault: Copy,
    requires rests { IsAtRest caller.now pass.old }
    requires unit { pass.old.used < most_units }
    requires driver { IsDriver (R.protocol (partitions_of caller.now)) (reverse pass.old.front) driver.old }
    requires next { IsNext driver.old.course (Move.Prepare place) }
    ensures ok { OnOk result (Advances (R.protocol (partitions_of caller.now)) pass.old driver.old pass.new driver.new) }
    ensures less { OnOk result (course_left driver.new.course < course_left driver.old.course) }
    ensures err { IfErr result (λ error. Fails (R.protocol (partitions_of caller.now)) pass.old driver.old error pass.new) }
    ensures not_spent { result ≢ Err StepError.Spent }
{
    caller.facts(pass);
    let action = copy_of_action::<R>(caller.alloc(), driver, place)?;
    let cell = caller.cell_of(R::key_of(&action));
    let number = driver.number;
    let stamp = driver.stamp;
    let message = Message::Prepare {
        number,
        stamp,
        action,
    };
    let answer = caller.ask(pass, cell, message)?;
    note::<R>(driver, place, answer)?;
    make_ready::<R>(caller.alloc(), driver)?;
    Ok(())
}

/// Asks the cell of the item of the action at a place to accept the action, where that comes next. After the last one that was
/// not all accepted, what a cancel is to carry is made ready.
pub fn prepare<R: PageRules, T: Wait>(
    caller: &Caller<'_, R, T>,
    pass: &mut Pass<TableWorld<R>>,
    driver: &mut DriverOf<R>,
    place: u32,
) -> Result<(), StepError>
where
    R::Fault: Copy,
    requires rests { IsAtRest caller.now pass.old }
    requires driver { IsDriver (R.protocol (partitions_of caller.now)) (reverse pass.old.front) driver.old }
    requires next { IsNext driver.old.course (Move.Prepare place) }
    ensures ok { OnOk result (Advances (R.protocol (partitions_of caller.now)) pass.old driver.old pass.new driver.new) }
    ensures less { OnOk result (course_left driver.new.course < course_left driver.old.course) }
    ensures err { IfErr result (λ error. Fails (R.protocol (partitions_of caller.now)) pass.old driver.old error pass.new) }
    ensures spent { result ≡ Err StepError.Spent ↔ (pass.old.used ≡ most_units) }
{
    if pass.left() == 0 {
        return Err(StepError::Spent);
    }
    ask_acceptance(caller, pass, driver, place)
}
