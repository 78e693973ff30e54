//! The steps after the decision. They take no memory.

ghost use Rattle.std.specs.Prelude.{◌≡◌, ◌≢◌, ◌↔◌, ◌<◌, ℕ, reverse, IfErr, OnOk, Err};
ghost use Rattle.turnstile.specs.Passes.{most_units};
ghost use Rattle.txn_core.specs.declared.course.Move.{Move};
ghost use Rattle.txn_core.specs.Driver.{course_left};
ghost use Rattle.cluster.specs.Steps.{IsAtRest, partitions_of};
ghost use Rattle.cluster.specs.declared.step.StepError.{StepError};
ghost use Rattle.coordinator.specs.Driving.{Advances, Fails, IsDriver, IsNext, last_message, last_move};

use crate::driver::DriverOf;
use cluster::{Caller, StepError, TableWorld};
use partition::PageRules;
use std::sync::Wait;
use turnstile::Pass;
use txn_core::{Asked, Fate, Message, Rules};

// What the cell of an item is sent once the transaction has this fate: it is to carry the action out, or to let the item go.
fn last_message<R: Rules>(fate: Fate, number: u64, key: R::Key) -> Asked<R>
    ensures { result ≡ last_message fate number key }
{
    match fate {
        Fate::Committed => Message::Apply { number, key },
        _ => Message::Release { number, key },
    }
}

/// Carries out the next action of a committed transaction, or lets the item of the next action of a cancelled one go, where that
/// comes next.
pub fn settle<R: PageRules, T: Wait>(
    caller: &Caller<'_, R, T>,
    pass: &mut Pass<TableWorld<R>>,
    driver: &mut DriverOf<R>,
) -> Result<(), StepError>
where
    R::Fault: Copy,
    requires rests { IsAtRest caller.now pass.old }
    requires driver { IsDriver (R.protocol (partitions_of caller.now)) (reverse pass.old.front) driver.old }
    requires next { (place : ℕ) × IsNext driver.old.course (last_move driver.old.fate place) }
    ensures ok { OnOk result (Advances (R.protocol (partitions_of caller.now)) pass.old driver.old pass.new driver.new) }
    ensures less { OnOk result (course_left driver.new.course < course_left driver.old.course) }
    ensures err { IfErr result (λ error. Fails (R.protocol (partitions_of caller.now)) pass.old driver.old error pass.new) }
    ensures spent { result ≡ Err StepError.Spent ↔ (pass.old.used ≡ most_units) }
    ensures sure { result ≢ Err StepError.NoMemory }
{
    let Some(action) = driver.actions.pop_front() else {
        unreachable!()
    };
    let key = R::into_key(action);
    let cell = caller.cell_of(&key);
    let message = last_message::<R>(driver.fate, driver.number, key);
    let answer = caller.ask(pass, cell, message)?;
    drop(answer);
    driver.course.took_done();
    Ok(())
}

/// Tells the control cell that each action was applied or released, where that comes next.
pub fn finish<R: PageRules, T: Wait>(
    caller: &Caller<'_, R, T>,
    pass: &mut Pass<TableWorld<R>>,
    driver: &mut DriverOf<R>,
) -> Result<(), StepError>
where
    R::Fault: Copy,
    requires rests { IsAtRest caller.now pass.old }
    requires driver { IsDriver (R.protocol (partitions_of caller.now)) (reverse pass.old.front) driver.old }
    requires next { IsNext driver.old.course Move.Done }
    ensures ok { OnOk result (Advances (R.protocol (partitions_of caller.now)) pass.old driver.old pass.new driver.new) }
    ensures less { OnOk result (course_left driver.new.course < course_left driver.old.course) }
    ensures err { IfErr result (λ error. Fails (R.protocol (partitions_of caller.now)) pass.old driver.old error pass.new) }
    ensures spent { result ≡ Err StepError.Spent ↔ (pass.old.used ≡ most_units) }
    ensures sure { result ≢ Err StepError.NoMemory }
{
    let number = driver.number;
    let answer = caller.ask_ledger(pass, Message::Done { number })?;
    drop(answer);
    driver.course.took_done();
    Ok(())
}
