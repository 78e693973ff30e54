//! The steps that decide a transaction.

ghost use Rattle.std.specs.Prelude.{◌≡◌, ◌≢◌, ◌↔◌, ◌<◌, true, reverse, if◌then◌else◌, IfErr, IfOk, OnOk, Err};
ghost use Rattle.turnstile.specs.Passes.{most_units};
ghost use Rattle.txn_core.specs.declared.course.Move.{Move};
ghost use Rattle.txn_core.specs.declared.fate.Fate.{Fate};
ghost use Rattle.txn_core.specs.declared.message.Message.{Message};
ghost use Rattle.txn_core.specs.Driver.{course_left};
ghost use Rattle.txn_core.specs.History.{reasons_of};
ghost use Rattle.cluster.specs.Steps.{IsAtRest, MayAsk, partitions_of};
ghost use Rattle.cluster.specs.declared.step.StepError.{StepError};
ghost use Rattle.coordinator.specs.Driving.{Advances, Fails, IsDriver, IsNext};

use crate::driver::DriverOf;
use base_types::Seq;
use cluster::{Caller, StepError, TableWorld};
use partition::PageRules;
use std::mem;
use std::sync::Wait;
use turnstile::Pass;
use txn_core::{Answer, Message, Reason};

// Decides, with these reasons, and answers whether it was the first to.
fn decide<R: PageRules, T: Wait>(
    caller: &Caller<'_, R, T>,
    pass: &mut Pass<TableWorld<R>>,
    driver: &mut DriverOf<R>,
    commit: bool,
    reasons: Seq<Reason<R::Value, R::Fault>>,
) -> Result<bool, StepError>
where
    R::Fault: Copy,
    requires rests { IsAtRest caller.now pass.old }
    requires driver { (made : _) × IsDriver (R.protocol (partitions_of caller.now)) (reverse pass.old.front) (record driver.old { carried = made }) }
    requires undecided { driver.old.fate ≡ Fate.Undecided }
    requires may { MayAsk (R.protocol (partitions_of caller.now)) pass.old (Message.Decide driver.old.number commit reasons) }
    ensures ok { OnOk result (Advances (R.protocol (partitions_of caller.now)) pass.old driver.old pass.new driver.new) }
    ensures same { OnOk result (driver.new ≡ record driver.old { course = driver.new.course; fate = driver.new.fate }) }
    ensures fate { IfOk result (λ first. first ≡ true → driver.new.fate ≡ (if commit then Fate.Committed else Fate.Cancelled)) }
    ensures reasons { IfOk result (λ first. first ≡ true → reasons_of (reverse pass.new.front) driver.old.number ≡ reasons) }
    ensures less { OnOk result (course_left driver.new.course < course_left driver.old.course) }
    ensures err { IfErr result (λ error. Fails (R.protocol (partitions_of caller.now)) pass.old driver.old error pass.new) }
    ensures spent { result ≡ Err StepError.Spent ↔ (pass.old.used ≡ most_units) }
    ensures sure { result ≢ Err StepError.NoMemory }
{
    let number = driver.number;
    let message = Message::Decide {
        number,
        commit,
        reasons,
    };
    let answer = caller.ask_ledger(pass, message)?;
    let Answer::Decided { fate, first } = answer else {
        unreachable!()
    };
    driver.course.took_fate(fate);
    driver.fate = fate;
    Ok(first)
}

/// Decides that the transaction is committed, where that comes next. The fate that stands then may be another.
pub fn commit<R: PageRules, T: Wait>(
    caller: &Caller<'_, R, T>,
    pass: &mut Pass<TableWorld<R>>,
    driver: &mut DriverOf<R>,
) -> Result<(), StepError>
where
    R::Fault: Copy,
    requires rests { IsAtRest caller.now pass.old }
    requires driver { IsDriver (R.protocol (partitions_of caller.now)) (reverse pass.old.front) driver.old }
    requires next { IsNext driver.old.course Move.Commit }
    ensures ok { OnOk result (Advances (R.protocol (partitions_of caller.now)) pass.old driver.old pass.new driver.new) }
    ensures less { OnOk result (course_left driver.new.course < course_left driver.old.course) }
    ensures err { IfErr result (λ error. Fails (R.protocol (partitions_of caller.now)) pass.old driver.old error pass.new) }
    ensures spent { result ≡ Err StepError.Spent ↔ (pass.old.used ≡ most_units) }
    ensures sure { result ≢ Err StepError.NoMemory }
{
    let _first = decide(caller, pass, driver, true, Seq::new(caller.alloc()))?;
    Ok(())
}

/// Decides that the transaction is cancelled, where that comes next: with the reasons that were found, or none where a table was
/// found gone. The fate that stands then may be another.
pub fn cancel<R: PageRules, T: Wait>(
    caller: &Caller<'_, R, T>,
    pass: &mut Pass<TableWorld<R>>,
    driver: &mut DriverOf<R>,
) -> Result<(), StepError>
where
    R::Fault: Copy,
    requires rests { IsAtRest caller.now pass.old }
    requires driver { IsDriver (R.protocol (partitions_of caller.now)) (reverse pass.old.front) driver.old }
    requires next { IsNext driver.old.course Move.Cancel }
    ensures ok { OnOk result (Advances (R.protocol (partitions_of caller.now)) pass.old driver.old pass.new driver.new) }
    ensures less { OnOk result (course_left driver.new.course < course_left driver.old.course) }
    ensures err { IfErr result (λ error. Fails (R.protocol (partitions_of caller.now)) pass.old driver.old error pass.new) }
    ensures spent { result ≡ Err StepError.Spent ↔ (pass.old.used ≡ most_units) }
    ensures sure { result ≢ Err StepError.NoMemory }
{
    let carried = mem::replace(&mut driver.carried, Seq::new(caller.alloc()));
    if decide(caller, pass, driver, false, carried)? {
        let copy = mem::replace(&mut driver.copy, Seq::new(caller.alloc()));
        driver.reasons = Some(copy);
    }
    Ok(())
}
