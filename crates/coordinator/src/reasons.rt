//! The reasons that a cancel carries.

ghost use Rattle.std.specs.Prelude.{◌≡◌, map, if◌then◌else◌, IfOk, OnOk};
ghost use Rattle.txn_core.specs.declared.course.Move.{Move};
ghost use Rattle.txn_core.specs.Course.{Told, IsToldSo, next_move};
ghost use Rattle.txn_core.specs.Driver.{no_reason};
ghost use Rattle.coordinator.specs.Driving.{IsReady};

use crate::driver::DriverOf;
use base_types::Seq;
use control_cell::copy_of_reasons;
use std::alloc::{AllocError as NoMemory, Global};
use txn_core::{Move, Reason, Rules};

// As many empty reasons.
fn empty_reasons<R: Rules>(
    alloc: Global,
    reasons: &[Reason<R::Value, R::Fault>],
) -> Result<Seq<Reason<R::Value, R::Fault>>, NoMemory>
    ensures { IfOk result (λ empty. empty ≡ map no_reason reasons.now) }
{
    let mut empty = Vec::with_capacity(alloc, reasons.len())?;
    for _reason in reasons {
        empty.push(Reason::None)?;
    }
    Ok(Seq::from(empty))
}

// The reasons of a cancel: those that were found, or none where a table was found gone.
fn cancel_reasons<R: Rules>(
    alloc: Global,
    found: &[Reason<R::Value, R::Fault>],
    finds_no_table: bool,
) -> Result<Seq<Reason<R::Value, R::Fault>>, NoMemory>
where
    R::Fault: Copy,
    ensures { IfOk result (λ reasons. reasons ≡ (if finds_no_table then map no_reason found.now else found.now)) }
{
    if finds_no_table {
        return empty_reasons::<R>(alloc, found);
    }
    copy_of_reasons::<R>(alloc, found)
}

// Makes the reasons that a cancel is to carry, and a copy of them.
fn fill<R: Rules>(alloc: Global, driver: &mut DriverOf<R>) -> Result<(), NoMemory>
where
    R::Fault: Copy,
    ensures same { OnOk result (driver.new ≡ record driver.old { carried = driver.new.carried; copy = driver.new.copy }) }
    ensures ready { OnOk result ((told : Told) → IsToldSo driver.old.course told → next_move told ≡ Move.Cancel → IsReady driver.new) }
{
    let finds_no_table = driver.no_table.is_some();
    let carried = cancel_reasons::<R>(alloc, driver.found.as_slice(), finds_no_table)?;
    let copy = cancel_reasons::<R>(alloc, driver.found.as_slice(), finds_no_table)?;
    driver.carried = carried;
    driver.copy = copy;
    Ok(())
}

/// Makes the reasons that a cancel is to carry, and a copy of them, where it comes next.
pub(crate) fn make_ready<R: Rules>(alloc: Global, driver: &mut DriverOf<R>) -> Result<(), NoMemory>
where
    R::Fault: Copy,
    ensures same { OnOk result (driver.new ≡ record driver.old { carried = driver.new.carried; copy = driver.new.copy }) }
    ensures ready { OnOk result ((told : Told) → IsToldSo driver.old.course told → next_move told ≡ Move.Cancel → IsReady driver.new) }
{
    match driver.course.next() {
        Move::Cancel => fill::<R>(alloc, driver),
        _ => Ok(()),
    }
}
