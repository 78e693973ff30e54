//! A transaction is driven to its end.

ghost use Rattle.std.specs.Prelude.{◌≡◌, ◌≢◌, ◌+◌, ◌≤◌, true, false, reverse, IfErr, IfOk, OnOk, Ok};
ghost use Rattle.ddb_outside.specs.Causes.{Rose};
ghost use Rattle.coordinator.specs.declared.gate.Pace.{Pace};
ghost use Rattle.txn_core.specs.declared.course.Move.{Move};
ghost use Rattle.txn_core.specs.declared.fate.Fate.{Fate};
ghost use Rattle.txn_core.specs.Driver.{course_left};
ghost use Rattle.cluster.specs.Steps.{IsAtRest, partitions_of};
ghost use Rattle.coordinator.specs.Driving.{Advances, Fails, IsDriver, IsNext, is_gone};
ghost use Rattle.coordinator.specs.Drives.{Drives, Ends};
ghost use Rattle.coordinator.specs.Stops.{Stops};
ghost use Rattle.coordinator.specs.declared.drive_end.DriveEnd.{DriveEnd};

use crate::course::advance;
use crate::drive_end::{DriveEnd, DriveEndOf, cancelled, given_up};
use crate::driver::{Driver, DriverOf};
use crate::gate::{Gate, Pace, Point};
use crate::record::{Record, ask_record, recall};
use cluster::{Caller, StepError, TableWorld};
use partition::PageRules;
use std::sync::Wait;
use turnstile::Pass;
use txn_core::Fate;

/// Whether the gate lets the driver go on at a point. It is not asked where the transaction was found gone, since nothing is left then.
fn pace_at<A, V, F, G: Gate>(driver: &Driver<A, V, F>, gate: &mut G, point: Point) -> Pace
    ensures asked { is_gone driver.now.fate ≡ false → G.passes gate.old point result gate.new }
    ensures gone { is_gone driver.now.fate ≡ true → (result ≡ Pace.Go) × (gate.new ≡ gate.old) }
    ensures gate { Stops (result ≡ Pace.Stop) (G.stops gate.old) (G.stops gate.new) }
{
    if matches!(driver.fate, Fate::Gone) {
        return Pace::Go;
    }
    gate.pass_point(point)
}

/// Takes the steps of a course to its end, unless the gate stops the driver between two of them.
fn take_steps<R: PageRules, G: Gate, T: Wait>(
    caller: &Caller<'_, R, T>,
    pass: &mut Pass<TableWorld<R>>,
    driver: &mut DriverOf<R>,
    gate: &mut G,
) -> Result<Pace, StepError>
where
    R::Fault: Copy,
    requires rests { IsAtRest caller.now pass.old }
    requires driver { IsDriver (R.protocol (partitions_of caller.now)) (reverse pass.old.front) driver.old }
    ensures ok { OnOk result (Advances (R.protocol (partitions_of caller.now)) pass.old driver.old pass.new driver.new) }
    ensures ended { IfOk result (λ pace. pace ≡ Pace.Go → IsNext driver.new.course Move.End) }
    ensures there { IfOk result (λ pace. pace ≡ Pace.Stop → is_gone driver.new.fate ≡ false) }
    ensures gate { Stops (result ≡ Ok Pace.Stop) (G.stops gate.old) (G.stops gate.new) }
    ensures err { IfErr result (λ error. Fails (R.protocol (partitions_of caller.now)) pass.old driver.old error pass.new) }
{
    while let Some(point) = advance(caller, pass, driver)? {
        match pace_at(driver, gate, point) {
            Pace::Go => {}
            Pace::Stop => return Ok(Pace::Stop),
        }
    }
    Ok(Pace::Go)
}

/// The end of a transaction that is cancelled and done. Where another driver cancelled it, the reasons are those of its record.
fn close_cancelled<R: PageRules, T: Wait>(
    caller: &Caller<'_, R, T>,
    pass: &mut Pass<TableWorld<R>>,
    driver: DriverOf<R>,
) -> DriveEndOf<R>
where
    R::Fault: Copy,
    requires rests { IsAtRest caller.now pass.old }
    requires driver { IsDriver (R.protocol (partitions_of caller.now)) (reverse pass.old.front) driver }
    requires end { IsNext driver.course Move.End }
    requires cancelled { driver.fate ≡ Fate.Cancelled }
    ensures ends { Ends (R.protocol (partitions_of caller.now)) 1 pass.old driver pass.new result }
    ensures not_stopped { result ≢ DriveEnd.Stopped }
{
    let Driver {
        number,
        stamp: _,
        actions: _,
        found: _,
        no_table,
        carried: _,
        copy: _,
        reasons,
        fate: _,
        course: _,
    } = driver;
    if let Some(reasons) = reasons {
        return cancelled(reasons, no_table);
    }
    let found = match ask_record(caller, pass, number) {
        Ok(found) => found,
        Err(error) => return given_up(error),
    };
    let Some(record) = found else {
        return DriveEnd::Gone;
    };
    let Record {
        fate: _,
        stamp: _,
        actions: _,
        reasons,
    } = record;
    cancelled(reasons, no_table)
}

/// The end of a transaction whose course is at its end.
fn close<R: PageRules, T: Wait>(
    caller: &Caller<'_, R, T>,
    pass: &mut Pass<TableWorld<R>>,
    driver: DriverOf<R>,
) -> DriveEndOf<R>
where
    R::Fault: Copy,
    requires rests { IsAtRest caller.now pass.old }
    requires driver { IsDriver (R.protocol (partitions_of caller.now)) (reverse pass.old.front) driver }
    requires end { IsNext driver.course Move.End }
    ensures ends { Ends (R.protocol (partitions_of caller.now)) 1 pass.old driver pass.new result }
    ensures not_stopped { result ≢ DriveEnd.Stopped }
{
    match driver.fate {
        Fate::Committed => DriveEnd::Committed,
        Fate::Cancelled => close_cancelled(caller, pass, driver),
        Fate::Gone => DriveEnd::Gone,
        Fate::Undecided => unreachable!(),
    }
}

/// Drives a transaction on from where its driver stands.
pub(crate) fn drive_on<R: PageRules, G: Gate, T: Wait>(
    caller: &Caller<'_, R, T>,
    pass: &mut Pass<TableWorld<R>>,
    mut driver: DriverOf<R>,
    gate: &mut G,
) -> DriveEndOf<R>
where
    R::Fault: Copy,
    requires rests { IsAtRest caller.now pass.old }
    requires driver { IsDriver (R.protocol (partitions_of caller.now)) (reverse pass.old.front) driver }
    ensures ends { Ends (R.protocol (partitions_of caller.now)) (course_left driver.course + 1) pass.old driver pass.new result }
    ensures gate { Stops (result ≡ DriveEnd.Stopped) (G.stops gate.old) (G.stops gate.new) }
{
    let pace = match take_steps(caller, pass, &mut driver, gate) {
        Ok(pace) => pace,
        Err(error) => return given_up(error),
    };
    match pace {
        Pace::Go => close(caller, pass, driver),
        Pace::Stop => DriveEnd::Stopped,
    }
}

/// Drives the transaction of a number from its record to its end: it prepares each action, decides, carries each action out or
/// lets its item go, and tells the control cell that all is done. It goes on from wherever others have left it. The gate is asked
/// after each of these steps.
///
/// `Gone` comes exactly where a message of this drive found no such transaction. `Stopped` comes only where the gate counted a
/// stop, and always where it did, and `Spent` only where no unit is left. `NoMemory` comes only before this drive has decided, or
/// when all is done and the reasons that another driver's cancel carried were asked for.
pub fn drive<R: PageRules, G: Gate, T: Wait>(
    caller: &Caller<'_, R, T>,
    pass: &mut Pass<TableWorld<R>>,
    number: u64,
    gate: &mut G,
) -> DriveEndOf<R>
where
    R::Fault: Copy,
    requires rests { IsAtRest caller.now pass.old }
    ensures drives { Drives (R.protocol (partitions_of caller.now)) number pass.old pass.new result }
    ensures stopped { result ≡ DriveEnd.Stopped → Rose (G.stops gate.old) (G.stops gate.new) }
    ensures later { G.stops gate.old ≤ G.stops gate.new }
    ensures obeyed { result ≢ DriveEnd.Stopped → G.stops gate.new ≡ G.stops gate.old }
{
    let found = match recall(caller, pass, number) {
        Ok(found) => found,
        Err(error) => return given_up(error),
    };
    let Some(driver) = found else {
        return DriveEnd::Gone;
    };
    let end = drive_on(caller, pass, driver, gate);
    caller.facts(pass);
    end
}
