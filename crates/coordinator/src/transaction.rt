//! A whole transaction, from its Begin to its Forget.

ghost use Rattle.std.specs.Prelude.{◌≡◌, ◌≢◌, ◌⊎◌, ◌≤◌, ℕ, true, false, Some, length, reverse};
ghost use Rattle.std.specs.Option.{option_copied};
ghost use Rattle.ddb_outside.specs.Causes.{Rose};
ghost use Rattle.turnstile.specs.Passes.{most_units};
ghost use Rattle.txn_core.specs.declared.answer.Answer.{Answer};
ghost use Rattle.txn_core.specs.declared.stamp.Stamp.{Stamp};
ghost use Rattle.txn_core.specs.History.{Had, finishes};
ghost use Rattle.txn_core.specs.Replay.{are_apart};
ghost use Rattle.cluster.specs.Steps.{IsAtRest, partitions_of};
ghost use Rattle.cluster.specs.World.{IsLegalLog};
ghost use Rattle.coordinator.specs.Stops.{Stops};
ghost use Rattle.coordinator.specs.Writes.{AddsWriting, answers_begin, AreWritable, Follows, Forgets, IsDrawn, IsOwn, RunsDrawn, TakesTurn, Writes};
ghost use Rattle.coordinator.specs.declared.drive_end.DriveEnd.{DriveEnd};
ghost use Rattle.coordinator.specs.declared.transact_end.TransactEnd.{TransactEnd};

use crate::apart::are_apart;
use crate::drive_end::{DriveEnd, DriveEndOf};
use crate::driver::Driver;
use crate::gate::{Gate, Pace, Point};
use crate::parameters::begin_message;
use crate::run::{drive, drive_on};
use crate::transact_end::{TransactEnd, TransactEndOf, ended_by, is_over, unanswered};
use base_types::{Seq, Text};
use cluster::{Caller, TableWorld};
use partition::PageRules;
use std::sync::Wait;
use turnstile::Pass;
use txn_core::{Answer, Message, Reply, Stamp, copy_of_actions};

/// Has the record of a transaction forgotten that this pass began and that is done. Where no unit is left for that the record stays,
/// which takes room in the control cell and nothing else.
fn forget<R: PageRules, T: Wait>(
    caller: &Caller<'_, R, T>,
    pass: &mut Pass<TableWorld<R>>,
    number: u64,
)
where
    R::Fault: Copy,
    requires rests { IsAtRest caller.now pass.old }
    requires done { Had (finishes number) (reverse pass.old.front) }
    requires own { IsOwn (R.protocol (partitions_of caller.now)) pass.old.number number (reverse pass.old.front) }
    ensures { Forgets (R.protocol (partitions_of caller.now)) pass.old number pass.new }
{
    let answer = caller.ask_ledger(pass, Message::Forget { number });
    drop(answer);
}

/// Drives a transaction that this pass has just begun, without asking for its record, and has its record forgotten where it is done.
fn run_drawn<R: PageRules, G: Gate, T: Wait>(
    caller: &Caller<'_, R, T>,
    pass: &mut Pass<TableWorld<R>>,
    number: u64,
    stamp: Stamp,
    actions: Seq<R::Action>,
    gate: &mut G,
) -> DriveEndOf<R>
where
    R::Fault: Copy,
    requires rests { IsAtRest caller.now pass.old }
    requires few { length actions ≤ 100 }
    requires drawn { IsDrawn (R.protocol (partitions_of caller.now)) pass.old number stamp actions }
    ensures runs { RunsDrawn (R.protocol (partitions_of caller.now)) number stamp actions pass.old result pass.new }
    ensures gate { Stops (result ≡ DriveEnd.Stopped) (G.stops gate.old) (G.stops gate.new) }
{
    match gate.pass_point(Point::AfterBegin) {
        Pace::Go => {}
        Pace::Stop => return DriveEnd::Stopped,
    }
    let driver = Driver::begun(caller.alloc(), number, stamp, actions);
    let driven = drive_on(caller, pass, driver, gate);
    caller.facts(pass);
    if !is_over(&driven) {
        return driven;
    }
    forget(caller, pass, number);
    caller.facts(pass);
    driven
}

/// What comes of a Begin that was answered so. There is no end where the number that it named as running was found gone.
fn follow<R: PageRules, G: Gate, T: Wait>(
    caller: &Caller<'_, R, T>,
    pass: &mut Pass<TableWorld<R>>,
    answer: Reply<R>,
    actions: Seq<R::Action>,
    gate: &mut G,
) -> Option<TransactEndOf<R>>
where
    R::Fault: Copy,
    requires rests { IsAtRest caller.now pass.old }
    requires few { length actions ≤ 100 }
    requires told { answers_begin answer ≡ true }
    requires drawn { (number : ℕ) (stamp : Stamp) → answer ≡ Answer.Begun number stamp
        → IsDrawn (R.protocol (partitions_of caller.now)) pass.old number stamp actions }
    ensures follows { Follows (R.protocol (partitions_of caller.now)) actions answer pass.old result pass.new }
    ensures gate { Stops (result ≡ Some TransactEnd.Stopped) (G.stops gate.old) (G.stops gate.new) }
{
    match answer {
        Answer::Begun { number, stamp } => ended_by(run_drawn(
            caller, pass, number, stamp, actions, gate,
        )),
        Answer::Running { number } => ended_by(drive(caller, pass, number, gate)),
        Answer::Repeat { number: _ } => Some(TransactEnd::Committed),
        Answer::Mismatch { number } => Some(TransactEnd::Mismatch { number }),
        Answer::Stale => Some(TransactEnd::Stale),
        _ => unreachable!(),
    }
}

/// Sends a Begin and follows its answer. There is no end where it is to be sent again.
fn begin<R: PageRules, G: Gate, T: Wait>(
    caller: &Caller<'_, R, T>,
    pass: &mut Pass<TableWorld<R>>,
    token: Option<&Text>,
    actions: &[R::Action],
    gate: &mut G,
) -> Option<TransactEndOf<R>>
where
    R::Fault: Copy,
    requires rests { IsAtRest caller.now pass.old }
    requires actions { AreWritable (R.protocol (partitions_of caller.now)) actions.now }
    ensures turns { TakesTurn (R.protocol (partitions_of caller.now)) (option_copied token.entry) actions.now pass.old result pass.new }
    ensures gate { Stops (result ≡ Some TransactEnd.Stopped) (G.stops gate.old) (G.stops gate.new) }
{
    // Both copies are made before anything is begun.
    let Ok(own) = copy_of_actions::<R>(caller.alloc(), actions) else {
        return Some(TransactEnd::NoMemory);
    };
    let Ok(message) = begin_message::<R>(caller.alloc(), token, actions) else {
        return Some(TransactEnd::NoMemory);
    };
    match caller.ask_ledger(pass, message) {
        Ok(answer) => follow(caller, pass, answer, own, gate),
        Err(error) => Some(unanswered(error)),
    }
}

/// Sends a Begin and follows its answer, as [`begin`] does. That what was seen then is a legal history, and how many units are used at
/// most, is told to a caller's proof.
fn take_turn<R: PageRules, G: Gate, T: Wait>(
    caller: &Caller<'_, R, T>,
    pass: &mut Pass<TableWorld<R>>,
    token: Option<&Text>,
    actions: &[R::Action],
    gate: &mut G,
) -> Option<TransactEndOf<R>>
where
    R::Fault: Copy,
    requires rests { IsAtRest caller.now pass.old }
    requires actions { AreWritable (R.protocol (partitions_of caller.now)) actions.now }
    ensures turns { TakesTurn (R.protocol (partitions_of caller.now)) (option_copied token.entry) actions.now pass.old result pass.new }
    ensures legal { IsLegalLog (R.protocol (partitions_of caller.now)) pass.new.front }
    ensures budget { pass.new.used ≤ most_units }
    ensures gate { Stops (result ≡ Some TransactEnd.Stopped) (G.stops gate.old) (G.stops gate.new) }
{
    let end = begin(caller, pass, token, actions, gate);
    caller.facts(pass);
    end
}

/// Sends Begins until the number that is named isn't found gone.
fn write_apart<R: PageRules, G: Gate, T: Wait>(
    caller: &Caller<'_, R, T>,
    pass: &mut Pass<TableWorld<R>>,
    token: Option<&Text>,
    actions: &[R::Action],
    gate: &mut G,
) -> TransactEndOf<R>
where
    R::Fault: Copy,
    requires rests { IsAtRest caller.now pass.old }
    requires actions { AreWritable (R.protocol (partitions_of caller.now)) actions.now }
    ensures writes { Writes (R.protocol (partitions_of caller.now)) (option_copied token.entry) actions.now pass.old result pass.new }
    ensures legal { IsLegalLog (R.protocol (partitions_of caller.now)) pass.new.front }
    ensures gate { Stops (result ≡ TransactEnd.Stopped) (G.stops gate.old) (G.stops gate.new) }
{
    'begins: loop {
        match take_turn(caller, pass, token, actions, gate) {
            Some(end) => return end,
            None => {}
        }
    }
}

/// Writes 1 to 100 actions as one transaction: begins it, drives it to its end, and has its record forgotten. With a token whose
/// transaction runs already that one is driven on, and its end is the answer; where it is completed, nothing is changed. In both cases
/// it was begun with the same parameters as these actions have.
///
/// After `Stopped`, `Spent` and `NoMemory` the transaction stands once and whole in the end, or nowhere, once others have driven it on.
/// After any other end than `Stopped` and `Spent` this call leaves no transaction between its decision and its Done.
/// `Stopped` comes only where the gate counted a stop, and always where it did, and `Spent` only where no unit is left. `Twice`
/// comes exactly where two actions are on one item, unless memory is refused for the look.
pub fn transact_write<R: PageRules, G: Gate, T: Wait>(
    caller: &Caller<'_, R, T>,
    pass: &mut Pass<TableWorld<R>>,
    token: Option<&Text>,
    actions: &[R::Action],
    gate: &mut G,
) -> TransactEndOf<R>
where
    R::Fault: Copy,
    requires rests { IsAtRest caller.now pass.old }
    requires some { 1 ≤ length actions.now }
    requires few { length actions.now ≤ 100 }
    ensures writes { are_apart (R.protocol (partitions_of caller.now)).core actions.now ≡ true
        → Writes (R.protocol (partitions_of caller.now)) (option_copied token.entry) actions.now pass.old result pass.new }
    ensures twice { are_apart (R.protocol (partitions_of caller.now)).core actions.now ≡ false
        → (pass.new ≡ pass.old) × ((result ≡ TransactEnd.Twice) ⊎ (result ≡ TransactEnd.NoMemory)) }
    ensures own { AddsWriting (R.protocol (partitions_of caller.now)) (option_copied token.entry) actions.now pass.old result pass.new }
    ensures stopped { result ≡ TransactEnd.Stopped → Rose (G.stops gate.old) (G.stops gate.new) }
    ensures obeyed { result ≢ TransactEnd.Stopped → G.stops gate.new ≡ G.stops gate.old }
{
    let Ok(apart) = are_apart::<R>(caller.alloc(), actions) else {
        return TransactEnd::NoMemory;
    };
    if !apart {
        return TransactEnd::Twice;
    }
    write_apart(caller, pass, token, actions, gate)
}
