//! What the first session of a load does, step by step.

ghost use Rattle.std.specs.Prelude.{◌≡◌, ◌≢◌, ◌≤◌, ◌<◌, IfOk, IfErr};
ghost use Rattle.ddb_outside.specs.Causes.{Rose};
ghost use Rattle.turnstile.specs.Passes.{most_units};
ghost use Rattle.transact_calls.specs.declared.write.Transacted.{Transacted};
ghost use Rattle.cluster.specs.Steps.{IsAtRest, partitions_of};
ghost use Rattle.table_load.specs.declared.end.LoadFault.{LoadFault};
ghost use Rattle.table_load.specs.Sending.{IsMade};
ghost use Rattle.table_load.specs.Rounds.{InOrder, Makes, SetsUp, setup_target, IsSetUp};
ghost use Rattle.table_load.specs.Figures.{ReadsRows};

use crate::end::LoadFault;
use crate::figures::{Figures, Names, figures_of};
use crate::session::Session;
use base_types::Bytes;
use cell_asks::{Asks, Tried};
use ddb_outside::{Clock, StepClock};
use load_gen::setup;
use std::sync::Wait;
use table_cells::TableCaller;
use table_model::Reply;
use transact_asks::Gate;
use transact_calls::Transacted;

/// When the second round begins, in microseconds.
const SECOND_ROUND: u64 = 100_000_000;

/// What tells that a body is a scan's.
const SCAN: &str = "DynamoDB_20120810.Scan";

/// The operation of a request that makes the bank.
fn setup_target(place: u32) -> &'static str
    ensures { result.now ≡ setup_target place }
{
    match place {
        0 => "DynamoDB_20120810.CreateTable",
        _ => "DynamoDB_20120810.PutItem",
    }
}

/// Whether a request that makes the bank was answered as it is in an empty database.
fn is_set_up(reply: &Reply) -> Result<(), LoadFault>
    ensures ok { IfOk result (λ _. IsSetUp reply.now) }
    ensures err { IfErr result (λ why. why ≡ LoadFault.NoMemory) }
{
    match reply {
        Reply::Described(_)
        | Reply::Written {
            shown: _,
            consumed: _,
        } => Ok(()),
        _ => Err(LoadFault::NoMemory),
    }
}

/// Whether a transfer was made.
fn made(end: &Transacted) -> Result<(), LoadFault>
    ensures ok { IfOk result (λ _. IsMade end.now) }
    ensures whole { IfOk result (λ _. end.now ≢ Transacted.Stopped) }
    ensures stopped { IfErr result (λ why. why ≡ LoadFault.Stopped → end.now ≡ Transacted.Stopped) }
    ensures unspent { IfErr result (λ why. why ≢ LoadFault.Spent) }
{
    match end {
        Transacted::Stopped => Err(LoadFault::Stopped),
        Transacted::Tried(Tried::Reply(Reply::TransactWritten { consumed: _ })) => Ok(()),
        Transacted::Tried(_) => Err(LoadFault::NoMemory),
    }
}

impl Session {
    /// Sends one of the requests that make the bank.
    fn set_up_at<T: Wait>(
        &mut self,
        rt: &T,
        cells: &TableCaller<'_, T>,
        clock: &mut StepClock,
        place: u32,
    ) -> Result<(), LoadFault>
        requires rests { IsAtRest cells.now.caller self.old }
        requires place { place ≤ 64 }
        ensures ok { IfOk result (λ _. SetsUp (partitions_of cells.now.caller) place self.old self.new) }
        ensures spent { IfErr result (λ why. why ≡ LoadFault.Spent → self.new.used ≡ most_units) }
        ensures unstopped { IfErr result (λ why. why ≢ LoadFault.Stopped) }
        ensures rests { IsAtRest cells.now.caller self.new }
    {
        let body = setup(cells.alloc(), place)?;
        let reply = self.ask(rt, cells, clock, setup_target(place), &body)?;
        let told = is_set_up(&reply);
        drop(reply);
        told
    }

    /// Sends so many of the 65 requests that make the bank, in order.
    pub(crate) fn set_up<T: Wait>(
        &mut self,
        rt: &T,
        cells: &TableCaller<'_, T>,
        requests: u32,
    ) -> Result<(), LoadFault>
        requires requests { requests ≤ 65 }
        requires rests { IsAtRest cells.now.caller self.old }
        ensures ok { IfOk result (λ _. InOrder (SetsUp (partitions_of cells.now.caller)) requests self.old self.new) }
        ensures spent { IfErr result (λ why. why ≡ LoadFault.Spent → self.new.used ≡ most_units) }
        ensures unstopped { IfErr result (λ why. why ≢ LoadFault.Stopped) }
        ensures rests { IsAtRest cells.now.caller self.new }
    {
        let mut clock = StepClock::make(0, 1);
        for place in 0..requests {
            self.set_up_at(rt, cells, &mut clock, place)?;
        }
        Ok(())
    }

    /// Sends a transfer once more, or for the first time: it is made then.
    fn make<T: Wait, G: Gate>(
        &mut self,
        rt: &T,
        cells: &TableCaller<'_, T>,
        clock: &mut StepClock,
        start: u64,
        place: u64,
        gate: &mut G,
    ) -> Result<(), LoadFault>
        requires rests { IsAtRest cells.now.caller self.old }
        requires start { start ≤ 9999999 }
        requires place { place < 100000 }
        ensures ok { IfOk result (λ _. Makes (partitions_of cells.now.caller) start place self.old self.new) }
        ensures spent { IfErr result (λ why. why ≡ LoadFault.Spent → self.new.used ≡ most_units) }
        ensures stopped { IfErr result (λ why. why ≡ LoadFault.Stopped → Rose (G.stops gate.old) (G.stops gate.new)) }
        ensures obeyed { IfOk result (λ _. G.stops gate.new ≡ G.stops gate.old) }
        ensures rests { IsAtRest cells.now.caller self.new }
    {
        let end = self.send(rt, cells, clock, start, place, gate)?;
        let told = made(&end);
        drop(end);
        told
    }

    /// Sends all transfers, in order, until each is made.
    pub(crate) fn make_all<T: Wait, G: Gate>(
        &mut self,
        rt: &T,
        cells: &TableCaller<'_, T>,
        start: u64,
        count: u64,
        gate: &mut G,
    ) -> Result<(), LoadFault>
        requires rests { IsAtRest cells.now.caller self.old }
        requires start { start ≤ 9999999 }
        requires count { count ≤ 100000 }
        ensures ok { IfOk result (λ _. InOrder (Makes (partitions_of cells.now.caller) start) count self.old self.new) }
        ensures spent { IfErr result (λ why. why ≡ LoadFault.Spent → self.new.used ≡ most_units) }
        ensures stopped { IfErr result (λ why. why ≡ LoadFault.Stopped → Rose (G.stops gate.old) (G.stops gate.new)) }
        ensures rests { IsAtRest cells.now.caller self.new }
    {
        let mut clock = StepClock::make(SECOND_ROUND, 1);
        for place in 0..count {
            self.make(rt, cells, &mut clock, start, place, gate)?;
        }
        Ok(())
    }

    /// Reads all rows that a scan asks for.
    pub(crate) fn read_rows<T: Wait>(
        &mut self,
        rt: &T,
        cells: &TableCaller<'_, T>,
        clock: &mut StepClock,
        body: &str,
    ) -> Result<Figures, LoadFault>
        requires rests { IsAtRest cells.now.caller self.old }
        ensures ok { IfOk result (λ figures. ReadsRows (partitions_of cells.now.caller) body.now figures self.old self.new) }
        ensures spent { IfErr result (λ why. why ≡ LoadFault.Spent → self.new.used ≡ most_units) }
        ensures unstopped { IfErr result (λ why. why ≢ LoadFault.Stopped) }
        ensures rests { IsAtRest cells.now.caller self.new }
    {
        let names = Names::new(cells.alloc())?;
        let body = Bytes::copied(cells.alloc(), body.as_bytes())?;
        let reply = self.ask(rt, cells, clock, SCAN, &body)?;
        let figures = figures_of(&reply, &names);
        drop(reply);
        match figures {
            Some(figures) => Ok(figures),
            None => Err(LoadFault::NoMemory),
        }
    }
}
