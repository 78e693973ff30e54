//! A client of a load.

ghost use Rattle.std.specs.Prelude.{◌≡◌, ◌≢◌, ◌≤◌, ◌<◌, IfOk, IfErr};
ghost use Rattle.turnstile.specs.Passes.{most_units};
ghost use Rattle.cluster.specs.Steps.{IsAtRest, partitions_of};
ghost use Rattle.table_load.specs.declared.end.LoadFault.{LoadFault};
ghost use Rattle.table_load.specs.Sending.{IsBegun};
ghost use Rattle.table_load.specs.Rounds.{InOrder, SendsShare};
ghost use Rattle.table_load.specs.Clients.{WorksRound};

use crate::end::LoadFault;
use crate::gates::PointGate;
use crate::session::Session;
use cell_asks::Tried;
use ddb_outside::{Clock, StepClock};
use std::sync::Wait;
use table_cells::TableCaller;
use table_model::{Refusal, Reply};
use transact_calls::Transacted;

/// When clients begin, in microseconds.
const FIRST_ROUND: u64 = 1_000_000;

/// Which transfers of which load clients send.
#[derive(Clone, Copy)]
pub(crate) struct Shares {
    pub(crate) start: u64,
    pub(crate) count: u64,
    pub(crate) clients: u64,
}

/// A client: its session, its number among the clients, from 0, and the gate that may stop its transfers in the middle.
#[derive(Drop)]
pub struct Client {
    pub(crate) session: Session,
    pub(crate) number: u64,
    pub(crate) gate: PointGate,
    /// Why its round ended early, where it did.
    pub(crate) fault: Option<LoadFault>,
}

/// Whether a transfer was begun. What else could come of it no load has; it is answered as want of memory.
fn begun(end: &Transacted) -> Result<(), LoadFault>
    ensures ok { IfOk result (λ _. IsBegun end.now) }
    ensures err { IfErr result (λ why. why ≡ LoadFault.NoMemory) }
{
    match end {
        Transacted::Stopped => Ok(()),
        Transacted::Tried(Tried::Reply(Reply::TransactWritten { consumed: _ })) => Ok(()),
        Transacted::Tried(Tried::Reply(Reply::Refused(Refusal::Cancelled(_)))) => Ok(()),
        Transacted::Tried(_) => Err(LoadFault::NoMemory),
    }
}

impl Client {
    /// Sends the transfer at a place, if it is of the client's share.
    fn send_own<T: Wait>(
        &mut self,
        rt: &T,
        cells: &TableCaller<'_, T>,
        clock: &mut StepClock,
        shares: Shares,
        place: u64,
    ) -> Result<(), LoadFault>
        requires rests { IsAtRest cells.now.caller self.old.session }
        requires start { shares.start ≤ 9999999 }
        requires place { place < 100000 }
        requires clients { 1 ≤ shares.clients }
        ensures ok { IfOk result (λ _. SendsShare (partitions_of cells.now.caller) shares.start shares.clients self.old.number place self.old.session self.new.session) }
        ensures spent { IfErr result (λ why. why ≡ LoadFault.Spent → self.new.session.used ≡ most_units) }
        ensures unstopped { IfErr result (λ why. why ≢ LoadFault.Stopped) }
        ensures rests { IsAtRest cells.now.caller self.new.session }
        ensures number { self.new.number ≡ self.old.number }
    {
        if place % shares.clients != self.number {
            return Ok(());
        }
        let end = self
            .session
            .send(rt, cells, clock, shares.start, place, &mut self.gate)?;
        let told = begun(&end);
        drop(end);
        told
    }

    /// Sends the client's share of the transfers, in order.
    fn send_share<T: Wait>(
        &mut self,
        rt: &T,
        cells: &TableCaller<'_, T>,
        shares: Shares,
    ) -> Result<(), LoadFault>
        requires rests { IsAtRest cells.now.caller self.old.session }
        requires start { shares.start ≤ 9999999 }
        requires count { shares.count ≤ 100000 }
        requires clients { 1 ≤ shares.clients }
        ensures ok { IfOk result (λ _. InOrder (SendsShare (partitions_of cells.now.caller) shares.start shares.clients self.old.number) shares.count self.old.session self.new.session) }
        ensures spent { IfErr result (λ why. why ≡ LoadFault.Spent → self.new.session.used ≡ most_units) }
        ensures unstopped { IfErr result (λ why. why ≢ LoadFault.Stopped) }
        ensures rests { IsAtRest cells.now.caller self.new.session }
        ensures number { self.new.number ≡ self.old.number }
    {
        let mut clock = StepClock::make(FIRST_ROUND, 1);
        for place in 0..shares.count {
            self.send_own(rt, cells, &mut clock, shares, place)?;
        }
        Ok(())
    }

    /// The client's round, of which it keeps how it ended.
    pub(crate) fn work<T: Wait>(&mut self, rt: &T, cells: &TableCaller<'_, T>, shares: Shares)
        requires rests { IsAtRest cells.now.caller self.old.session }
        requires start { shares.start ≤ 9999999 }
        requires count { shares.count ≤ 100000 }
        requires clients { 1 ≤ shares.clients }
        ensures works { WorksRound (partitions_of cells.now.caller) shares self.old self.new }
        ensures rests { IsAtRest cells.now.caller self.new.session }
    {
        self.fault = self.send_share(rt, cells, shares).err();
    }
}
