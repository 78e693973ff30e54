//! What a session of a load goes on with from request to request.

ghost use Rattle.std.specs.Prelude.{◌≡◌, ◌≢◌, ◌<◌, ◌≤◌, Ok, IfOk, IfErr};
ghost use Rattle.ddb_outside.specs.Causes.{Rose};
ghost use Rattle.turnstile.specs.Histories.{IsBeginning};
ghost use Rattle.turnstile.specs.Passes.{most_units};
ghost use Rattle.cluster.specs.Events.{pass_of};
ghost use Rattle.cluster.specs.Steps.{IsAtRest, partitions_of};
ghost use Rattle.cluster.specs.World.{IsLegalLog};
ghost use Rattle.cell_model.specs.Service.{service};
ghost use Rattle.pass_sessions.specs.Meetings.{SeesMore};
ghost use Rattle.transact_calls.specs.declared.write.Transacted.{Transacted};
ghost use Rattle.table_load.specs.declared.end.LoadFault.{LoadFault};
ghost use Rattle.table_load.specs.Sending.{Asks, Begins, DrainsAll, Sends, SweepsAll};

use crate::asking::{ask, transact};
use crate::end::LoadFault;
use base_types::Bytes;
use cell_asks::{Asks, Looks};
use ddb_outside::{Clock, StepClock};
use load_gen::transfer;
use std::alloc::Global;
use std::marker::Model;
use std::sync::Wait;
use table_cells::{TableCaller, TableCells, TablePass, drain, sweep};
use table_model::Reply;
use transact_asks::Gate;
use transact_calls::Transacted;

/// A session of a load: its pass, and what it was told by Looks. Contracts see its pass.
#[derive(Drop)]
pub struct Session {
    pub(crate) pass: TablePass,
    looks: Looks,
}

impl Model for Session {
    ghost use Rattle.std.specs.Prelude.{reverse};
    ghost use Rattle.turnstile.specs.Passes.{PassView};
    ghost use Rattle.table_history.specs.Entries.{TableEvent};
    ghost use Rattle.cell_asks.specs.Told.{AreTold};
    ghost use Rattle.std.specs.Coded.{codes};
    ghost use Rattle.attr_value.specs.Codes.{attributes_code};
    ghost use Rattle.cell_model.specs.ActionCodes.{action_code};

    ghost Value = { PassView TableEvent };

    ghost coded = { Prim.hlevel (codes, attributes_code, action_code) };

    ghost view = { λ session. session.pass };

    ghost invariant = { λ session. AreTold (reverse session.pass.front) session.looks };
}

impl Session {
    /// A session that was told nothing yet.
    pub fn new(alloc: Global, pass: TablePass) -> Session
        ensures { result ≡ pass }
    {
        Session {
            pass,
            looks: Looks::new(alloc),
        }
    }

    /// Takes a unit for a request, and raises the moment to that of a look at a clock.
    fn begin(&mut self, clock: &mut StepClock) -> Result<(), LoadFault>
        ensures ok { IfOk result (λ _. Begins self.old self.new) }
        ensures spent { IfErr result (λ why. self.new.used ≡ most_units) }
        ensures unstopped { IfErr result (λ why. why ≢ LoadFault.Stopped) }
        ensures err { IfErr result (λ why. self.new ≡ self.old) }
    {
        if self.pass.spend().is_err() {
            return Err(LoadFault::Spent);
        }
        self.pass.tick(clock.now());
        Ok(())
    }

    /// Sends the request that a body states, and answers its reply.
    pub(crate) fn ask<T: Wait>(
        &mut self,
        rt: &T,
        cells: &TableCaller<'_, T>,
        clock: &mut StepClock,
        target: &str,
        body: &Bytes,
    ) -> Result<Reply, LoadFault>
        requires rests { IsAtRest cells.now.caller self.old }
        ensures ok { IfOk result (λ reply. Asks (partitions_of cells.now.caller) self.old target.now body.now reply self.new) }
        ensures spent { IfErr result (λ why. why ≡ LoadFault.Spent → self.new.used ≡ most_units) }
        ensures unstopped { IfErr result (λ why. why ≢ LoadFault.Stopped) }
        ensures rests { IsAtRest cells.now.caller self.new }
    {
        self.begin(clock)?;
        ask(rt, cells, &mut self.pass, &mut self.looks, target, body)
    }

    /// Sends the transfer at a place of a load that starts with this number.
    pub(crate) fn send<T: Wait, G: Gate>(
        &mut self,
        rt: &T,
        cells: &TableCaller<'_, T>,
        clock: &mut StepClock,
        start: u64,
        place: u64,
        gate: &mut G,
    ) -> Result<Transacted, LoadFault>
        requires rests { IsAtRest cells.now.caller self.old }
        requires start { start ≤ 9999999 }
        requires place { place < 100000 }
        ensures ok { IfOk result (λ end. Sends (partitions_of cells.now.caller) self.old start place end self.new) }
        ensures spent { IfErr result (λ why. why ≡ LoadFault.Spent → self.new.used ≡ most_units) }
        ensures unstopped { IfErr result (λ why. why ≢ LoadFault.Stopped) }
        ensures stopped { result ≡ Ok Transacted.Stopped → Rose (G.stops gate.old) (G.stops gate.new) }
        ensures obeyed { result ≢ Ok Transacted.Stopped → G.stops gate.new ≡ G.stops gate.old }
        ensures rests { IsAtRest cells.now.caller self.new }
    {
        self.begin(clock)?;
        let body = transfer(cells.alloc(), start, place)?;
        transact(rt, cells, &mut self.pass, &mut self.looks, &body, gate)
    }

    /// Ends all transactions that were left in the middle. What was told by Looks is let go.
    #[tactic(auto, using(crate::proofs::Upkept::swept))]
    pub(crate) fn sweep<T: Wait, G: Gate>(
        &mut self,
        cells: &TableCaller<'_, T>,
        gate: &mut G,
    ) -> Result<(), LoadFault>
        requires rests { IsAtRest cells.now.caller self.old }
        ensures ok { IfOk result (λ _. SweepsAll (partitions_of cells.now.caller) self.old self.new) }
        ensures stopped { IfErr result (λ why. why ≡ LoadFault.Stopped → Rose (G.stops gate.old) (G.stops gate.new)) }
        ensures obeyed { IfOk result (λ _. G.stops gate.new ≡ G.stops gate.old) }
        ensures rests { IsAtRest cells.now.caller self.new }
    {
        let swept = sweep(cells, &mut self.pass, gate);
        self.looks.forget(cells.alloc());
        let _ended = swept?;
        Ok(())
    }

    /// Feeds indexes until there is nothing to feed. What was told by Looks is let go.
    #[tactic(auto, using(crate::proofs::Upkept::drained))]
    pub(crate) fn drain<T: Wait>(&mut self, cells: &TableCaller<'_, T>) -> Result<(), LoadFault>
        requires rests { IsAtRest cells.now.caller self.old }
        ensures ok { IfOk result (λ _. DrainsAll (partitions_of cells.now.caller) self.old self.new) }
        ensures unstopped { IfErr result (λ why. why ≢ LoadFault.Stopped) }
        ensures rests { IsAtRest cells.now.caller self.new }
    {
        let drained = drain(cells, &mut self.pass);
        self.looks.forget(cells.alloc());
        let _fed = drained?;
        Ok(())
    }

    /// Lets two sessions see what the other had seen.
    pub(crate) fn meet(&mut self, cells: &TableCells, other: &mut Session)
        requires rest { IsAtRest cells.now.cluster self.old × IsAtRest cells.now.cluster other.old }
        ensures one { SeesMore pass_of self.old self.new }
        ensures other { SeesMore pass_of other.old other.new }
        ensures seen { IsBeginning other.new.front self.new.front }
        ensures rest { IsAtRest cells.now.cluster self.new × IsAtRest cells.now.cluster other.new }
    {
        cells.meet(&mut self.pass, &mut other.pass);
    }

    /// Does nothing. It is told to a caller's proof that what the session has seen is legal.
    pub(crate) fn facts(&self, cells: &TableCells)
        requires rest { IsAtRest cells.now.cluster self.now }
        ensures legal { IsLegalLog (service (partitions_of cells.now.cluster)) self.now.front }
    {
        cells.facts(&self.pass);
    }
}
