//! Calls of several messages.

ghost use Rattle.std.specs.Prelude.{◌≡◌, ◌≢◌, ◌↔◌, ◌<◌, ◌≤◌, ℕ, true, None, Some, [], ◌∷◌, reverse, IfOk, IfErr, Err};
ghost use Rattle.turnstile.specs.Histories.{IsTimely, own};
ghost use Rattle.turnstile.specs.Passes.{most_units};
ghost use Rattle.txn_core.specs.declared.message.Message.{Message};
ghost use Rattle.txn_core.specs.Legal.{sent_to};
ghost use Rattle.txn_core.specs.Memory.{takes_no_memory};
ghost use Rattle.partition.specs.Steps.{is_served};
ghost use Rattle.control_cell.specs.Holding.{goes_to_control};
ghost use Rattle.cluster.specs.Events.{event_of, moment_of, pass_of};
ghost use Rattle.cluster.specs.World.{IsLegalLog};
ghost use Rattle.cluster.specs.Steps.{IsAtRest, IsLater, MayAsk, partitions_of};
ghost use Rattle.cluster.specs.declared.step.StepError.{StepError};
ghost use Rattle.cluster.specs.Counts.{Counts, CountsUntil};

use crate::cluster::Cluster;
use crate::step::StepError;
use crate::world::TableWorld;
use partition::{CommandRules, PageRules};
use std::alloc::Global;
use std::marker::Model;
use std::sync::Wait;
use turnstile::Pass;
use txn_core::{Asked, Reply};

/// What a call of several messages is made with: the cluster, the runtime that its thread waits by, and the allocator. The pass is lent
/// to the call beside it, is one of the cluster's, and holds no turn between two messages.
///
/// It is seen as its cluster.
pub struct Caller<'a, R: PageRules, T> {
    cluster: &'a Cluster<R>,
    rt: &'a T,
    alloc: Global,
}

impl<'a, R: PageRules, T> Model for Caller<'a, R, T> {
    ghost use Rattle.turnstile.specs.Passes.{TurnstileView};

    ghost Value = { TurnstileView };

    ghost view = { λ c. c.cluster.now };
}

impl<'a, R: PageRules, T> Drop for Caller<'a, R, T> {
    fn drop(self) {
        let Self {
            cluster: _,
            rt: _,
            alloc: _,
        } = self;
    }
}

impl<'a, R: PageRules, T> Caller<'a, R, T> {
    /// Who calls on this cluster.
    pub fn new(cluster: &'a Cluster<R>, rt: &'a T, alloc: Global) -> Caller<'a, R, T>
        ensures { result ≡ cluster.now }
    {
        Caller { cluster, rt, alloc }
    }

    /// The allocator.
    pub fn alloc(&self) -> Global {
        self.alloc
    }

    /// How many partitions there are.
    pub fn partitions(&self) -> u32
        ensures count { result ≡ partitions_of self.now }
        ensures some { (1 ≤ result) × (result ≤ 64) }
    {
        self.cluster.partitions()
    }

    /// The partition of an item, or of a row of an index.
    pub fn cell_of(&self, key: &R::Key) -> u32
        ensures cell { result ≡ (R.protocol (partitions_of self.now)).core.cell_of key.now }
        ensures partition { result < partitions_of self.now }
    {
        self.cluster.cell_of(key)
    }

    /// Does nothing: see [`facts`](Cluster::facts) of a cluster.
    pub fn facts(&self, pass: &Pass<TableWorld<R>>)
        requires rests { IsAtRest self.now pass.now }
        ensures legal { IsLegalLog (R.protocol (partitions_of self.now)) pass.now.front }
        ensures strangers { (p : ℕ) → pass.now.passes ≤ p → own pass_of p pass.now.front ≡ [] }
        ensures timely { IsTimely pass_of moment_of pass.now.number pass.now.moment pass.now.front }
        ensures budget { pass.now.used ≤ most_units }
    {
        self.cluster.facts(pass);
    }
}

impl<'a, R: PageRules, T: Wait> Caller<'a, R, T> {
    /// Has a partition answer a message, at the moment of the pass and for one unit of it. The errors are those of
    /// [`step`](Cluster::step).
    pub fn ask(
        &self,
        pass: &mut Pass<TableWorld<R>>,
        cell: u32,
        message: Asked<R>,
    ) -> Result<Reply<R>, StepError>
    where
        R::Fault: Copy,
        requires rests { IsAtRest self.now pass.old }
        requires served { is_served (partitions_of self.now) message ≡ true }
        requires sent { sent_to (R.protocol (partitions_of self.now)) message ≡ Some cell }
        requires may { MayAsk (R.protocol (partitions_of self.now)) pass.old message }
        ensures later { IfOk result (λ a. IsLater (R.protocol (partitions_of self.now)) (reverse pass.old.front)
            (event_of pass.old (Some cell) message a) (reverse pass.new.front)) }
        ensures ok { IfOk result (λ a. Counts (R.protocol (partitions_of self.now)) pass.old (event_of pass.old (Some cell) message a ∷ []) 0 pass.new) }
        ensures err { IfErr result (λ why. CountsUntil (R.protocol (partitions_of self.now)) pass.old [] why pass.new) }
        ensures spent { result ≡ Err StepError.Spent ↔ (pass.old.used ≡ most_units) }
        ensures unchanged { result ≡ Err StepError.Spent → pass.new ≡ pass.old }
        ensures sure { takes_no_memory message ≡ true → result ≢ Err StepError.NoMemory }
    {
        self.cluster.step(self.rt, self.alloc, pass, cell, message)
    }

    /// Has the control cell answer a message that goes to it alone, at the moment of the pass and for one unit of it. The errors are
    /// those of [`step`](Cluster::step).
    pub fn ask_ledger(
        &self,
        pass: &mut Pass<TableWorld<R>>,
        message: Asked<R>,
    ) -> Result<Reply<R>, StepError>
    where
        R::Fault: Copy,
        requires rests { IsAtRest self.now pass.old }
        requires goes { goes_to_control (R.protocol (partitions_of self.now)) message ≡ true }
        requires may { MayAsk (R.protocol (partitions_of self.now)) pass.old message }
        ensures later { IfOk result (λ a. IsLater (R.protocol (partitions_of self.now)) (reverse pass.old.front)
            (event_of pass.old (Some (partitions_of self.now)) message a) (reverse pass.new.front)) }
        ensures ok { IfOk result (λ a. Counts (R.protocol (partitions_of self.now)) pass.old
            (event_of pass.old (Some (partitions_of self.now)) message a ∷ []) 0 pass.new) }
        ensures err { IfErr result (λ why. CountsUntil (R.protocol (partitions_of self.now)) pass.old [] why pass.new) }
        ensures spent { result ≡ Err StepError.Spent ↔ (pass.old.used ≡ most_units) }
        ensures unchanged { result ≡ Err StepError.Spent → pass.new ≡ pass.old }
        ensures sure { takes_no_memory message ≡ true → result ≢ Err StepError.NoMemory }
    {
        self.cluster.step_ledger(self.rt, self.alloc, pass, message)
    }

    /// Has all cells answer a command, at the moment of the pass and for one unit of it. The errors are those of
    /// [`step_all`](Cluster::step_all).
    pub fn ask_all(
        &self,
        pass: &mut Pass<TableWorld<R>>,
        command: R::Command,
    ) -> Result<Reply<R>, StepError>
    where
        R: CommandRules,
        requires rests { IsAtRest self.now pass.old }
        ensures later { IfOk result (λ a. IsLater (R.protocol (partitions_of self.now)) (reverse pass.old.front)
            (event_of pass.old None (Message.Command command) a) (reverse pass.new.front)) }
        ensures ok { IfOk result (λ a. Counts (R.protocol (partitions_of self.now)) pass.old
            (event_of pass.old None (Message.Command command) a ∷ []) 0 pass.new) }
        ensures err { IfErr result (λ why. CountsUntil (R.protocol (partitions_of self.now)) pass.old [] why pass.new) }
        ensures spent { result ≡ Err StepError.Spent ↔ (pass.old.used ≡ most_units) }
        ensures unchanged { result ≡ Err StepError.Spent → pass.new ≡ pass.old }
    {
        self.cluster.step_all(self.rt, self.alloc, pass, command)
    }
}
