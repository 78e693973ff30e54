//! Partitions and the control cell, each behind a turn.

ghost use Rattle.std.specs.Prelude.{◌≡◌, ◌≢◌, ◌↔◌, ◌<◌, ◌≤◌, ℕ, true, None, Some, [], length, slice_get, IfOk, Err};
ghost use Rattle.turnstile.specs.Histories.{IsTimely, Trail, longer, own};
ghost use Rattle.turnstile.specs.Passes.{first_passes, most_units};
ghost use Rattle.txn_core.specs.declared.message.Message.{Message};
ghost use Rattle.txn_core.specs.Legal.{sent_to};
ghost use Rattle.txn_core.specs.Memory.{takes_no_memory};
ghost use Rattle.partition.specs.Steps.{is_served};
ghost use Rattle.control_cell.specs.Holding.{goes_to_control};
ghost use Rattle.cluster.specs.Events.{moment_of, pass_of};
ghost use Rattle.cluster.specs.World.{IsLegalLog};
ghost use Rattle.cluster.specs.Steps.{Adds, AddsNone, IsAtRest, MayAsk, partitions_of};
ghost use Rattle.cluster.specs.Closing.{AreAfterAll};

use crate::cell::CellOf;
use crate::closing::{Cells, split};
use crate::command_step::ask_all;
use crate::start::first_cells;
use crate::step::{StepError, ask};
use crate::world::TableWorld;
use base_types::Seq;
use partition::{CommandRules, PageRules, PartitionOf};
use std::alloc::{AllocError as NoMemory, Global};
use std::marker::Model;
use std::sync::Wait;
use turnstile::{Pass, Turnstile};
use txn_core::{Asked, Reply};

/// Partitions, numbered from 0, and behind them the control cell, for threads that have a pass each.
pub struct Cluster<R: PageRules> {
    turnstile: Turnstile<TableWorld<R>>,
    // Room for the answer of `close`.
    room: Vec<PartitionOf<R>>,
}

impl<R: PageRules> Model for Cluster<R> {
    ghost use Rattle.std.specs.Prelude.{◌≡◌, ◌+◌, ◌≤◌, [], vec_capacity};
    ghost use Rattle.turnstile.specs.Passes.{TurnstileView};

    ghost Value = { TurnstileView };

    ghost view = { λ c. c.turnstile };

    ghost invariant = { λ c. (2 ≤ c.turnstile.id.slots) × (c.turnstile.id.slots ≤ 65) × (c.room.items ≡ [])
        × (c.turnstile.id.slots ≤ vec_capacity c.room + 1) };
}

impl<R: PageRules> Cluster<R> {
    /// Makes 1 to 64 partitions and a control cell, in which nothing happened yet, and 1 to 64 passes, numbered from 0.
    pub fn make(
        alloc: Global,
        partitions: u32,
        passes: u32,
    ) -> Result<(Cluster<R>, Seq<Pass<TableWorld<R>>>), NoMemory>
        requires partitions { (1 ≤ partitions) × (partitions ≤ 64) }
        requires passes { (1 ≤ passes) × (passes ≤ 64) }
        ensures cluster { IfOk result (λ made. (partitions_of made.0 ≡ partitions) × (made.0.passes ≡ passes)) }
        ensures passes { IfOk result (λ made. made.1 ≡ first_passes made.0.id passes passes) }
    {
        let room = Vec::with_capacity(alloc, partitions as usize)?;
        let cells = first_cells::<R>(alloc, partitions)?;
        let (turnstile, passes) = Turnstile::make(alloc, cells, passes)?;
        Ok((Cluster { turnstile, room }, passes))
    }

    /// How many partitions there are.
    pub fn partitions(&self) -> u32
        ensures count { result ≡ partitions_of self.now }
        ensures some { (1 ≤ result) × (result ≤ 64) }
    {
        self.turnstile.cells() as u32 - 1
    }

    /// The partition of an item, or of a row of an index.
    pub fn cell_of(&self, key: &R::Key) -> u32
        ensures cell { result ≡ (R.protocol (partitions_of self.now)).core.cell_of key.now }
        ensures partition { result < partitions_of self.now }
    {
        R::cell_of(self.partitions(), key)
    }

    /// Lets each of the two passes see all that the other had seen.
    pub fn meet(&self, pass: &mut Pass<TableWorld<R>>, other: &mut Pass<TableWorld<R>>)
        requires rest { IsAtRest self.now pass.old × IsAtRest self.now other.old }
        ensures pass { pass.new ≡ record pass.old { front = longer pass.old.front other.old.front } }
        ensures other { other.new ≡ record other.old { front = pass.new.front } }
        ensures trail { Trail pass_of pass.old.number pass.old.front [] pass.new.front }
        ensures other_trail { Trail pass_of other.old.number other.old.front [] pass.new.front }
    {
        self.turnstile.meet(pass, other);
    }

    /// Does nothing. What holds of every pass of the cluster is told to a caller's proof: what it has seen is a legal history,
    /// which has no entry of a pass that was not made and no own entry later than the pass, and it has used no more units than
    /// there are.
    pub fn facts(&self, pass: &Pass<TableWorld<R>>)
        requires { pass.now.turnstile ≡ self.now.id }
        ensures legal { IsLegalLog (R.protocol (partitions_of self.now)) pass.now.front }
        ensures strangers { (p : ℕ) → pass.now.passes ≤ p → own pass_of p pass.now.front ≡ [] }
        ensures timely { IsTimely pass_of moment_of pass.now.number pass.now.moment pass.now.front }
        ensures budget { pass.now.used ≤ most_units }
    {
        pass.facts();
    }

    /// Has a partition answer a message, at the moment of the pass and for one unit of it. The error is [`StepError::Spent`] where no
    /// unit is left, and else [`StepError::NoMemory`], which never comes for a message that takes no memory; then nothing is
    /// counted, and the cell is as it was.
    pub fn step<T: Wait>(
        &self,
        rt: &T,
        alloc: Global,
        pass: &mut Pass<TableWorld<R>>,
        cell: u32,
        message: Asked<R>,
    ) -> Result<Reply<R>, StepError>
    where
        R::Fault: Copy,
        requires rests { IsAtRest self.now pass.old }
        requires served { is_served (partitions_of self.now) message ≡ true }
        requires sent { sent_to (R.protocol (partitions_of self.now)) message ≡ Some cell }
        requires may { MayAsk (R.protocol (partitions_of self.now)) pass.old message }
        ensures ok { IfOk result (λ a. Adds (R.protocol (partitions_of self.now)) pass.old (Some cell) message a pass.new) }
        ensures no_memory { result ≡ Err StepError.NoMemory → AddsNone (R.protocol (partitions_of self.now)) pass.old pass.new }
        ensures spent { result ≡ Err StepError.Spent ↔ (pass.old.used ≡ most_units) }
        ensures unchanged { result ≡ Err StepError.Spent → pass.new ≡ pass.old }
        ensures sure { takes_no_memory message ≡ true → result ≢ Err StepError.NoMemory }
    {
        ask(&self.turnstile, rt, alloc, pass, cell, message)
    }

    /// Has the control cell answer a message that goes to it alone, at the moment of the pass and for one unit of it. The errors are
    /// those of [`step`](Cluster::step).
    pub fn step_ledger<T: Wait>(
        &self,
        rt: &T,
        alloc: Global,
        pass: &mut Pass<TableWorld<R>>,
        message: Asked<R>,
    ) -> Result<Reply<R>, StepError>
    where
        R::Fault: Copy,
        requires rests { IsAtRest self.now pass.old }
        requires goes { goes_to_control (R.protocol (partitions_of self.now)) message ≡ true }
        requires may { MayAsk (R.protocol (partitions_of self.now)) pass.old message }
        ensures ok { IfOk result (λ a. Adds (R.protocol (partitions_of self.now)) pass.old (Some (partitions_of self.now)) message a pass.new) }
        ensures no_memory { result ≡ Err StepError.NoMemory → AddsNone (R.protocol (partitions_of self.now)) pass.old pass.new }
        ensures spent { result ≡ Err StepError.Spent ↔ (pass.old.used ≡ most_units) }
        ensures unchanged { result ≡ Err StepError.Spent → pass.new ≡ pass.old }
        ensures sure { takes_no_memory message ≡ true → result ≢ Err StepError.NoMemory }
    {
        ask(&self.turnstile, rt, alloc, pass, self.partitions(), message)
    }

    /// Has all cells answer a command, at the moment of the pass and for one unit of it. The turns of all cells are taken, in their order;
    /// the command is refused by its name, else held up by a transaction that holds an item of its table, else refused by the catalog, or
    /// carried out in all cells. The errors are those of [`step`](Cluster::step).
    pub fn step_all<T: Wait>(
        &self,
        rt: &T,
        alloc: Global,
        pass: &mut Pass<TableWorld<R>>,
        command: R::Command,
    ) -> Result<Reply<R>, StepError>
    where
        R: CommandRules,
        requires rests { IsAtRest self.now pass.old }
        ensures ok { IfOk result (λ a. Adds (R.protocol (partitions_of self.now)) pass.old None (Message.Command command) a pass.new) }
        ensures no_memory { result ≡ Err StepError.NoMemory → AddsNone (R.protocol (partitions_of self.now)) pass.old pass.new }
        ensures spent { result ≡ Err StepError.Spent ↔ (pass.old.used ≡ most_units) }
        ensures unchanged { result ≡ Err StepError.Spent → pass.new ≡ pass.old }
    {
        ask_all(&self.turnstile, rt, alloc, pass, &command)
    }

    /// The cells after all steps. It takes no memory.
    pub fn close(self, passes: Seq<Pass<TableWorld<R>>>) -> Cells<R>
        requires rest { (i : ℕ) (p : _) → slice_get passes i ≡ Some p → IsAtRest self p }
        requires all { (q : ℕ) → q < self.passes → (i : ℕ) × (p : _) × (slice_get passes i ≡ Some p) × (p.number ≡ q) }
        ensures count { length result.partitions ≡ partitions_of self }
        ensures after { AreAfterAll (R.protocol (partitions_of self)) passes result.partitions result.ledger }
    {
        let Cluster { turnstile, room } = self;
        let cells: Vec<Box<CellOf<R>>> = turnstile.close(passes).into();
        split(cells, room)
    }
}

impl<R: PageRules> Drop for Cluster<R> {
    fn drop(self) {
        let Self {
            turnstile: _,
            room: _,
        } = self;
    }
}
