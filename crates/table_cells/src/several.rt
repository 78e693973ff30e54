//! Calls of several messages.

ghost use Rattle.std.specs.Prelude.{◌≡◌, ◌≢◌, ◌⊎◌, ◌+◌, ◌*◌, ◌<◌, ◌≤◌, true, false, length, Err, IfErr, IfOk, OnOk};
ghost use Rattle.std.specs.Option.{option_copied};
ghost use Rattle.ddb_outside.specs.Causes.{Rose};
ghost use Rattle.txn_core.specs.Replay.{are_apart};
ghost use Rattle.cluster.specs.Steps.{IsAtRest, partitions_of};
ghost use Rattle.cell_model.specs.Service.{service};
ghost use Rattle.coordinator.specs.declared.transact_end.TransactEnd.{TransactEnd};
ghost use Rattle.coordinator.specs.Writes.{AddsWriting, Writes};
ghost use Rattle.txn_reader.specs.Reads.{Ends, IsOfOnePoint};
ghost use Rattle.index_feeder.specs.Feeds.{Drains, LeavesDrained, MakesPartly};
ghost use Rattle.recovery_manager.specs.declared.sweep_end.SweepEnd.{SweepEnd};
ghost use Rattle.recovery_manager.specs.Sweeps.{Sweeps, SweepsPartly};
ghost use Rattle.recovery_manager.specs.Expiries.{Expires, ExpiresPartly};

use crate::cells::{TableCaller, TablePass};
use attr_value::SharedItem;
use base_types::Text;
use cell_asks::StepError;
use cell_model::{CellKey, KeyedAction};
use cell_rules::TableRules;
use coordinator::{Gate, TransactEndOf};
use recovery_manager::{Expiry, SweepEnd};
use std::sync::Wait;
use txn_reader::ReadEnd;
use update_eval::EvalFault;

/// Writes 1 to 100 actions as one transaction: see [`transact_write`](coordinator::transact_write).
#[tactic(auto, using(crate::proofs::Rested::wrote_rests))]
pub fn transact_write<G: Gate, T: Wait>(
    cells: &TableCaller<'_, T>,
    pass: &mut TablePass,
    token: Option<&Text>,
    actions: &[KeyedAction],
    gate: &mut G,
) -> TransactEndOf<TableRules>
    requires fits { IsAtRest cells.now.caller pass.old }
    requires some { 1 ≤ length actions.now }
    requires few { length actions.now ≤ 100 }
    ensures writes { are_apart (service (partitions_of cells.now.caller)).core actions.now ≡ true
        → Writes (service (partitions_of cells.now.caller)) (option_copied token.entry) actions.now pass.old result pass.new }
    ensures twice { are_apart (service (partitions_of cells.now.caller)).core actions.now ≡ false
        → (pass.new ≡ pass.old) × ((result ≡ TransactEnd.Twice) ⊎ (result ≡ TransactEnd.NoMemory)) }
    ensures own { AddsWriting (service (partitions_of cells.now.caller)) (option_copied token.entry) actions.now pass.old result pass.new }
    ensures stopped { result ≡ TransactEnd.Stopped → Rose (G.stops gate.old) (G.stops gate.new) }
    ensures obeyed { result ≢ TransactEnd.Stopped → G.stops gate.new ≡ G.stops gate.old }
    ensures fits { IsAtRest cells.now.caller pass.new }
{
    coordinator::transact_write(&cells.caller, pass, token, actions, gate)
}

/// Reads the items of several keys at one point of the history: see [`transact_get`](txn_reader::transact_get).
#[tactic(auto, using(cluster::proofs::Rest::still_at_rest))]
pub fn transact_get<T: Wait>(
    cells: &TableCaller<'_, T>,
    pass: &mut TablePass,
    keys: &[CellKey],
) -> ReadEnd<SharedItem, EvalFault>
    requires fits { IsAtRest cells.now.caller pass.old }
    ensures end { Ends (service (partitions_of cells.now.caller)) pass.old keys.now result pass.new }
    ensures point { IsOfOnePoint (service (partitions_of cells.now.caller)) pass.old keys.now result pass.new }
    ensures units { pass.new.used ≤ pass.old.used + 2 * length keys.now + 1 }
    ensures fits { IsAtRest cells.now.caller pass.new }
{
    txn_reader::transact_get(&cells.caller, pass, keys)
}

/// Feeds each partition until it is found empty, and tells how many changes were fed: see [`drain`](index_feeder::drain).
#[tactic(auto, using(crate::proofs::Rested::drained_rests))]
pub fn drain<T: Wait>(cells: &TableCaller<'_, T>, pass: &mut TablePass) -> Result<u64, StepError>
    requires fits { IsAtRest cells.now.caller pass.old }
    ensures ok { IfOk result (λ fed. Drains (service (partitions_of cells.now.caller)) (partitions_of cells.now.caller) pass.old fed pass.new) }
    ensures drained { OnOk result (LeavesDrained (service (partitions_of cells.now.caller)) pass.old pass.new) }
    ensures units { IfOk result (λ fed.
        pass.new.used ≤ pass.old.used + partitions_of cells.now.caller + (partitions_of cells.now.caller + 3) * fed) }
    ensures err { IfErr result (λ why. MakesPartly (service (partitions_of cells.now.caller)) (partitions_of cells.now.caller + 1)
        (partitions_of cells.now.caller) pass.old why pass.new) }
    ensures fits { IsAtRest cells.now.caller pass.new }
{
    index_feeder::drain(&cells.caller, pass)
}

/// Drives each transaction that is not ended to its end, and tells how many these are: see [`sweep`](recovery_manager::sweep).
#[tactic(auto, using(crate::proofs::Rested::swept_rests))]
pub fn sweep<G: Gate, T: Wait>(
    cells: &TableCaller<'_, T>,
    pass: &mut TablePass,
    gate: &mut G,
) -> Result<u64, SweepEnd>
    requires fits { IsAtRest cells.now.caller pass.old }
    ensures ok { IfOk result (λ count. Sweeps (service (partitions_of cells.now.caller)) (partitions_of cells.now.caller) pass.old count pass.new) }
    ensures err { IfErr result (λ why.
        SweepsPartly (service (partitions_of cells.now.caller)) (partitions_of cells.now.caller) pass.old why pass.new) }
    ensures stopped { result ≡ Err SweepEnd.Stopped → Rose (G.stops gate.old) (G.stops gate.new) }
    ensures obeyed { result ≢ Err SweepEnd.Stopped → G.stops gate.new ≡ G.stops gate.old }
    ensures fits { IsAtRest cells.now.caller pass.new }
{
    recovery_manager::sweep(&cells.caller, pass, gate)
}

/// Removes at most `limit` items of a partition that are expired: see [`expire`](recovery_manager::expire).
#[tactic(auto, using(crate::proofs::Rested::expired_rests))]
pub fn expire<T: Wait>(
    cells: &TableCaller<'_, T>,
    pass: &mut TablePass,
    limit: u32,
    cell: u32,
) -> Result<Expiry, StepError>
    requires fits { IsAtRest cells.now.caller pass.old }
    requires cell { cell < partitions_of cells.now.caller }
    requires some { 1 ≤ limit }
    ensures ok { IfOk result (λ expiry. Expires (service (partitions_of cells.now.caller)) limit cell pass.old expiry pass.new) }
    ensures units { IfOk result (λ expiry. pass.new.used ≤ pass.old.used + limit + 1) }
    ensures err { IfErr result (λ why. ExpiresPartly (service (partitions_of cells.now.caller)) limit cell pass.old why pass.new) }
    ensures fits { IsAtRest cells.now.caller pass.new }
{
    recovery_manager::expire(&cells.caller, pass, limit, cell)
}
