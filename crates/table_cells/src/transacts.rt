//! What calls ask of the cells that takes several messages.

ghost use Rattle.std.specs.Prelude.{◌≡◌, ◌≢◌, ◌≤◌, length};
ghost use Rattle.std.specs.Option.{option_copied};
ghost use Rattle.ddb_outside.specs.Causes.{Rose};
ghost use Rattle.cluster.specs.Steps.{IsAtRest, partitions_of};
ghost use Rattle.coordinator.specs.declared.transact_end.TransactEnd.{TransactEnd};
ghost use Rattle.transact_asks.specs.Several.{ReadsAll, WritesAll};

use crate::cells::{TableCaller, TablePass};
use crate::several;
use base_types::Text;
use cell_model::{CellKey, KeyedAction};
use coordinator::Gate;
use std::sync::Wait;
use transact_asks::{ItemsEnd, Transacts, WritesEnd};

/// Writes actions as one transaction, seen as calls see it.
fn write_all<G: Gate, T: Wait>(
    cells: &TableCaller<'_, T>,
    pass: &mut TablePass,
    token: Option<&Text>,
    actions: &[KeyedAction],
    gate: &mut G,
) -> WritesEnd
    requires fits { IsAtRest cells.now.caller pass.old }
    requires some { 1 ≤ length actions.now }
    requires few { length actions.now ≤ 100 }
    ensures end { WritesAll (partitions_of cells.now.caller) pass.old (option_copied token.entry) actions.now result pass.new }
    ensures stopped { result ≡ TransactEnd.Stopped → Rose (G.stops gate.old) (G.stops gate.new) }
    ensures obeyed { result ≢ TransactEnd.Stopped → G.stops gate.new ≡ G.stops gate.old }
    ensures fits { IsAtRest cells.now.caller pass.new }
{
    several::transact_write(cells, pass, token, actions, gate)
}

/// Reads items at one point, seen as calls see it.
fn read_all<T: Wait>(cells: &TableCaller<'_, T>, pass: &mut TablePass, keys: &[CellKey]) -> ItemsEnd
    requires fits { IsAtRest cells.now.caller pass.old }
    ensures end { ReadsAll (partitions_of cells.now.caller) pass.old keys.now result pass.new }
    ensures fits { IsAtRest cells.now.caller pass.new }
{
    several::transact_get(cells, pass, keys)
}

impl<'a, T: Wait> Transacts for TableCaller<'a, T> {
    fn transact_write<G: Gate>(
        &self,
        pass: &mut TablePass,
        token: Option<&Text>,
        actions: &[KeyedAction],
        gate: &mut G,
    ) -> WritesEnd {
        write_all(self, pass, token, actions, gate)
    }

    fn transact_get(&self, pass: &mut TablePass, keys: &[CellKey]) -> ItemsEnd {
        read_all(self, pass, keys)
    }
}
