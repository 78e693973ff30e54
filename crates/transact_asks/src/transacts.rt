//! Transactions of writes, and reads at one point.

ghost use Rattle.std.specs.Prelude.{◌≡◌, ◌≢◌, ◌≤◌, length};
ghost use Rattle.std.specs.Option.{option_copied};
ghost use Rattle.ddb_outside.specs.Causes.{Rose};
ghost use Rattle.coordinator.specs.declared.transact_end.TransactEnd.{TransactEnd};
ghost use Rattle.transact_asks.specs.Several.{ReadsAll, WritesAll};

use attr_value::SharedItem;
use base_types::Text;
use cell_asks::Asks;
use cell_model::{CellKey, KeyedAction};
use coordinator::{Gate, TransactEnd};
use txn_reader::ReadEnd;
use update_eval::EvalFault;

/// How a transaction of real tables ended.
pub type WritesEnd = TransactEnd<SharedItem, EvalFault>;

/// What became of a read of several items of real tables.
pub type ItemsEnd = ReadEnd<SharedItem, EvalFault>;

/// Who calls on cells of real tables for several messages at once. The errors of a call are among its ends.
pub trait Transacts: Asks {
    /// Writes 1 to 100 actions as one transaction, once within the life of its token (API Reference: TransactWriteItems,
    /// ClientRequestToken). The gate may stop it between two messages.
    fn transact_write<G: Gate>(
        &self,
        pass: &mut Self::Pass,
        token: Option<&Text>,
        actions: &[KeyedAction],
        gate: &mut G,
    ) -> WritesEnd
        requires fits { Self.fits self.now pass.old }
        requires some { 1 ≤ length actions.now }
        requires few { length actions.now ≤ 100 }
        ensures end { WritesAll (Self.count self.now) (Self.seen pass.old) (option_copied token.entry) actions.now result (Self.seen pass.new) }
        ensures stopped { result ≡ TransactEnd.Stopped → Rose (G.stops gate.old) (G.stops gate.new) }
        ensures obeyed { result ≢ TransactEnd.Stopped → G.stops gate.new ≡ G.stops gate.old }
        ensures fits { Self.fits self.now pass.new };

    /// Reads the items of these keys at one point of the history, in two rounds (API Reference: TransactGetItems).
    fn transact_get(&self, pass: &mut Self::Pass, keys: &[CellKey]) -> ItemsEnd
        requires fits { Self.fits self.now pass.old }
        ensures end { ReadsAll (Self.count self.now) (Self.seen pass.old) keys.now result (Self.seen pass.new) }
        ensures fits { Self.fits self.now pass.new };
}
