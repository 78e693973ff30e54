//! What the control cell holds.

ghost use Rattle.std.specs.Prelude.{ℕ, [], IfOk};

use std::alloc::{AllocError as NoMemory, Global};
use txn_core::{Reason, Rules};
use txn_ledger::TxnLedger;

/// The catalog, the transactions that were begun and not forgotten, and the tokens that stand for transactions.
pub struct ControlCell<R: Rules> {
    pub(crate) catalog: R::Catalog,
    pub(crate) ledger: TxnLedger<R::Action, Reason<R::Value, R::Fault>>,
}

// By hand, so that a crate above calls this one function where it would else prove again how all of it is let go.
impl<R: Rules> Drop for ControlCell<R> {
    fn drop(self) {
        let ControlCell {
            catalog: _,
            ledger: _,
        } = self;
    }
}

impl<R: Rules> ControlCell<R> {
    ghost use Rattle.control_cell.specs.Holding.{Holds};

    /// No table, no transaction and no token.
    pub fn new(alloc: Global) -> Result<ControlCell<R>, NoMemory>
        ensures { IfOk result (λ cell. (n : ℕ) → Holds (R.protocol n) [] cell) }
    {
        let catalog = R::no_table(alloc)?;
        let ledger = TxnLedger::new(alloc)?;
        Ok(ControlCell { catalog, ledger })
    }
}
