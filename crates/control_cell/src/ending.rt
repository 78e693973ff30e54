//! Messages that decide, finish and forget a transaction. They take no memory.

ghost use Rattle.std.specs.Prelude.{ℕ};
ghost use Rattle.control_cell.specs.Holding.{Answers, Takes, TakesAllowed};
ghost use Rattle.txn_core.specs.declared.message.Message.{Message};

use crate::cell::ControlCell;
use base_types::Seq;
use txn_core::{Answer, Reason, Reply, Rules};

impl<R: Rules> ControlCell<R> {
    /// A Decide: sets the fate of a transaction that is not decided yet, with its reasons. The token of one that it cancels is
    /// free at once.
    pub fn decide(
        &mut self,
        number: u64,
        commit: bool,
        reasons: Seq<Reason<R::Value, R::Fault>>,
    ) -> Reply<R>
        ensures answers { (n moment : ℕ) → Answers (R.protocol n) self.old moment (Message.Decide number commit reasons) result }
        ensures takes { (n moment : ℕ) → Takes (R.protocol n) self.old self.new moment (Message.Decide number commit reasons) result }
    {
        let (fate, first) = self.ledger.decide(number, commit, reasons);
        Answer::Decided { fate, first }
    }

    /// A Done: each action of the transaction was applied or released. Its token lives for 600 seconds from the first one on.
    pub fn finish(&mut self, number: u64, moment: u64) -> Reply<R>
        ensures answers { (n : ℕ) → Answers (R.protocol n) self.old moment (Message.Done number) result }
        ensures takes { (n : ℕ) → Takes (R.protocol n) self.old self.new moment (Message.Done number) result }
    {
        if self.ledger.finish(number, moment) {
            Answer::Finished
        } else {
            Answer::Nothing
        }
    }

    /// A Forget: the record of a transaction that is done goes. Its token stays.
    pub fn forget(&mut self, number: u64) -> Reply<R>
        ensures answers { (n moment : ℕ) → Answers (R.protocol n) self.old moment (Message.Forget number) result }
        ensures takes { (n moment : ℕ) → TakesAllowed (R.protocol n) self.old self.new moment (Message.Forget number) result }
    {
        if self.ledger.forget(number) {
            Answer::Forgotten
        } else {
            Answer::Nothing
        }
    }
}
