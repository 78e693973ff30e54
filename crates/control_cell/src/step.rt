//! One step of the control cell.

ghost use Rattle.std.specs.Prelude.{◌≡◌, ℕ, true, IfOk, OnErr};
ghost use Rattle.txn_core.specs.Memory.{takes_no_memory};
ghost use Rattle.control_cell.specs.Holding.{Answers, TakesAllowed, Unchanged, goes_to_control};

use crate::cell::ControlCell;
use std::alloc::{AllocError as NoMemory, Global};
use txn_core::{Asked, Message, Reply, Rules};

impl<R: Rules> ControlCell<R>
where
    R::Fault: Copy,
{
    /// Answers a message that goes to the control cell alone, at a moment.
    pub fn step(
        &mut self,
        alloc: Global,
        message: Asked<R>,
        moment: u64,
    ) -> Result<Reply<R>, NoMemory>
        requires goes { (n : ℕ) → goes_to_control (R.protocol n) message ≡ true }
        ensures answers { IfOk result (λ a. (n : ℕ) → Answers (R.protocol n) self.old moment message a) }
        ensures takes { IfOk result (λ a. (n : ℕ) → TakesAllowed (R.protocol n) self.old self.new moment message a) }
        ensures err { OnErr result (Unchanged self.old self.new) }
        ensures sure { takes_no_memory message ≡ true → OnErr result ⊥ }
    {
        match message {
            Message::Begin { token, actions } => self.begin(alloc, token, actions, moment),
            Message::Decide {
                number,
                commit,
                reasons,
            } => Ok(self.decide(number, commit, reasons)),
            Message::Done { number } => Ok(self.finish(number, moment)),
            Message::Forget { number } => Ok(self.forget(number)),
            Message::FateOf { number } => Ok(self.fate_of(number)),
            Message::Recall { number } => self.recall(alloc, number),
            Message::Unfinished => self.unfinished(alloc),
            Message::Ask { question } => self.ask(alloc, &question),
            _ => unreachable!(),
        }
    }
}
