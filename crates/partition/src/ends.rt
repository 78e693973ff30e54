//! The messages that end a transaction on an item. They take no memory.

ghost use Rattle.std.specs.Prelude.{◌≡◌, ℕ};
ghost use Rattle.txn_core.specs.declared.message.Message.{Message};
ghost use Rattle.txn_core.specs.History.{is_applied, is_released};
ghost use Rattle.partition.specs.InStep.{StaysInStep};
ghost use Rattle.partition.specs.Knows.{LeftByApply, LeftByRelease, applied, released};
ghost use Rattle.partition.specs.Says.{Leaves, Says, apply_says, release_says};

use crate::cell::PartitionOf;
use index_changes::CellRules;
use txn_core::{Answer, Reply};

/// Makes an item what it is to be, if the transaction of this number holds it.
fn settle<R: CellRules>(cell: &mut PartitionOf<R>, number: u64, key: &R::Key) -> Reply<R>
    ensures says { (n : ℕ) → result ≡ applied (R.protocol n) cell.old number key.now }
    ensures left { (n : ℕ) → LeftByApply (R.protocol n) cell.old cell.new key.now (is_applied result) }
    ensures in_step { (n : ℕ) → StaysInStep (R.protocol n) R.locals cell.old cell.new }
{
    if !cell.settle(R::table_of(key), key, number) {
        return Answer::Nothing;
    }
    Answer::Applied
}

/// Lets an item go, if the transaction of this number holds it.
fn let_go<R: CellRules>(cell: &mut PartitionOf<R>, number: u64, key: &R::Key) -> Reply<R>
    ensures says { (n : ℕ) → result ≡ released (R.protocol n) cell.old number key.now }
    ensures left { (n : ℕ) → LeftByRelease (R.protocol n) cell.old cell.new key.now (is_released result) }
    ensures in_step { (n : ℕ) → StaysInStep (R.protocol n) R.locals cell.old cell.new }
{
    if !cell.let_go(R::table_of(key), key, number) {
        return Answer::Nothing;
    }
    Answer::Released
}

/// An Apply: makes an item that the transaction holds what it is to be, and queues the changes of its index rows.
pub fn apply<R: CellRules>(cell: &mut PartitionOf<R>, number: u64, key: &R::Key) -> Reply<R>
    ensures says { (n : ℕ) → Says (R.protocol n) ((R.protocol n).core.cell_of key.now) cell.old
        (λ w f. apply_says (R.protocol n) w number key.now) result }
    ensures leaves { (n moment : ℕ) → Leaves (R.protocol n) ((R.protocol n).core.cell_of key.now) cell.old cell.new moment
        (Message.Apply number key.now) result }
    ensures in_step { (n : ℕ) → StaysInStep (R.protocol n) R.locals cell.old cell.new }
{
    settle::<R>(cell, number, key)
}

/// A Release: lets an item go that the transaction holds.
pub fn release<R: CellRules>(cell: &mut PartitionOf<R>, number: u64, key: &R::Key) -> Reply<R>
    ensures says { (n : ℕ) → Says (R.protocol n) ((R.protocol n).core.cell_of key.now) cell.old
        (λ w f. release_says (R.protocol n) w number key.now) result }
    ensures leaves { (n moment : ℕ) → Leaves (R.protocol n) ((R.protocol n).core.cell_of key.now) cell.old cell.new moment
        (Message.Release number key.now) result }
    ensures in_step { (n : ℕ) → StaysInStep (R.protocol n) R.locals cell.old cell.new }
{
    let_go::<R>(cell, number, key)
}
