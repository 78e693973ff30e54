//! The messages of the feed of indexes.

ghost use Rattle.std.specs.Prelude.{◌≡◌, ◌<◌, ◌&&◌, ℕ, IfOk, OnOk, OnErr, if◌then◌else◌};
ghost use Rattle.std.specs.Ordering.{nat_cmp};
ghost use Rattle.std.specs.BTreeMap.{is_at};
ghost use Rattle.global_index.specs.Rows.{row_under};
ghost use Rattle.txn_core.specs.declared.message.Message.{Message};
ghost use Rattle.txn_core.specs.Feeding.{change};
ghost use Rattle.txn_core.specs.Answers.{feed_answer};
ghost use Rattle.partition.specs.InStep.{StaysInStep};
ghost use Rattle.partition.specs.Knows.{KeepsRows, LeftByAck, LeftByFeed, acked_by, fed_by, shown_by};
ghost use Rattle.partition.specs.Says.{Keeps, Leaves, Says, ack_says, feed_says, out_says};

use crate::cell::PartitionOf;
use crate::reads::copy_of_row;
use global_index::IndexRows;
use index_changes::{CellRules, is_served};
use std::alloc::{AllocError as NoMemory, Global};
use txn_core::{Answer, Reply};

/// Shows the first change that waits.
fn show<R: CellRules>(alloc: Global, cell: &PartitionOf<R>) -> Result<Reply<R>, NoMemory>
    ensures { IfOk result (λ a. a ≡ shown_by (R.protocol cell.now.partitions) cell.now) }
{
    let Some((sequence, change)) = cell.outbox.first() else {
        return Ok(Answer::Empty);
    };
    Ok(Answer::Out {
        sequence,
        index: change.index,
        target: R::cell_of(cell.partitions, &change.key),
        row_key: R::copy_of_key(alloc, &change.key)?,
        after: copy_of_row::<R>(alloc, change.after.as_ref())?,
    })
}

/// A PeekOut: the first change that waits.
pub fn peek_out<R: CellRules>(alloc: Global, cell: &PartitionOf<R>) -> Result<Reply<R>, NoMemory>
    ensures { IfOk result (λ a. (n i : ℕ) → Says (R.protocol n) i cell.now (λ w f. out_says (R.protocol n) f i) a) }
{
    show::<R>(alloc, cell)
}

/// Takes the first change out, where it has this number.
fn take_first<R: CellRules>(cell: &mut PartitionOf<R>, sequence: u64) -> Reply<R>
    ensures says { (n : ℕ) → result ≡ acked_by (R.protocol n) cell.old sequence }
    ensures left { LeftByAck cell.old cell.new sequence }
    ensures in_step { (n : ℕ) → StaysInStep (R.protocol n) R.locals cell.old cell.new }
{
    if cell.outbox.acknowledge(sequence) {
        Answer::Acked
    } else {
        Answer::Nothing
    }
}

/// An Ack: takes the first change out, where it has this number. It takes no memory.
pub fn acknowledge<R: CellRules>(cell: &mut PartitionOf<R>, sequence: u64) -> Reply<R>
    ensures says { (n i : ℕ) → Says (R.protocol n) i cell.old (λ w f. ack_says (R.protocol n) f i sequence) result }
    ensures leaves { (n i moment : ℕ) → Leaves (R.protocol n) i cell.old cell.new moment (Message.Ack i sequence) result }
    ensures in_step { (n : ℕ) → StaysInStep (R.protocol n) R.locals cell.old cell.new }
{
    take_first::<R>(cell, sequence)
}

/// Makes or removes a row of an index, which gets its place where it has none yet.
fn set_row<K: Ord + Drop, V: Drop>(
    alloc: Global,
    rows: &mut IndexRows<K, V>,
    index: u64,
    key: K,
    after: Option<V>,
) -> Result<(), NoMemory>
    ensures ok { OnOk result ((g : ℕ) (q : K) → row_under K.cmp rows.new.indexes g q
        ≡ (if is_at (nat_cmp index) g && is_at (K.cmp key) q then after else row_under K.cmp rows.old.indexes g q)) }
    ensures err { OnErr result ((g : ℕ) (q : K) → row_under K.cmp rows.new.indexes g q ≡ row_under K.cmp rows.old.indexes g q) }
{
    let Some(row) = after else {
        rows.remove(index, &key);
        return Ok(());
    };
    if rows.index(index).is_none() {
        rows.open(alloc, index)?;
    }
    rows.put(index, key, row)
}

/// Carries a change of an index row out, where that wasn't done yet and the index is there, and answers whether it did.
fn carry_out<R: CellRules>(
    alloc: Global,
    cell: &mut PartitionOf<R>,
    source: u32,
    sequence: u64,
    index: u64,
    row_key: R::Key,
    after: Option<R::Value>,
) -> Result<bool, NoMemory>
    requires { source < cell.old.partitions }
    ensures carried { IfOk result (λ is. (n : ℕ) → is ≡ fed_by (R.protocol n) cell.old source sequence (change index row_key after)) }
    ensures left { IfOk result (λ is. (n : ℕ) →
        LeftByFeed (R.protocol n) cell.old cell.new source sequence (change index row_key after) is) }
    ensures err { OnErr result (KeepsRows cell.old cell.new) }
    ensures in_step { (n : ℕ) → StaysInStep (R.protocol n) R.locals cell.old cell.new }
{
    if cell.marks.last(source) >= sequence {
        return Ok(false);
    }
    if !is_served::<R>(alloc, &cell.catalog, index, &row_key)? {
        return Ok(false);
    }
    set_row(alloc, &mut cell.rows, index, row_key, after)?;
    cell.marks.mark(source, sequence);
    Ok(true)
}

/// The answer to an ApplyIndex, by whether it was carried out.
fn fed_reply<R: CellRules>(is_fed: bool) -> Reply<R>
    ensures { result ≡ feed_answer is_fed }
{
    if is_fed { Answer::Fed } else { Answer::Already }
}

/// An ApplyIndex: carries a change of an index row out that waits in a source's outbox, where that wasn't done yet and the
/// index is there.
pub fn apply_index<R: CellRules>(
    alloc: Global,
    cell: &mut PartitionOf<R>,
    source: u32,
    sequence: u64,
    index: u64,
    row_key: R::Key,
    after: Option<R::Value>,
) -> Result<Reply<R>, NoMemory>
    requires { source < cell.old.partitions }
    ensures says { IfOk result (λ a. (n : ℕ) → Says (R.protocol n) ((R.protocol n).core.cell_of row_key) cell.old
        (λ w f. feed_says (R.protocol n) f source sequence (change index row_key after)) a) }
    ensures leaves { IfOk result (λ a. (n moment : ℕ) → Leaves (R.protocol n) ((R.protocol n).core.cell_of row_key) cell.old cell.new
        moment (Message.ApplyIndex source sequence index row_key after) a) }
    ensures err { OnErr result ((n i : ℕ) → Keeps (R.protocol n) i cell.old cell.new) }
    ensures in_step { (n : ℕ) → StaysInStep (R.protocol n) R.locals cell.old cell.new }
{
    let is_fed = carry_out::<R>(alloc, cell, source, sequence, index, row_key, after)?;
    Ok(fed_reply::<R>(is_fed))
}
