//! What becomes of a read of several items.

use base_types::Seq;
use txn_core::Reason;

/// What became of a read of several items. `V` is what an item holds, and `F` why an action can't be evaluated, which no read answers.
#[derive(Drop)]
pub enum ReadEnd<V, F> {
    /// The items in the order of their keys: all of one point.
    Rows(Seq<Option<V>>),
    /// Why not, for each key in order: `Held` where a transaction held the item at either read, else `Moved` where its version differed
    /// between them, else `None`.
    Cancelled(Seq<Reason<V, F>>),
    /// The table of the key at this place, from 0, was gone when it was read.
    NoTable(usize),
    /// The budget of the pass is used up.
    Spent,
    /// Memory was refused, or a number was not left.
    NoMemory,
}
