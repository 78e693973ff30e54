use crate::stamp::Stamp;

/// What a Prepare of one action was answered, as far as it decides about the transaction.
#[derive(Clone, Copy, PartialEq, Eq, Debug, Drop)]
pub enum Verdict {
    /// The action can be carried out; its item is held for the transaction.
    Accepted,
    /// Another transaction, the one of this number, holds the item.
    Held {
        /// The number of the transaction that holds the item.
        number: u64,
    },
    /// The item was changed at a stamp that isn't earlier than the transaction's.
    Late {
        /// The item's stamp, or where the item is absent, the floor of its cell.
        stamp: Stamp,
    },
    /// The action's condition is false.
    CondFalse,
    /// The action can't be evaluated on its item.
    Invalid,
    /// The action's table is gone.
    NoTable,
}
