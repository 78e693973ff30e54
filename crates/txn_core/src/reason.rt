use crate::stamp::Stamp;

/// Why an action of a cancelled transaction was not accepted, as the cancellation tells it. `V` is
/// what an item holds, `F` why an action can't be evaluated.
#[derive(Drop)]
pub enum Reason<V, F> {
    /// The action was accepted.
    None,
    /// Its condition is false.
    ConditionFalse {
        /// The item as it was found.
        old: Option<V>,
    },
    /// Another transaction, the one of this number, holds the item.
    Held {
        /// Its number.
        number: u64,
    },
    /// The item was changed at a stamp that isn't earlier than the transaction's.
    Late {
        /// The item's stamp, or where the item is absent, the floor of its cell.
        stamp: Stamp,
    },
    /// Two reads found two versions of the item.
    Moved {
        /// The version that the first read found.
        first: u64,
        /// The version that the second read found.
        second: u64,
    },
    /// The action can't be evaluated on its item.
    Invalid {
        /// Why.
        fault: F,
    },
}
