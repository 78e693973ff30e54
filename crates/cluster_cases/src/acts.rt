//! What one thread does on a cluster, and what becomes of it, in short.

use case_rules::{Fault, Item, Name};
use coordinator::{Point, TransactEnd};
use txn_core::Reason;

/// What is done. An order or a payment is meant by its table and its number.
#[derive(Clone, Copy)]
pub(crate) enum Act {
    /// Makes the table, of orders first.
    Create(Name),
    /// Takes the table away.
    Drop(Name),
    /// Puts an item with this amount.
    Put((Name, u64), u64),
    /// Begins a transaction that deletes the item, and prepares it.
    Hold((Name, u64)),
    /// Gets an order by itself.
    Get(u64),
    /// Reads two items at one point.
    Read((Name, u64), (Name, u64)),
    /// Writes a transaction with this token, which makes two orders with these amounts.
    Make(&'static str, [(u64, u64); 2]),
    /// Writes a transaction that gives the orders 1 and 2 this amount, and leaves off at a point.
    Leave(Point, u64),
    /// Ends what was left.
    Sweep,
}

/// What became of it.
#[derive(Clone, Copy, PartialEq)]
pub(crate) enum Became {
    /// It was done.
    Done,
    /// The amount of an order, if it is there.
    Amount(Option<u64>),
    /// The amounts of the items that were read.
    Amounts(Option<u64>, Option<u64>),
    /// The transactions that hold them.
    Holders(Option<u64>, Option<u64>),
    /// The table of the key at this place was gone.
    NoTable(usize),
    /// The transaction is cancelled, since the condition of its second action alone is false.
    SecondIsUnmet,
    /// Its token stands for the transaction of this number.
    Mismatch(u64),
    /// Both actions are on one order.
    Twice,
    /// Its driver left off.
    Stopped,
    /// So many transactions were ended.
    Swept(u64),
    /// Anything else.
    Else,
}

/// What became of a transaction of two actions.
pub(crate) fn ended(end: TransactEnd<Item, Fault>) -> Became {
    match end {
        TransactEnd::Committed => Became::Done,
        TransactEnd::Cancelled(reasons) => match reasons.as_slice() {
            [Reason::None, Reason::ConditionFalse { .. }] => Became::SecondIsUnmet,
            _ => Became::Else,
        },
        TransactEnd::Mismatch { number } => Became::Mismatch(number),
        TransactEnd::Twice => Became::Twice,
        TransactEnd::Stopped => Became::Stopped,
        _ => Became::Else,
    }
}

/// The amount of the item at this place.
pub(crate) fn amount_at(items: &[Option<Item>], place: usize) -> Option<u64> {
    match items.get(place) {
        Some(Some(item)) => Some(item.amount),
        _ => None,
    }
}

/// Who holds the item at this place.
pub(crate) fn holder_at<V, F>(reasons: &[Reason<V, F>], place: usize) -> Option<u64> {
    match reasons.get(place) {
        Some(Reason::Held { number }) => Some(*number),
        _ => None,
    }
}
