//! What the histories are about, by short names: two tables, their items and rows, and who changes them. The orders are the
//! table 1 and have the index 2, or the payments are the table 2.

use crate::asks::Change;
use case_rules::{Action, Command, Condition, Deed, Item, Key, Name, Question};
use txn_core::Stamp;

/// The order 1.
pub(crate) const A: Key = Key {
    name: Name::Orders,
    table: 1,
    customer: None,
    number: 1,
};

/// The order 2.
pub(crate) const B: Key = Key {
    name: Name::Orders,
    table: 1,
    customer: None,
    number: 2,
};

/// The order 17, which is in the cell of the order 1.
pub(crate) const C: Key = Key {
    name: Name::Orders,
    table: 1,
    customer: None,
    number: 17,
};

/// The row of the order 1 under the customer 4.
pub(crate) const ROW_OF_A: Key = Key {
    name: Name::Orders,
    table: 1,
    customer: Some(4),
    number: 1,
};

/// The row of the order 1 under the customer 9.
pub(crate) const MOVED_ROW: Key = Key {
    name: Name::Orders,
    table: 1,
    customer: Some(9),
    number: 1,
};

/// The item that comes with the payments.
pub(crate) const PAYMENT: Key = Key {
    name: Name::Payments,
    table: 2,
    customer: None,
    number: 0,
};

/// Of the customer 4, with the amount 8.
pub(crate) const EIGHT: Item = Item {
    customer: Some(4),
    amount: 8,
    expires: None,
};

/// Of the customer 4, with the amount 5.
pub(crate) const FIVE: Item = Item {
    customer: Some(4),
    amount: 5,
    expires: None,
};

/// Of the customer 4, with the amount 8, expired from the moment 9 on.
pub(crate) const OLD: Item = Item {
    customer: Some(4),
    amount: 8,
    expires: Some(9),
};

/// Of the customer 9, with the amount 5.
pub(crate) const MOVED: Item = Item {
    customer: Some(9),
    amount: 5,
    expires: None,
};

/// Of the customer 0, whom an index refuses.
pub(crate) const NOBODYS: Item = Item {
    customer: Some(0),
    amount: 5,
    expires: None,
};

pub(crate) const PUT_A: Action = Action {
    key: A,
    condition: Condition::Always,
    deed: Deed::Put { item: EIGHT },
};

pub(crate) const PUT_B: Action = Action {
    key: B,
    condition: Condition::Always,
    deed: Deed::Put { item: FIVE },
};

pub(crate) const PUT_C: Action = Action {
    key: C,
    condition: Condition::Always,
    deed: Deed::Put { item: FIVE },
};

pub(crate) const MOVE_A: Action = Action {
    key: A,
    condition: Condition::Always,
    deed: Deed::Put { item: MOVED },
};

pub(crate) const NOBODYS_A: Action = Action {
    key: A,
    condition: Condition::Always,
    deed: Deed::Put { item: NOBODYS },
};

pub(crate) const TAKE_THREE_OF_A: Action = Action {
    key: A,
    condition: Condition::Always,
    deed: Deed::Take { amount: 3 },
};

pub(crate) const TAKE_SIX_OF_A: Action = Action {
    key: A,
    condition: Condition::Always,
    deed: Deed::Take { amount: 6 },
};

pub(crate) const DELETE_A: Action = Action {
    key: A,
    condition: Condition::Always,
    deed: Deed::Delete,
};

pub(crate) const PUT_OLD_A: Action = Action {
    key: A,
    condition: Condition::Always,
    deed: Deed::Put { item: OLD },
};

pub(crate) const PUT_OLD_C: Action = Action {
    key: C,
    condition: Condition::Always,
    deed: Deed::Put { item: OLD },
};

/// As DELETE_A, where A has the amount 5.
pub(crate) const DELETE_FIVE_OF_A: Action = Action {
    key: A,
    condition: Condition::Holds { amount: 5 },
    deed: Deed::Delete,
};

/// As PUT_B, where there is no order B.
pub(crate) const NEW_B: Action = Action {
    key: B,
    condition: Condition::Absent,
    deed: Deed::Put { item: FIVE },
};

/// Checks that B is there and has the amount 8.
pub(crate) const CHECK_B: Action = Action {
    key: B,
    condition: Condition::Holds { amount: 8 },
    deed: Deed::Check,
};

pub(crate) const MAKE_ORDERS: Command = Command::Create {
    name: Name::Orders,
    first: None,
};

pub(crate) const MAKE_INDEX: Command = Command::AddIndex { name: Name::Orders };

pub(crate) const DROP_ORDERS: Command = Command::Drop { name: Name::Orders };

pub(crate) const MAKE_PAYMENTS: Command = Command::Create {
    name: Name::Payments,
    first: Some(FIVE),
};

/// The payments with an item that expires.
pub(crate) const MAKE_OLD_PAYMENTS: Command = Command::Create {
    name: Name::Payments,
    first: Some(OLD),
};

/// The orders with an item that expires.
pub(crate) const MAKE_OLD_ORDERS: Command = Command::Create {
    name: Name::Orders,
    first: Some(OLD),
};

/// The item that comes with the payments, where they are the table 1.
pub(crate) const FIRST_PAYMENT: Key = Key {
    name: Name::Payments,
    table: 1,
    customer: None,
    number: 0,
};

/// The item that comes with the orders, where they are the table 2.
pub(crate) const FIRST_ORDER: Key = Key {
    name: Name::Orders,
    table: 2,
    customer: None,
    number: 0,
};

pub(crate) const DROP_PAYMENTS: Command = Command::Drop {
    name: Name::Payments,
};

/// The orders of the cell 0.
pub(crate) const ORDERS_0: Question = Question::Page {
    name: Name::Orders,
    table: 1,
    index: None,
    place: 0,
};

/// Those of the cell 1.
pub(crate) const ORDERS_1: Question = Question::Page {
    name: Name::Orders,
    table: 1,
    index: None,
    place: 1,
};

/// The rows of the cell 4.
pub(crate) const ROWS_4: Question = Question::Page {
    name: Name::Orders,
    table: 1,
    index: Some(2),
    place: 4,
};

/// Those of the cell 9.
pub(crate) const ROWS_9: Question = Question::Page {
    name: Name::Orders,
    table: 1,
    index: Some(2),
    place: 9,
};

/// The payments of the cell 0.
pub(crate) const PAYMENTS_0: Question = Question::Page {
    name: Name::Payments,
    table: 2,
    index: None,
    place: 0,
};

/// The stamp of a write at the moment 7, before those of the transactions of that moment.
pub(crate) const WRITTEN: Stamp = Stamp {
    moment: 7,
    number: 0,
};

/// The stamp of an expiration at the moment 9.
pub(crate) const EXPIRED: Stamp = Stamp {
    moment: 9,
    number: 0,
};

pub(crate) const FIRST: Stamp = Stamp {
    moment: 7,
    number: 1,
};

pub(crate) const SECOND: Stamp = Stamp {
    moment: 7,
    number: 2,
};

pub(crate) const THIRD: Stamp = Stamp {
    moment: 7,
    number: 3,
};

/// The first change of the cell 1: the order 1 gets its row.
pub(crate) const ROW_COMES: Change = Change {
    source: 1,
    sequence: 1,
    index: 2,
    row_key: ROW_OF_A,
    after: Some(EIGHT),
};

/// The same with a row that expires.
pub(crate) const OLD_ROW_COMES: Change = Change {
    source: 1,
    sequence: 1,
    index: 2,
    row_key: ROW_OF_A,
    after: Some(OLD),
};

/// The same with another row.
pub(crate) const ROW_COMES_AS_FIVE: Change = Change {
    source: 1,
    sequence: 1,
    index: 2,
    row_key: ROW_OF_A,
    after: Some(FIVE),
};

/// The same under another number.
pub(crate) const ROW_COMES_SECOND: Change = Change {
    source: 1,
    sequence: 2,
    index: 2,
    row_key: ROW_OF_A,
    after: Some(EIGHT),
};

/// The same as of a source that is no partition.
pub(crate) const ROW_FROM_NOWHERE: Change = Change {
    source: 16,
    sequence: 1,
    index: 2,
    row_key: ROW_OF_A,
    after: Some(EIGHT),
};

/// The second change: the row goes.
pub(crate) const ROW_GOES: Change = Change {
    source: 1,
    sequence: 2,
    index: 2,
    row_key: ROW_OF_A,
    after: None,
};

/// The third change: the row comes under another customer.
pub(crate) const NEW_ROW: Change = Change {
    source: 1,
    sequence: 3,
    index: 2,
    row_key: MOVED_ROW,
    after: Some(MOVED),
};

/// The same before the old row goes.
pub(crate) const NEW_ROW_TOO_EARLY: Change = Change {
    source: 1,
    sequence: 2,
    index: 2,
    row_key: MOVED_ROW,
    after: Some(MOVED),
};

/// The fourth change: that row goes.
pub(crate) const NEW_ROW_GOES: Change = Change {
    source: 1,
    sequence: 4,
    index: 2,
    row_key: MOVED_ROW,
    after: None,
};
