//! Items of the shop, in short.

use case_rules::{Action, Condition, Deed, Item, Key, Name};

/// The key of an order or a payment, where the table of orders was made first and that of payments second.
pub(crate) fn key_of(item: (Name, u64)) -> Key {
    let (name, number) = item;
    let table = match name {
        Name::Orders => 1,
        Name::Payments => 2,
    };
    Key {
        name,
        table,
        customer: None,
        number,
    }
}

/// The key of an order.
pub(crate) fn order(number: u64) -> Key {
    key_of((Name::Orders, number))
}

/// Gives an item of nobody this amount where a condition holds.
pub(crate) fn put_at(key: Key, condition: Condition, amount: u64) -> Action {
    Action {
        key,
        condition,
        deed: Deed::Put {
            item: Item {
                customer: None,
                amount,
                expires: None,
            },
        },
    }
}

/// Gives an order this amount where a condition holds.
pub(crate) fn put_where(number: u64, condition: Condition, amount: u64) -> Action {
    put_at(order(number), condition, amount)
}

/// Gives an order this amount.
pub(crate) fn put(number: u64, amount: u64) -> Action {
    put_where(number, Condition::Always, amount)
}
