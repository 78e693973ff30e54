ghost use Rattle.std.specs.Prelude.{◌≡◌};
ghost use Rattle.std.specs.Option.{option_cmp};
ghost use Rattle.std.specs.Ordering.{nat_cmp};
ghost use Rattle.case_rules.specs.Keys.{rank, same_name, key_cmp, place_of};
ghost use Rattle.case_rules.specs.Rows.{item_of, row_of};

use crate::item::Item;
use index_feed::Row;
use std::cmp::Ordering;

/// The name of a table.
#[derive(Clone, Copy, Drop)]
pub enum Name {
    /// What was ordered.
    Orders,
    /// What was paid.
    Payments,
}

/// Which item, or which row of an index.
#[derive(Clone, Copy, Drop)]
pub struct Key {
    /// The name of the item's table.
    pub name: Name,
    /// The number that was drawn when the table was made.
    pub table: u64,
    /// The customer under whom a row of an index stands; none, where the key is an item's.
    pub customer: Option<u64>,
    /// The item's number in its table.
    pub number: u64,
}

impl Name {
    /// Where the table stands in the order of keys.
    fn rank(self) -> u8
        ensures { result ≡ rank self }
    {
        match self {
            Name::Orders => 0,
            Name::Payments => 1,
        }
    }

    /// Whether both are one.
    pub(crate) fn is(self, other: Name) -> bool
        ensures { result ≡ same_name self other }
    {
        match (self, other) {
            (Name::Orders, Name::Orders) => true,
            (Name::Payments, Name::Payments) => true,
            (Name::Orders, Name::Payments) => false,
            (Name::Payments, Name::Orders) => false,
        }
    }
}

/// The order of customers, behind none.
fn compare_customers(left: Option<u64>, right: Option<u64>) -> Ordering
    ensures { result ≡ option_cmp nat_cmp left right }
{
    match (left, right) {
        (None, None) => Ordering::Equal,
        (None, Some(_)) => Ordering::Less,
        (Some(_), None) => Ordering::Greater,
        (Some(left), Some(right)) => left.cmp(&right),
    }
}

impl Key {
    /// The order of keys: by table, items before rows, rows by customer, and then by number.
    pub(crate) fn compare(&self, other: &Key) -> Ordering
        ensures { result ≡ key_cmp self.now other.now }
    {
        let by_name = self.name.rank().cmp(&other.name.rank());
        if by_name.is_ne() {
            return by_name;
        }
        let by_table = self.table.cmp(&other.table);
        if by_table.is_ne() {
            return by_table;
        }
        let by_customer = compare_customers(self.customer, other.customer);
        if by_customer.is_ne() {
            return by_customer;
        }
        self.number.cmp(&other.number)
    }

    /// The item of a row.
    pub(crate) fn item(&self) -> Key
        ensures { result ≡ item_of self.now }
    {
        Key {
            name: self.name,
            table: self.table,
            customer: None,
            number: self.number,
        }
    }

    /// The row of an item, under its customer. An item without one has no row, and neither has a
    /// row.
    pub(crate) fn row(&self, item: &Item) -> Option<Row<Key, Item>>
        ensures { result ≡ row_of self.now item.now }
    {
        match (self.customer, item.customer) {
            (None, Some(_)) => {
                let key = Key {
                    name: self.name,
                    table: self.table,
                    customer: item.customer,
                    number: self.number,
                };
                Some(Row {
                    key,
                    content: *item,
                })
            }
            (None, None) | (Some(_), _) => None,
        }
    }

    /// What decides the cell: an item's number, or a row's customer.
    pub(crate) fn place(&self) -> u64
        ensures { result ≡ place_of self.now.customer self.now.number }
    {
        self.customer.unwrap_or(self.number)
    }
}
