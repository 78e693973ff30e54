ghost use Rattle.std.specs.Prelude.{◌≡◌};
ghost use Rattle.std.specs.Option.{option_to_list};
ghost use Rattle.case_rules.specs.Catalogs.{no_table, table_of, top, drawn, number_after, is_numbered, has_table, indexes, index_of, created, with_index, name_of, table_after, catalog_after, first_of};

use crate::item::Item;
use crate::key::{Key, Name};

/// A table that is there.
#[derive(Clone, Copy, Drop)]
pub struct Table {
    /// The number that was drawn when it was made.
    pub number: u64,
    /// The number of its index by customer, if it has one.
    pub index: Option<u64>,
}

/// The tables that are there.
#[derive(Clone, Copy, Drop)]
pub struct Catalog {
    /// The table of orders.
    pub orders: Option<Table>,
    /// The table of payments.
    pub payments: Option<Table>,
    /// The greatest number that was drawn before the last command.
    pub drawn_before: u64,
}

/// A change of the catalog.
#[derive(Clone, Copy, Drop)]
pub enum Command {
    /// Makes a table, with this item under the number 0, if one is given.
    Create {
        /// The table's name.
        name: Name,
        /// The item that comes with it.
        first: Option<Item>,
    },
    /// Makes the index of a table.
    AddIndex {
        /// The table's name.
        name: Name,
    },
    /// Takes a table away, with its items and its index.
    Drop {
        /// The table's name.
        name: Name,
    },
}

/// The last number that is drawn, so small that a test reaches it.
const LAST: u64 = 5;

fn top(table: Option<Table>) -> u64
    ensures { result ≡ top table }
{
    match table {
        None => 0,
        Some(table) => table.number.max(table.index.unwrap_or(0)),
    }
}

/// Whether the table is there, under this number.
pub(crate) fn is_numbered(table: Option<Table>, number: u64) -> bool
    ensures { result ≡ is_numbered table number }
{
    match table {
        None => false,
        Some(table) => table.number == number,
    }
}

/// The index of a table, where there is a table and it has one.
pub(crate) fn index_of(table: Option<Table>) -> Option<u64>
    ensures { result ≡ index_of table }
{
    match table {
        None => None,
        Some(table) => table.index,
    }
}

fn with_index(number: Option<u64>, old: Option<Table>) -> Option<Table>
    ensures { result ≡ with_index number old }
{
    match (number, old) {
        (Some(_), Some(table)) => Some(Table {
            number: table.number,
            index: number,
        }),
        (Some(_), None) => None,
        (None, _) => old,
    }
}

fn created(number: Option<u64>, old: Option<Table>) -> Option<Table>
    ensures { result ≡ created number old }
{
    match number {
        None => old,
        Some(number) => Some(Table {
            number,
            index: None,
        }),
    }
}

impl Catalog {
    /// No table.
    pub(crate) fn empty() -> Catalog
        ensures { result ≡ no_table }
    {
        Catalog {
            orders: None,
            payments: None,
            drawn_before: 0,
        }
    }

    /// The table of a name.
    pub(crate) fn table(&self, name: Name) -> Option<Table>
        ensures { result ≡ table_of self.now name }
    {
        match name {
            Name::Orders => self.orders,
            Name::Payments => self.payments,
        }
    }

    /// The greatest number that was drawn.
    fn drawn(&self) -> u64
        ensures { result ≡ drawn self.now }
    {
        self.drawn_before
            .max(top(self.orders).max(top(self.payments)))
    }

    /// The number that is drawn next; none, where all are drawn.
    pub(crate) fn next_number(&self) -> Option<u64>
        ensures { result ≡ number_after (drawn self.now) }
    {
        let drawn = self.drawn();
        if drawn < LAST { Some(drawn + 1) } else { None }
    }

    /// Whether the table of an item or a row is there.
    pub(crate) fn has(&self, key: &Key) -> bool
        ensures { result ≡ has_table self.now key.now }
    {
        is_numbered(self.table(key.name), key.table)
    }

    /// The index of the table of an item or a row, where both are there.
    pub(crate) fn index_at(&self, key: &Key) -> Option<u64>
        ensures { option_to_list result ≡ indexes self.now key.now }
    {
        if self.has(key) {
            index_of(self.table(key.name))
        } else {
            None
        }
    }

    /// The catalog after a command. It draws a number where there is one.
    pub(crate) fn after(&self, command: &Command) -> Catalog
        ensures { result ≡ catalog_after command.now self.now }
    {
        let table = command.table_after(self.next_number(), self.table(command.name()));
        let (orders, payments) = match command.name() {
            Name::Orders => (table, self.payments),
            Name::Payments => (self.orders, table),
        };
        Catalog {
            orders,
            payments,
            drawn_before: self.drawn(),
        }
    }
}

impl Command {
    /// The name of the table that it is about.
    pub(crate) fn name(&self) -> Name
        ensures { result ≡ name_of self.now }
    {
        match self {
            Command::Create { name, .. } => *name,
            Command::AddIndex { name } => *name,
            Command::Drop { name } => *name,
        }
    }

    /// What it makes of its table, by the number that comes next.
    fn table_after(&self, next: Option<u64>, old: Option<Table>) -> Option<Table>
        ensures { result ≡ table_after self.now next old }
    {
        match self {
            Command::Create { .. } => created(next, old),
            Command::AddIndex { .. } => with_index(next, old),
            Command::Drop { .. } => None,
        }
    }

    /// The item that comes with a new table, with its key.
    pub(crate) fn first(&self, catalog: &Catalog) -> Option<(Key, Item)>
        ensures { result ≡ first_of self.now catalog.now }
    {
        let (name, item) = match self {
            Command::Create {
                name,
                first: Some(item),
            } => (*name, *item),
            _ => return None,
        };
        let key = Key {
            name,
            table: catalog.next_number()?,
            customer: None,
            number: 0,
        };
        Some((key, item))
    }
}
