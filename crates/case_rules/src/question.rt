ghost use Rattle.std.specs.Prelude.{◌≡◌};
ghost use Rattle.case_rules.specs.Rows.{number_told, name_asked, page_place, page_index, page_table, is_index, serves, is_of};
ghost use Rattle.case_rules.specs.Shop.{drawing};

use crate::catalog::{Catalog, Table, index_of, is_numbered};
use crate::item::Item;
use crate::key::{Key, Name};
use base_types::Seq;
use txn_core::Ruling;

/// A question about the catalog, or a page of rows.
#[derive(Clone, Copy, Drop)]
pub enum Question {
    /// Which number a table has.
    Number {
        /// The table's name.
        name: Name,
    },
    /// The rows of a table in one cell.
    Page {
        /// The table's name.
        name: Name,
        /// The table's number.
        table: u64,
        /// The number of the table's index; none, where the page is of its items.
        index: Option<u64>,
        /// A number or a customer that lives in the cell.
        place: u64,
    },
}

/// What is told of the catalog, or a page.
#[derive(Drop)]
pub enum Told {
    /// The number of a table, or of an index.
    Numbered {
        /// The number.
        number: u64,
    },
    /// There is no table of that name.
    NoTable,
    /// A table of that name is there already.
    InUse,
    /// The table has an index already.
    HasIndex,
    /// All five numbers are drawn.
    Full,
    /// The rows of a page, in the order of their keys.
    Rows {
        /// Each with its key.
        rows: Seq<(Key, Item)>,
    },
}

/// Whether a page of this index, or of items, is one of a table with that index.
fn is_index(asked: Option<u64>, index: Option<u64>) -> bool
    ensures { result ≡ is_index asked index }
{
    asked.is_none() || asked == index
}

impl Told {
    /// The number of a table.
    pub(crate) fn number_of(table: Option<Table>) -> Told
        ensures { result ≡ number_told table }
    {
        match table {
            None => Told::NoTable,
            Some(table) => Told::Numbered {
                number: table.number,
            },
        }
    }

    /// What is told of a command that draws a number.
    pub(crate) fn drawing(next: Option<u64>) -> Ruling<Told>
        ensures { result ≡ drawing next }
    {
        match next {
            None => Ruling::Refuses { told: Told::Full },
            Some(number) => Ruling::Carries {
                told: Told::Numbered { number },
            },
        }
    }
}

impl Question {
    /// The table that is asked about.
    pub(crate) fn name(&self) -> Name
        ensures { result ≡ name_asked self.now }
    {
        match self {
            Question::Number { name } | Question::Page { name, .. } => *name,
        }
    }

    /// What decides the cell of a page.
    pub(crate) fn place(&self) -> u64
        ensures { result ≡ page_place self.now }
    {
        match self {
            Question::Number { .. } => 0,
            Question::Page { place, .. } => *place,
        }
    }

    /// The index that a page is of.
    pub(crate) fn index(&self) -> Option<u64>
        ensures { result ≡ page_index self.now }
    {
        match self {
            Question::Number { .. } => None,
            Question::Page { index, .. } => *index,
        }
    }

    /// The number of the table that a page is of.
    pub(crate) fn table(&self) -> u64
        ensures { result ≡ page_table self.now }
    {
        match self {
            Question::Number { .. } => 0,
            Question::Page { table, .. } => *table,
        }
    }

    /// Whether the catalog has the table and the index of a page.
    pub(crate) fn is_served(&self, catalog: &Catalog) -> bool
        ensures { result ≡ serves catalog.now self.now }
    {
        match self {
            Question::Number { .. } => false,
            Question::Page {
                name,
                table,
                index,
                ..
            } => {
                let found = catalog.table(*name);
                is_numbered(found, *table) && is_index(*index, index_of(found))
            }
        }
    }

    /// Whether a row is of the page's table.
    pub(crate) fn is_of(&self, key: &Key) -> bool
        ensures { result ≡ is_of self.now key.now }
    {
        match self {
            Question::Number { .. } => false,
            Question::Page { name, table, .. } => key.name.is(*name) && *table == key.table,
        }
    }
}
