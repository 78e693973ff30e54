//! What a request is answered.

use crate::refusal::Refusal;
use attr_value::{Item, SharedItem};
use base_types::{Seq, Text};
use table_request::{Consumed, TableKeys, TableWrites};
use table_schema::Schema;

/// The answer to a request. What it `consumed` of the tables' capacity is told where that was asked.
pub enum Reply {
    /// A table that was made, changed or dropped, of this schema (TableDescription).
    Described(Schema),
    /// A table that was asked for (DescribeTable).
    Table(Schema),
    Tables(TableNames),
    /// The time to live of a table was changed as it was stated (UpdateTimeToLive).
    TimeToLiveSet {
        name: Text,
        enabled: bool,
    },
    /// The attribute by which the items of a table expire, where they do (DescribeTimeToLive).
    TimeToLive(Option<Text>),
    /// A single write was made. The attributes are those that it was asked to show, where there are some.
    Written {
        shown: Option<SharedItem>,
        consumed: Option<Consumed>,
    },
    /// What is shown of an item, where it is there (GetItem).
    Read {
        shown: Option<SharedItem>,
        consumed: Option<Consumed>,
    },
    /// What is shown of the items that were found, each table's in the order of its keys, and the keys that were not
    /// read.
    BatchRead {
        found: Seq<FoundItems>,
        unread: Seq<TableKeys>,
        consumed: Option<Seq<Consumed>>,
    },
    /// The writes that were not made.
    BatchWritten {
        unwritten: Seq<TableWrites>,
        consumed: Option<Seq<Consumed>>,
    },
    Page {
        page: Page,
        consumed: Option<Consumed>,
    },
    /// The transaction was made.
    TransactWritten {
        consumed: Option<Seq<Consumed>>,
    },
    /// What is shown of each item, where it is there, in the order of the request.
    TransactRead {
        shown: Seq<Option<SharedItem>>,
        consumed: Option<Seq<Consumed>>,
    },
    Refused(Refusal),
}

// By hand, so that no crate above proves it again.
impl Drop for Reply {
    fn drop(self) {
        match self {
            Reply::Described(_)
            | Reply::Table(_)
            | Reply::Tables(_)
            | Reply::TimeToLiveSet {
                name: _,
                enabled: _,
            }
            | Reply::TimeToLive(_)
            | Reply::Written {
                shown: _,
                consumed: _,
            }
            | Reply::Read {
                shown: _,
                consumed: _,
            }
            | Reply::BatchRead {
                found: _,
                unread: _,
                consumed: _,
            }
            | Reply::BatchWritten {
                unwritten: _,
                consumed: _,
            }
            | Reply::Page {
                page: _,
                consumed: _,
            }
            | Reply::TransactWritten { consumed: _ }
            | Reply::TransactRead {
                shown: _,
                consumed: _,
            }
            | Reply::Refused(_) => {}
        }
    }
}

/// Names of tables (API Reference: ListTables).
pub struct TableNames {
    /// In the order of their bytes.
    pub names: Seq<Text>,
    /// The last of them, where more follow.
    pub last: Option<Text>,
}

// By hand, so that no crate above proves it again.
impl Drop for TableNames {
    fn drop(self) {
        let TableNames { names: _, last: _ } = self;
    }
}

/// What was found in a table.
pub struct FoundItems {
    pub table: Text,
    pub items: Seq<SharedItem>,
}

// By hand, so that no crate above proves it again.
impl Drop for FoundItems {
    fn drop(self) {
        let FoundItems { table: _, items: _ } = self;
    }
}

/// A page of rows (API Reference: Query, Scan).
pub struct Page {
    /// How many rows pass the filter.
    pub count: u64,
    /// How many rows were looked at.
    pub scanned: u64,
    /// What is shown of the rows that pass the filter, unless they are counted alone.
    pub items: Option<Seq<SharedItem>>,
    /// The key of the last row, where the page ended before the rows did.
    pub last: Option<Item>,
}

// By hand, so that no crate above proves it again.
impl Drop for Page {
    fn drop(self) {
        let Page {
            count: _,
            scanned: _,
            items: _,
            last: _,
        } = self;
    }
}
