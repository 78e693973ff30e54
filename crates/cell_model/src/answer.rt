//! What is told of the catalog, and of pages.

ghost use Rattle.std.specs.Prelude.{◌≡◌};
ghost use Rattle.cell_model.specs.Told.{look_in, names_in, part_in, schema_in};

use crate::question::PageRoom;
use attr_value::SharedItem;
use base_types::{Seq, Text};
use row_keys::Position;
use table_model::TtlFault;
use table_schema::{Schema, SchemaFault};

/// A row of a page.
pub struct PageRow {
    pub at: Position,
    pub item: SharedItem,
}

// By hand, so that no crate above proves it again.
impl Drop for PageRow {
    fn drop(self) {
        let PageRow { at: _, item: _ } = self;
    }
}

/// What is told of a command, or answers a question.
pub enum CatalogAnswer {
    /// A Create was carried out: the table's number.
    Made {
        number: u64,
    },
    /// A Create: a table has the name.
    Exists,
    /// A Create: there are as many tables as there may be.
    Full,
    /// A Drop was carried out: what the table was made with.
    Dropped {
        schema: Schema,
    },
    /// No table has the name.
    NoTable,
    /// A Change or a TimeToLive was carried out: the schema as it is now.
    Changed {
        schema: Schema,
    },
    /// A Change: the table has no index of the name.
    NoIndex,
    /// A Change: an index of the table has the name.
    IndexExists,
    /// A Create or a Change: the schema would have this fault, and none before it.
    BadSchema {
        fault: SchemaFault,
    },
    /// A TimeToLive: why the table's can't become so.
    TtlRefused {
        fault: TtlFault,
    },
    /// A Look: the table of the name, with the numbers of its global indexes in the order of the schema.
    Table {
        table: u64,
        schema: Schema,
        indexes: Seq<u64>,
    },
    /// A Names: names in the order of their bytes, and whether more follow.
    NameList {
        names: Seq<Text>,
        more: bool,
    },
    /// A page: its rows, what it may still take, and whether it has ended.
    Part {
        rows: Seq<PageRow>,
        room: PageRoom,
        stopped: bool,
    },
}

// By hand, so that no crate above proves it again.
impl Drop for CatalogAnswer {
    fn drop(self) {
        match self {
            CatalogAnswer::Made { number: _ }
            | CatalogAnswer::Exists
            | CatalogAnswer::Full
            | CatalogAnswer::Dropped { schema: _ }
            | CatalogAnswer::NoTable
            | CatalogAnswer::Changed { schema: _ }
            | CatalogAnswer::NoIndex
            | CatalogAnswer::IndexExists
            | CatalogAnswer::BadSchema { fault: _ }
            | CatalogAnswer::TtlRefused { fault: _ }
            | CatalogAnswer::Table {
                table: _,
                schema: _,
                indexes: _,
            }
            | CatalogAnswer::NameList { names: _, more: _ }
            | CatalogAnswer::Part {
                rows: _,
                room: _,
                stopped: _,
            } => {}
        }
    }
}

/// A table as a Look is told of it.
#[derive(Drop)]
pub struct TableLook {
    pub number: u64,
    pub schema: Schema,
    /// The numbers of its global indexes, in the order of the schema.
    pub indexes: Seq<u64>,
}

/// Names of tables, in the order of their bytes, and whether more follow.
#[derive(Drop)]
pub struct NameList {
    pub names: Seq<Text>,
    pub more: bool,
}

/// A cell's part of a page: its rows, what the page may still take, and whether it has ended.
#[derive(Drop)]
pub struct Part {
    pub rows: Seq<PageRow>,
    pub room: PageRoom,
    pub stopped: bool,
}

// Other modules can't take an answer apart, since it has a `drop` of its own.
impl CatalogAnswer {
    /// The table that a Look is told of.
    pub fn into_look(self) -> Option<TableLook>
        ensures { result ≡ look_in self }
    {
        match self {
            CatalogAnswer::Table {
                table,
                schema,
                indexes,
            } => Some(TableLook {
                number: table,
                schema,
                indexes,
            }),
            _ => None,
        }
    }

    /// The schema that was dropped, or that a table has now.
    pub fn into_schema(self) -> Option<Schema>
        ensures { result ≡ schema_in self }
    {
        match self {
            CatalogAnswer::Dropped { schema } | CatalogAnswer::Changed { schema } => Some(schema),
            _ => None,
        }
    }

    /// The names that a Names is told.
    pub fn into_names(self) -> Option<NameList>
        ensures { result ≡ names_in self }
    {
        match self {
            CatalogAnswer::NameList { names, more } => Some(NameList { names, more }),
            _ => None,
        }
    }

    /// The part of a page.
    pub fn into_part(self) -> Option<Part>
        ensures { result ≡ part_in self }
    {
        match self {
            CatalogAnswer::Part {
                rows,
                room,
                stopped,
            } => Some(Part {
                rows,
                room,
                stopped,
            }),
            _ => None,
        }
    }
}
