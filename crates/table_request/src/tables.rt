//! Requests on tables: made, changed, dropped, described and listed.

use base_types::{Seq, Text};
use table_schema::{Definition, GlobalIndex, Schema};

/// Makes a table (API Reference: CreateTable).
#[derive(Drop)]
pub struct CreateTable {
    /// A valid schema. Its `created` counts for nothing.
    pub schema: Schema,
}

/// Drops a table with its items (API Reference: DeleteTable).
#[derive(Drop)]
pub struct DeleteTable {
    pub table: Text,
}

/// Describes a table (API Reference: DescribeTable).
#[derive(Drop)]
pub struct DescribeTable {
    pub table: Text,
}

/// Lists names of tables in the order of their bytes (API Reference: ListTables).
#[derive(Drop)]
pub struct ListTables {
    /// The name after which the list begins, where one is given (ExclusiveStartTableName).
    pub after: Option<Text>,
    /// The most names to answer, at least 1.
    pub limit: u64,
}

/// Changes a table (API Reference: UpdateTable).
#[derive(Drop)]
pub struct UpdateTable {
    pub table: Text,
    pub update: TableUpdate,
}

/// What an UpdateTable states. What it does not state stays.
#[derive(Drop)]
pub struct TableUpdate {
    /// Definitions beside those that the table has. Those that no key uses afterwards are dropped.
    pub definitions: Seq<Definition>,
    /// Whether the table is billed by request.
    pub on_demand: Option<bool>,
    /// Read capacity units per second.
    pub read_units: Option<u64>,
    /// Write capacity units per second.
    pub write_units: Option<u64>,
    /// A global index that is made or dropped.
    pub index: Option<IndexChange>,
}

/// A global index that is made or dropped (API Reference: GlobalSecondaryIndexUpdate).
#[derive(Drop)]
pub enum IndexChange {
    Make(GlobalIndex),
    /// The index of this name.
    Remove(Text),
}
