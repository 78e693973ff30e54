//! Tables made, dropped, described and listed.

ghost use Rattle.std.specs.Prelude.{◌≡◌, IfOk, OnOk, OnErr};
ghost use Rattle.std.specs.Ordering.{nat_cmp};
ghost use Rattle.std.specs.Cmp.Lexicographic.{slice_cmp};
ghost use Rattle.std.specs.BTreeMap.{insert_entry};
ghost use Rattle.numbered_tables.specs.Tables.{new_table};
ghost use Rattle.table_model.specs.Catalog.{create_table, delete_table, describe_table, is_after, last_name, list_tables, made_at};

use crate::database::SlowDb;
use base_types::{Seq, Text};
use numbered_tables::NumberedTable;
use std::alloc::{AllocError as NoMemory, Global};
use std::collections::BTreeMap;
use table_model::{Refusal, Reply, TableNames};
use table_request::{CreateTable, DeleteTable, DescribeTable, ListTables};
use table_rows::TableRows;
use table_schema::Schema;

/// How many tables there may be.
const MOST_TABLES: usize = 256;

impl SlowDb {
    /// Makes a table at a moment, in microseconds (API Reference: CreateTable). Where memory is refused nothing changes;
    /// so it is where the tables made can no longer be counted in 64 bits.
    pub(crate) fn create_table(
        &mut self,
        alloc: Global,
        request: CreateTable,
        moment: u64,
    ) -> Result<Reply, NoMemory>
        ensures ok { IfOk result (λ reply. (self.new, reply) ≡ create_table self.old request moment) }
        ensures err { OnErr result (self.new ≡ self.old) }
    {
        let schema = request.schema;
        if self.tables.contains_key(&schema.name) {
            return Ok(Reply::Refused(Refusal::TableExists(schema.into_name())));
        }
        if self.tables.len() >= MOST_TABLES {
            return Ok(Reply::Refused(Refusal::TooManyTables));
        }
        let Some(number) = self.made.checked_add(1) else {
            return Err(NoMemory);
        };
        let described = insert_table(&mut self.tables, alloc, number, schema, moment)?;
        self.made = number;
        Ok(Reply::Described(described))
    }

    /// Drops a table with its items (API Reference: DeleteTable). Where memory is refused nothing changes.
    pub(crate) fn delete_table(&mut self, request: DeleteTable) -> Result<Reply, NoMemory>
        ensures ok { IfOk result (λ reply. (self.new, reply) ≡ delete_table self.old request) }
        ensures err { OnErr result (self.new ≡ self.old) }
    {
        let Some(table) = self.tables.get(&request.table) else {
            return Ok(Reply::Refused(Refusal::NoTable(request.table)));
        };
        let described = table.rows.schema().try_clone()?;
        drop(self.tables.remove(&request.table));
        Ok(Reply::Described(described))
    }

    /// Describes a table (API Reference: DescribeTable).
    pub(crate) fn describe_table(&self, request: DescribeTable) -> Result<Reply, NoMemory>
        ensures { IfOk result (λ reply. (self.now, reply) ≡ describe_table self.now request) }
    {
        let Some(table) = self.tables.get(&request.table) else {
            return Ok(Reply::Refused(Refusal::NoTable(request.table)));
        };
        let description = table.rows.schema().try_clone()?;
        Ok(Reply::Table(description))
    }

    /// Lists the names of tables (API Reference: ListTables).
    pub(crate) fn list_tables(&self, alloc: Global, request: &ListTables) -> Result<Reply, NoMemory>
        ensures { IfOk result (λ reply. (self.now, reply) ≡ list_tables self.now request.now) }
    {
        let mut names = Seq::new(alloc);
        for name in self.tables.keys() {
            if !is_after(&request.after, name) {
                continue;
            }
            if names.len() as u64 >= request.limit {
                let last = last_name(&names)?;
                return Ok(Reply::Tables(TableNames { names, last }));
            }
            names.push(name.try_clone()?)?;
        }
        Ok(Reply::Tables(TableNames { names, last: None }))
    }
}

/// Puts in a table without rows, and answers its schema. No table has its name. Where memory is refused nothing changes.
fn insert_table(
    tables: &mut BTreeMap<Text, NumberedTable>,
    alloc: Global,
    number: u64,
    mut schema: Schema,
    moment: u64,
) -> Result<Schema, NoMemory>
    ensures described { IfOk result (λ described. described ≡ made_at moment schema) }
    ensures ok { OnOk result (tables.new.entries
        ≡ insert_entry (slice_cmp nat_cmp) tables.old.entries schema.name (new_table number (made_at moment schema))) }
    ensures err { OnErr result (tables.new.entries ≡ tables.old.entries) }
{
    schema.created = moment;
    let described = schema.try_clone()?;
    let name = schema.name.try_clone()?;
    let rows = TableRows::new(alloc, schema)?;
    let table = NumberedTable { number, rows };
    if tables.insert(name, table).is_err() {
        return Err(NoMemory);
    }
    Ok(described)
}

/// Whether a name comes after the one that is stated.
fn is_after(start: &Option<Text>, name: &Text) -> bool
    ensures { result ≡ is_after start.now name.now }
{
    match start {
        Some(start) => start < name,
        None => true,
    }
}

/// The last of some names, copied.
fn last_name(names: &Seq<Text>) -> Result<Option<Text>, NoMemory>
    ensures { IfOk result (λ last. last ≡ last_name names.now) }
{
    match names.as_slice().last() {
        Some(name) => Ok(Some(name.try_clone()?)),
        None => Ok(None),
    }
}
