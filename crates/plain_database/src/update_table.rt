//! Tables changed.

ghost use Rattle.std.specs.Prelude.{◌≡◌, [], IfOk, OnOk, OnErr};
ghost use Rattle.table_model.specs.Catalog.{IsUpdateTable};
ghost use Rattle.plain_database.specs.Changed.{IsChanged};

use crate::database::SlowDb;
use schema_update::updated;
use std::alloc::{AllocError as NoMemory, Global};
use table_model::{Refusal, Reply};
use table_request::{TableUpdate, UpdateTable};
use table_rows::TableRows;
use table_schema::Schema;

impl SlowDb {
    /// Changes the billing, the definitions and one index of a table (API Reference: UpdateTable). Where memory is refused
    /// nothing changes.
    pub(crate) fn update_table(
        &mut self,
        alloc: Global,
        request: UpdateTable,
    ) -> Result<Reply, NoMemory>
        ensures ok { IfOk result (IsUpdateTable self.old request self.new) }
        ensures err { OnErr result (self.new ≡ self.old) }
    {
        let Some(table) = self.tables.get_mut(&request.table) else {
            return Ok(Reply::Refused(Refusal::NoTable(request.table)));
        };
        let reply = change_rows(&mut table.rows, alloc, request.update)?;
        Ok(reply)
    }
}

/// Changes a table in which nothing is prepared. Where memory is refused nothing changes.
fn change_rows(rows: &mut TableRows, alloc: Global, update: TableUpdate) -> Result<Reply, NoMemory>
    requires { rows.old.pending ≡ [] }
    ensures ok { IfOk result (IsChanged rows.old update rows.new) }
    ensures err { OnErr result (rows.new ≡ rows.old) }
{
    match updated(alloc, rows.schema(), update)? {
        Ok(schema) => Ok(Reply::Described(change_schema(rows, alloc, schema)?)),
        Err(refusal) => Ok(Reply::Refused(refusal)),
    }
}

/// Gives the table a schema, and answers it. Where memory is refused nothing changes.
fn change_schema(rows: &mut TableRows, alloc: Global, schema: Schema) -> Result<Schema, NoMemory>
    requires { rows.old.pending ≡ [] }
    ensures described { IfOk result (λ described. described ≡ schema) }
    ensures ok { OnOk result (rows.new ≡ record rows.old { schema = schema }) }
    ensures err { OnErr result (rows.new ≡ rows.old) }
{
    let described = schema.try_clone()?;
    rows.change_schema(alloc, schema)?;
    Ok(described)
}
