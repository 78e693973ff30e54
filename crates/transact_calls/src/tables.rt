//! Tables without rows, by which a request is checked as the plain program checks it.

ghost use Rattle.std.specs.Prelude.{◌≡◌, ℕ, List, Some, if◌then◌else◌, IfOk, OnOk};
ghost use Rattle.std.specs.BTreeMap.{insert_entry, is_at};
ghost use Rattle.std.specs.Ordering.{nat_cmp};
ghost use Rattle.std.specs.Cmp.Lexicographic.{slice_cmp};
ghost use Rattle.numbered_tables.specs.Tables.{new_table};
ghost use Rattle.table_history.specs.Entries.{TableEvent};
ghost use Rattle.cell_asks.specs.Told.{AreTold};
ghost use Rattle.transact_calls.specs.Known.{AreKnown, known_of};

use crate::parts::OfTable;
use base_types::Text;
use cell_asks::Looks;
use cell_model::TableLook;
use numbered_tables::NumberedTable;
use std::alloc::{AllocError as NoMemory, Global};
use std::collections::BTreeMap;
use table_rows::TableRows;

/// Tables by name. None of them has rows.
pub(crate) type Tables = BTreeMap<Text, NumberedTable>;

/// A table without rows, as a Look told of it.
fn rowless(alloc: Global, look: &TableLook) -> Result<NumberedTable, NoMemory>
    ensures { IfOk result (λ table. table ≡ new_table look.now.number look.now.schema) }
{
    let schema = look.schema.try_clone()?;
    Ok(NumberedTable {
        number: look.number,
        rows: TableRows::new(alloc, schema)?,
    })
}

/// Adds the table of a name, as a Look told of it.
pub(crate) fn add(
    tables: &mut Tables,
    alloc: Global,
    name: &Text,
    look: &TableLook,
) -> Result<(), NoMemory>
    ensures entries { OnOk result (tables.new.entries
        ≡ insert_entry (slice_cmp nat_cmp) tables.old.entries name.now (new_table look.now.number look.now.schema)) }
    ensures found { OnOk result ((other : List ℕ) → known_of tables.new.entries other
        ≡ (if is_at (slice_cmp nat_cmp name.now) other then Some (new_table look.now.number look.now.schema) else known_of tables.old.entries other)) }
{
    let table = rowless(alloc, look)?;
    drop(tables.insert(name.try_clone()?, table)?);
    Ok(())
}

/// Adds the table of a name, where it is kept and not there yet.
fn add_kept(tables: &mut Tables, alloc: Global, looks: &Looks, name: &Text) -> Result<(), NoMemory>
    ensures { OnOk result ((es : List TableEvent) → AreTold es looks.now → AreKnown es tables.old.entries → AreKnown es tables.new.entries) }
{
    if tables.contains_key(name) {
        return Ok(());
    }
    if let Some(look) = looks.find(name) {
        add(tables, alloc, name, look)?;
    }
    Ok(())
}

/// Those tables of a request that are kept of Looks.
pub(crate) fn kept_tables<P: OfTable>(
    alloc: Global,
    looks: &Looks,
    parts: &[P],
) -> Result<Tables, NoMemory>
    ensures { IfOk result (λ tables. (es : List TableEvent) → AreTold es looks.now → AreKnown es tables.entries) }
{
    let mut tables = BTreeMap::new(alloc);
    for part in parts {
        add_kept(&mut tables, alloc, looks, part.table())?;
    }
    Ok(tables)
}
