//! Tables without rows, as Looks told of them.

ghost use Rattle.std.specs.Prelude.{◌≡◌, List, Some, map, reverse, IfOk, IfErr, OnOk};
ghost use Rattle.table_history.specs.Entries.{TableEvent};
ghost use Rattle.numbered_tables.specs.Tables.{new_table};
ghost use Rattle.cell_asks.specs.Steps.{GivesUp};
ghost use Rattle.cell_asks.specs.Told.{AreTold, WasTold};
ghost use Rattle.batch_calls.specs.Tables.{AreKnown, IsAdded, LooksGive, LooksUp};

use base_types::Text;
use cell_asks::{Asks, Looks, StepError};
use cell_model::TableLook;
use numbered_tables::NumberedTable;
use std::alloc::{AllocError as NoMemory, Global};
use std::collections::BTreeMap;
use table_batches::OnTable;
use table_rows::TableRows;

/// A table without rows, as a Look told of it.
fn bare_table(alloc: Global, look: &TableLook) -> Result<NumberedTable, NoMemory>
    ensures { IfOk result (λ table. table ≡ new_table look.now.number look.now.schema) }
{
    let schema = look.schema.try_clone()?;
    let rows = TableRows::new(alloc, schema)?;
    Ok(NumberedTable {
        number: look.number,
        rows,
    })
}

/// Adds the table of a name, as a Look told of it.
fn add(
    tables: &mut BTreeMap<Text, NumberedTable>,
    alloc: Global,
    name: &Text,
    look: &TableLook,
) -> Result<(), NoMemory>
    ensures { OnOk result (IsAdded name.now (Some look.now) tables.old.entries tables.new.entries) }
{
    let name = name.try_clone()?;
    let table = bare_table(alloc, look)?;
    let _ = tables.insert(name, table)?;
    Ok(())
}

/// Adds the table of a name where it is kept.
fn add_kept(
    tables: &mut BTreeMap<Text, NumberedTable>,
    alloc: Global,
    looks: &Looks,
    name: &Text,
) -> Result<(), NoMemory>
    ensures { OnOk result ((es : List TableEvent) → AreTold es looks.now → AreKnown es tables.old.entries → AreKnown es tables.new.entries) }
{
    if let Some(look) = looks.find(name) {
        add(tables, alloc, name, look)?;
    }
    Ok(())
}

/// The tables of a request, as far as they are kept.
pub(crate) fn kept_tables<T: OnTable>(
    alloc: Global,
    looks: &Looks,
    parts: &[T],
) -> Result<BTreeMap<Text, NumberedTable>, NoMemory>
    ensures { IfOk result (λ tables. (es : List TableEvent) → AreTold es looks.now → AreKnown es tables.entries) }
{
    let mut tables = BTreeMap::new(alloc);
    for part in parts {
        add_kept(&mut tables, alloc, looks, part.table())?;
    }
    Ok(tables)
}

/// Adds the table of a name by what an own Look told, which is kept.
fn add_told(
    tables: &mut BTreeMap<Text, NumberedTable>,
    alloc: Global,
    looks: &mut Looks,
    name: &Text,
    told: Option<TableLook>,
) -> Result<(), NoMemory>
    ensures added { OnOk result (IsAdded name.now told tables.old.entries tables.new.entries) }
    ensures told { (es : List TableEvent) → AreTold es looks.old
        → ((look : TableLook) → told ≡ Some look → WasTold es name.now look) → AreTold es looks.new }
{
    match told {
        Some(look) => {
            add(tables, alloc, name, &look)?;
            let name = name.try_clone()?;
            looks.keep(alloc, name, look)?;
            Ok(())
        }
        None => Ok(()),
    }
}

/// Looks up one table.
fn look_up<C: Asks>(
    cells: &C,
    pass: &mut C::Pass,
    looks: &mut Looks,
    name: &Text,
    tables: &mut BTreeMap<Text, NumberedTable>,
) -> Result<(), StepError>
    requires fits { C.fits cells.now pass.old }
    requires told { AreTold (reverse (C.seen pass.old).front) looks.old }
    ensures ok { OnOk result (LooksUp (C.count cells.now) (C.seen pass.old) name.now tables.old.entries tables.new.entries (C.seen pass.new)) }
    ensures err { IfErr result (λ why. GivesUp (C.count cells.now) (C.seen pass.old) why (C.seen pass.new)) }
    ensures told { AreTold (reverse (C.seen pass.new).front) looks.new }
    ensures fits { C.fits cells.now pass.new }
{
    let asked = name.try_clone()?;
    let told = cells.look(pass, asked)?;
    Ok(add_told(tables, cells.alloc(), looks, name, told)?)
}

/// The tables of a request by own Looks, one after another. What they tell is kept.
pub(crate) fn looked_tables<T: OnTable, C: Asks>(
    cells: &C,
    pass: &mut C::Pass,
    looks: &mut Looks,
    parts: &[T],
) -> Result<BTreeMap<Text, NumberedTable>, StepError>
    requires fits { C.fits cells.now pass.old }
    requires told { AreTold (reverse (C.seen pass.old).front) looks.old }
    ensures ok { IfOk result (λ tables. LooksGive (C.count cells.now) (C.seen pass.old) (map T.table_of parts.now) tables.entries (C.seen pass.new)) }
    ensures err { IfErr result (λ why. GivesUp (C.count cells.now) (C.seen pass.old) why (C.seen pass.new)) }
    ensures told { AreTold (reverse (C.seen pass.new).front) looks.new }
    ensures fits { C.fits cells.now pass.new }
{
    let mut tables = BTreeMap::new(cells.alloc());
    for part in parts {
        look_up(cells, pass, looks, part.table(), &mut tables)?;
    }
    Ok(tables)
}
