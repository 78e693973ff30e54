//! What commands do to tables by their numbers.

ghost use Rattle.std.specs.Prelude.{◌≡◌, ◌+◌, IfOk};
ghost use Rattle.index_changes.specs.Commands.{subject as number_of};
ghost use Rattle.cell_rules.specs.Targets.{altered, dropped, target};

use cell_catalog::{last_drawn, number_named, waits_for};
use cell_model::{Catalog, CatalogCommand};
use partition::TableChange;
use std::alloc::AllocError as NoMemory;

/// A new table, whose number is the one behind the last that was drawn.
fn made(drawn: u64) -> Result<TableChange, NoMemory>
    ensures { IfOk result (λ change. change ≡ TableChange.Makes (drawn + 1)) }
{
    match drawn.checked_add(1) {
        Some(number) => Ok(TableChange::Makes { number }),
        None => Err(NoMemory),
    }
}

/// A table of this number goes, where there is one.
fn dropped(number: Option<u64>) -> TableChange
    ensures { result ≡ dropped number }
{
    match number {
        None => TableChange::Nothing,
        Some(number) => TableChange::Drops { number },
    }
}

/// A table of this number changes, where there is one.
fn altered(number: Option<u64>) -> TableChange
    ensures { result ≡ altered number }
{
    match number {
        None => TableChange::Nothing,
        Some(number) => TableChange::Alters { number },
    }
}

/// What a command does to tables, by the catalog before it. `NoMemory` where no number is left for a table that it makes.
pub(crate) fn on_table(command: &CatalogCommand, catalog: &Catalog) -> Result<TableChange, NoMemory>
    ensures { IfOk result (λ change. change ≡ target command.now catalog.now) }
{
    match command {
        CatalogCommand::Create { .. } => made(last_drawn(catalog)),
        CatalogCommand::Drop { name } => Ok(dropped(number_named(catalog, name))),
        CatalogCommand::Change { name, .. } => Ok(altered(number_named(catalog, name))),
        CatalogCommand::TimeToLive { .. } => Ok(TableChange::Nothing),
    }
}

/// The number of the table that a command drops or alters.
pub(crate) fn subject_of(command: &CatalogCommand, catalog: &Catalog) -> Option<u64>
    ensures { result ≡ number_of (target command.now catalog.now) }
{
    waits_for(command, catalog)
}
