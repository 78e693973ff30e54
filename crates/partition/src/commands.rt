//! Commands of the catalog, which change all cells at once: each cell plans its part, and when all have, each carries it out.

ghost use Rattle.std.specs.Prelude.{◌≡◌, ℕ, None, IfOk, OnOk};
ghost use Rattle.partition.specs.Carrying.{CarriesEntries, CarriesOut, CarriesOwnEntries, CarriesOwnOut};
ghost use Rattle.partition.specs.Changes.{Unchanged};
ghost use Rattle.partition.specs.InStep.{StaysInStep};
ghost use Rattle.partition.specs.Moves.{SameEntries};
ghost use Rattle.index_changes.specs.Entering.{AreEntered};
ghost use Rattle.index_changes.specs.Plans.{IsPlan};
ghost use Rattle.partition.specs.Plans.{IsPlaced, IsPlanned};
ghost use Rattle.partition.specs.Says.{Keeps};

use crate::cell::PartitionOf;
use crate::store::{open_entries, open_table};
use index_changes::{CatalogPlan, CellRules, CommandRules, TableChange, plan_of};
use std::alloc::{AllocError as NoMemory, Global};

/// Makes the places of a table that a command makes: one for its items, and one for their local entries.
fn make_place<R: CellRules>(
    alloc: Global,
    cell: &mut PartitionOf<R>,
    change: TableChange,
) -> Result<(), NoMemory>
    ensures placed { OnOk result (IsPlaced change cell.new.items.tables) }
    ensures entered { OnOk result (IsPlaced change cell.new.locals.tables) }
    ensures kept { Unchanged cell.old cell.new }
    ensures entries { SameEntries cell.old cell.new }
{
    let TableChange::Makes { number } = change else {
        return Ok(());
    };
    open_table(alloc, &mut cell.items, number)?;
    open_entries(alloc, &mut cell.locals, number)
}

/// What a command will do to this cell.
fn plan_here<R: CommandRules>(
    alloc: Global,
    cell: &PartitionOf<R>,
    here: u32,
    command: &R::Command,
    moment: u64,
) -> Result<CatalogPlan<R::Key, R::Value, R::Catalog, R::LocalEntry>, NoMemory>
    ensures plan { IfOk result (λ plan. IsPlan (R.protocol cell.now.partitions) R.target R.numbers here
        cell.now.catalog cell.now.items command.now moment plan) }
    ensures entries { IfOk result (λ plan. AreEntered R.locals plan.catalog plan.made) }
{
    plan_of::<R>(
        alloc,
        cell.partitions,
        here,
        &cell.catalog,
        &cell.items,
        command,
        moment,
    )
}

/// Plans a command of the catalog in this cell, whose number is `here`, at a moment: all that carrying it out needs is made and
/// set aside, and nothing is changed. The plan stands in place of one before. It is for a command that the catalog carries out
/// and in whose way no transaction stands ([`first_holder`](crate::first_holder)).
///
/// `NoMemory` also where no number is left for the change.
pub fn plan_catalog<R: CommandRules>(
    alloc: Global,
    cell: &mut PartitionOf<R>,
    here: u32,
    command: &R::Command,
    moment: u64,
) -> Result<(), NoMemory>
    ensures planned { OnOk result ((n : ℕ) → n ≡ cell.old.partitions
        → IsPlanned (R.protocol n) R.locals R.target R.numbers here cell.new command.now moment) }
    ensures kept { (n i : ℕ) → Keeps (R.protocol n) i cell.old cell.new }
    ensures in_step { (n : ℕ) → StaysInStep (R.protocol n) R.locals cell.old cell.new }
{
    let change = R::on_table(command, &cell.catalog)?;
    make_place::<R>(alloc, cell, change)?;
    let plan = plan_here::<R>(alloc, cell, here, command, moment)?;
    cell.put_plan(plan)
}

/// Carries out what is planned. It takes no memory. Of every history after which the planned command may be carried out the cell
/// stands with the command's entry, where it stood for it as it was planned; and so of its own entries of such a history. Where
/// its local entries were in step then, they are so afterwards.
pub fn commit_catalog<R: CommandRules>(cell: &mut PartitionOf<R>)
    ensures all { (n i moment : ℕ) → CarriesOut (R.protocol n) R.locals R.target R.numbers i cell.old cell.new moment }
    ensures own { (n i moment : ℕ) → CarriesOwnOut (R.protocol n) R.locals R.target R.numbers i cell.old cell.new moment }
    ensures in_step { (n i moment : ℕ) → CarriesEntries (R.protocol n) R.locals R.target R.numbers i cell.old cell.new moment }
    ensures own_in_step { (n i moment : ℕ) → CarriesOwnEntries (R.protocol n) R.locals R.target R.numbers i cell.old cell.new moment }
{
    cell.carry_out_plan();
}

/// Gives up what is planned, if anything is.
pub fn abandon_catalog<R: CommandRules>(cell: &mut PartitionOf<R>)
    ensures gone { cell.new.planned ≡ None }
    ensures kept { (n i : ℕ) → Keeps (R.protocol n) i cell.old cell.new }
    ensures in_step { (n : ℕ) → StaysInStep (R.protocol n) R.locals cell.old cell.new }
{
    cell.give_up_plan();
}
