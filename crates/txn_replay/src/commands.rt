//! What all cells answer to a command, and what becomes of them.

ghost use Rattle.std.specs.Prelude.{◌≡◌, ◌≤◌, ℕ, Some, IfOk, OnOk, length};
ghost use Rattle.txn_core.specs.declared.message.Message.{Message};
ghost use Rattle.txn_core.specs.Service.{History};
ghost use Rattle.txn_replay.specs.Standing.{own, CarriesAll, CarriesHere, EachCarries, EachStands, Leads, Tells, TellsFirst};

use crate::cells::CellsOf;
use control_cell::{CatalogPlan, others_leave_it};
use partition::{CellRules, CommandRules, PartitionOf, commit_catalog, plan_catalog};
use std::alloc::{AllocError as NoMemory, Global};
use txn_core::{Answer, Reply};

/// Who stands in a command's way: the least number of those that hold an item of its table in the first cell in which one is
/// held.
fn in_the_way<R: CommandRules>(cells: &[PartitionOf<R>], command: &R::Command) -> Option<u64>
    ensures { (n : ℕ) (es : History (R.protocol n)) → 1 ≤ n → EachStands (R.protocol n) R.locals cells.now es
        → TellsFirst (R.protocol n) (own (R.protocol n) es) command.now result }
{
    for cell in cells {
        let holder = partition::first_holder::<R>(cell, command);
        if holder.is_some() {
            return holder;
        }
    }
    None
}

/// Plans a command in a partition, whose number is `here`, and carries it out there.
fn carry_out_in<R: CommandRules>(
    alloc: Global,
    cell: &mut PartitionOf<R>,
    here: u32,
    command: &R::Command,
    moment: u64,
) -> Result<(), NoMemory>
    ensures { OnOk result ((n : ℕ) → CarriesHere (R.protocol n) R.locals here cell.old cell.new command.now moment) }
{
    plan_catalog::<R>(alloc, cell, here, command, moment)?;
    commit_catalog::<R>(cell);
    Ok(())
}

/// Carries a command out in each partition.
fn carry_out_each<R: CommandRules>(
    alloc: Global,
    cells: &mut Vec<PartitionOf<R>>,
    partitions: u32,
    command: &R::Command,
    moment: u64,
) -> Result<(), NoMemory>
    requires { length cells.old.items ≡ partitions }
    ensures count { OnOk result (length cells.new.items ≡ partitions) }
    ensures carried { OnOk result (EachCarries (R.protocol partitions) R.locals cells.old.items cells.new.items command.now moment) }
{
    for place in 0..partitions {
        carry_out_in::<R>(alloc, &mut cells[place as usize], place, command, moment)?;
    }
    Ok(())
}

/// Carries a command out in all cells, to which this is the catalog afterwards.
fn carry_out<R: CommandRules>(
    alloc: Global,
    cells: &mut CellsOf<R>,
    partitions: u32,
    command: &R::Command,
    moment: u64,
    catalog: R::Catalog,
) -> Result<(), NoMemory>
    requires { length cells.old.partitions.items ≡ partitions }
    ensures count { OnOk result (length cells.new.partitions.items ≡ partitions) }
    ensures carried { OnOk result (CarriesAll (R.protocol partitions) R.locals cells.old cells.new command.now moment catalog) }
{
    carry_out_each::<R>(alloc, &mut cells.partitions, partitions, command, moment)?;
    cells.catalog = R::change(alloc, command, moment, &cells.catalog)?;
    cells.control.commit_catalog(catalog);
    Ok(())
}

/// What the cells answer to a command, and each as it is afterwards: it is refused by its name, else by who stands in its way,
/// else by the catalog, or it is carried out.
pub(crate) fn rule<R: CommandRules>(
    alloc: Global,
    cells: &mut CellsOf<R>,
    partitions: u32,
    command: &R::Command,
    moment: u64,
) -> Result<Reply<R>, NoMemory>
    requires some { 1 ≤ partitions }
    requires count { length cells.old.partitions.items ≡ partitions }
    ensures count { OnOk result (length cells.new.partitions.items ≡ partitions) }
    ensures tells { IfOk result (λ a. Tells (R.protocol partitions) R.locals cells.old (Message.Command command.now) moment (Some a)) }
    ensures leads { IfOk result (λ a. Leads (R.protocol partitions) R.locals cells.old cells.new (Message.Command command.now) moment (Some a)) }
{
    others_leave_it::<R>();
    let holder = in_the_way::<R>(cells.partitions.as_slice(), command);
    let plan = cells.control.plan_catalog(alloc, command, moment)?;
    match plan {
        CatalogPlan::Refused { told } => Ok(Answer::Refused { told }),
        CatalogPlan::Denied { told } => match holder {
            Some(number) => Ok(Answer::Held { number }),
            None => Ok(Answer::Refused { told }),
        },
        CatalogPlan::Carried { told, catalog } => match holder {
            Some(number) => Ok(Answer::Held { number }),
            None => {
                carry_out::<R>(alloc, cells, partitions, command, moment, catalog)?;
                Ok(Answer::Changed { told })
            }
        },
    }
}
