//! The part of the control cell in a command, which goes to all cells.

ghost use Rattle.std.specs.Prelude.{ℕ, IfOk};
ghost use Rattle.control_cell.specs.Plans.{IsPlan, PlanAnswers, TakesPlan};

use crate::cell::ControlCell;
use std::alloc::{AllocError as NoMemory, Global};
use txn_core::{Rules, Ruling};

/// What becomes of a command, as far as the control cell tells. `B` is what is told of it, `C` the tables that are there.
#[derive(Drop)]
pub enum CatalogPlan<B, C> {
    /// Its name or number is refused, whatever other cells hold.
    Refused {
        /// Why.
        told: B,
    },
    /// The catalog refuses it, where no item of its table is held.
    Denied {
        /// Why.
        told: B,
    },
    /// It is carried out, where no item of its table is held.
    Carried {
        /// What is told.
        told: B,
        /// The catalog afterwards.
        catalog: C,
    },
}

/// What the catalog says of a command, with the catalog afterwards.
fn plan_of<R: Rules>(
    alloc: Global,
    catalog: &R::Catalog,
    command: &R::Command,
    moment: u64,
) -> Result<CatalogPlan<R::Told, R::Catalog>, NoMemory>
    ensures { IfOk result (λ plan. (n : ℕ) → IsPlan (R.protocol n) catalog.now command.now moment plan) }
{
    if let Some(told) = R::refuses(alloc, command, catalog)? {
        return Ok(CatalogPlan::Refused { told });
    }
    match R::rule(alloc, command, moment, catalog)? {
        Ruling::Refuses { told } => Ok(CatalogPlan::Denied { told }),
        Ruling::Carries { told } => {
            let catalog = R::change(alloc, command, moment, catalog)?;
            Ok(CatalogPlan::Carried { told, catalog })
        }
    }
}

impl<R: Rules> ControlCell<R> {
    /// What becomes of a command at this moment, with the catalog afterwards.
    pub fn plan_catalog(
        &self,
        alloc: Global,
        command: &R::Command,
        moment: u64,
    ) -> Result<CatalogPlan<R::Told, R::Catalog>, NoMemory>
        ensures plan { IfOk result (λ plan. (n : ℕ) → IsPlan (R.protocol n) self.now.catalog command.now moment plan) }
        ensures answers { IfOk result (λ plan. (n : ℕ) → PlanAnswers (R.protocol n) self.now command.now moment plan) }
    {
        let plan = plan_of::<R>(alloc, &self.catalog, command, moment)?;
        Ok(plan)
    }

    /// Takes the catalog of a plan, where its command is carried out. It takes no memory.
    pub fn commit_catalog(&mut self, catalog: R::Catalog)
        ensures { (n moment : ℕ) → TakesPlan (R.protocol n) self.old self.new moment catalog }
    {
        self.catalog = catalog;
    }
}
