//! A partition of real tables and the control cell, asked one message after another.

use crate::parts::MOMENT;
use attr_value::SharedItem;
use cell_model::{Catalog, CatalogAnswer, CatalogCommand, CatalogQuestion, CellKey, KeyedAction};
use cell_rules::TableRules;
use control_cell::{CatalogPlan, ControlCell};
use partition::{PartitionOf, commit_catalog, is_served, plan_catalog, step};
use std::alloc::{AllocError as NoMemory, Global};
use txn_core::{Answer, Message};
use update_eval::EvalFault;

/// What the partition is asked.
pub(crate) type Asked = Message<
    CellKey,
    SharedItem,
    KeyedAction,
    EvalFault,
    CatalogCommand,
    CatalogQuestion,
>;

/// What it answers.
pub(crate) type Told = Answer<CellKey, SharedItem, KeyedAction, EvalFault, CatalogAnswer>;

/// The cells. The only partition has the number 0.
pub(crate) struct Cells {
    partition: PartitionOf<TableRules>,
    control: ControlCell<TableRules>,
}

impl Drop for Cells {
    fn drop(self) {
        let Cells {
            partition: _,
            control: _,
        } = self;
    }
}

impl Cells {
    /// Before anything happened.
    pub(crate) fn new(alloc: Global) -> Result<Cells, NoMemory> {
        Ok(Cells {
            partition: partition::new::<TableRules>(alloc, 1)?,
            control: ControlCell::new(alloc)?,
        })
    }

    /// What the partition answers. What it is not asked is unknown.
    pub(crate) fn ask(&mut self, alloc: Global, message: Asked) -> Result<Told, NoMemory> {
        if !is_served::<TableRules>(&self.partition, &message) {
            return Ok(Answer::Unknown);
        }
        step::<TableRules>(alloc, &mut self.partition, message, MOMENT)
    }

    /// What the control cell answers.
    pub(crate) fn look(&self, alloc: Global, question: &CatalogQuestion) -> Result<Told, NoMemory> {
        self.control.ask(alloc, question)
    }

    /// What is told of a command, which no transaction stands in the way of.
    pub(crate) fn change(
        &mut self,
        alloc: Global,
        command: &CatalogCommand,
    ) -> Result<CatalogAnswer, NoMemory> {
        match self.control.plan_catalog(alloc, command, MOMENT)? {
            CatalogPlan::Refused { told } | CatalogPlan::Denied { told } => Ok(told),
            CatalogPlan::Carried { told, catalog } => {
                self.carry_out(alloc, command, catalog)?;
                Ok(told)
            }
        }
    }

    fn carry_out(
        &mut self,
        alloc: Global,
        command: &CatalogCommand,
        catalog: Catalog,
    ) -> Result<(), NoMemory> {
        plan_catalog::<TableRules>(alloc, &mut self.partition, 0, command, MOMENT)?;
        commit_catalog::<TableRules>(&mut self.partition);
        self.control.commit_catalog(catalog);
        Ok(())
    }
}
