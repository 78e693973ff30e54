//! What calls ask of the cells, one message each.

ghost use Rattle.cluster.specs.Steps.{IsAtRest, partitions_of};

use crate::asked;
use crate::cells::{TableCaller, TablePass};
use base_types::Text;
use cell_asks::{Asks, Got, Ruled, StepError, Wrote};
use cell_model::{CatalogCommand, CellKey, KeyedAction, NameList, PageQuestion, Part, TableLook};
use std::alloc::Global;
use std::sync::Wait;

impl<'a, T: Wait> Asks for TableCaller<'a, T> {
    type Pass = TablePass;

    ghost count = { λ cells. partitions_of cells.caller };

    ghost fits = { λ cells. IsAtRest cells.caller };

    ghost seen = { λ pass. pass };

    fn alloc(&self) -> Global {
        self.caller.alloc()
    }

    fn partitions(&self) -> u32 {
        self.caller.partitions()
    }

    fn cell_of(&self, key: &CellKey) -> u32 {
        self.caller.cell_of(key)
    }

    fn moment(&self, pass: &TablePass) -> u64 {
        pass.moment()
    }

    fn look(&self, pass: &mut TablePass, name: Text) -> Result<Option<TableLook>, StepError> {
        asked::look(&self.caller, pass, name)
    }

    fn names(
        &self,
        pass: &mut TablePass,
        after: Option<Text>,
        limit: u64,
    ) -> Result<NameList, StepError> {
        asked::names(&self.caller, pass, after, limit)
    }

    fn get(&self, pass: &mut TablePass, key: CellKey) -> Result<Got, StepError> {
        asked::get(&self.caller, pass, key)
    }

    fn write(&self, pass: &mut TablePass, action: KeyedAction) -> Result<Wrote, StepError> {
        asked::write(&self.caller, pass, action)
    }

    fn page(
        &self,
        pass: &mut TablePass,
        question: PageQuestion,
    ) -> Result<Option<Part>, StepError> {
        asked::page(&self.caller, pass, question)
    }

    fn command(&self, pass: &mut TablePass, command: CatalogCommand) -> Result<Ruled, StepError> {
        asked::command(&self.caller, pass, command)
    }
}
