//! What changes make of the indexes of a cell of tables, worked out before anything is changed.
//!
//! *A change of an item.* Over any tables that meet [`CellRules`], [`index_changes`] are what it makes of indexes: the changes of
//! rows that it queues for the cells in which they live, and the item's local entries before and after ([`IndexChanges`]);
//! [`is_served`] tells whether an index is still there. A change that is made at once settles them at once, by [`queue_all`].
//!
//! *The end of a transaction.* [`PreparedChanges`] keeps, of each item that a transaction holds, what its change makes of indexes,
//! until the transaction ends. So the end takes no memory: the places in the [`Outbox`](global_index::Outbox) are set aside
//! beforehand, as many as there are changes of rows for all items together.
//!
//! *A command of the catalog.* Over tables that meet [`CommandRules`], [`plan_of`] is all that a command does to a cell
//! ([`CatalogPlan`]): the catalog afterwards, the table that goes, the indexes that go, the table that comes with the items that it
//! brings and their local entries, and the rows that items get in indexes that are new.
//!
//! All are functions of the definitions (`specs/Index.antt`, `specs/Prepared.antt`, `specs/Plans.antt`), and what is answered holds
//! the memory that the change needs.
#![tactic(auto)]

mod bringing;
mod change;
mod command_rules;
mod entering;
mod founding;
mod item_changes;
mod plan;
mod planning;
mod prepared;
mod queue;
mod row_changes;
mod rules;
mod served;

pub use change::IndexChanges;
pub use command_rules::{CommandRules, TableChange};
pub use item_changes::{IndexChangesOf, index_changes};
pub use plan::{CatalogPlan, MadeTable};
pub use planning::plan_of;
pub use prepared::PreparedChanges;
pub use queue::queue_all;
pub use rules::CellRules;
pub use served::is_served;
