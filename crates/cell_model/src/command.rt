//! Changes of the catalog.

use base_types::Text;
use table_request::TableUpdate;
use table_schema::Schema;

/// A change of the catalog.
pub enum CatalogCommand {
    /// Makes a table (API Reference: CreateTable). The schema's `created` counts for nothing.
    Create {
        schema: Schema,
    },
    /// Drops a table with its items (API Reference: DeleteTable).
    Drop {
        name: Text,
    },
    /// Changes a table (API Reference: UpdateTable).
    Change {
        name: Text,
        change: TableUpdate,
    },
    /// Lets the items of a table expire by an attribute, or no longer (API Reference: UpdateTimeToLive). It stands in no
    /// transaction's way, and none stands in its way.
    TimeToLive {
        name: Text,
        attribute: Text,
        enabled: bool,
    },
}

// By hand, so that no crate above proves it again.
impl Drop for CatalogCommand {
    fn drop(self) {
        match self {
            CatalogCommand::Create { schema: _ }
            | CatalogCommand::Drop { name: _ }
            | CatalogCommand::Change { name: _, change: _ }
            | CatalogCommand::TimeToLive {
                name: _,
                attribute: _,
                enabled: _,
            } => {}
        }
    }
}
