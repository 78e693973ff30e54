//! Parts of a request, each of a table.

ghost use Rattle.std.specs.Prelude.{◌≡◌, List, ℕ};

use base_types::Text;
use table_request::{TransactAction, TransactRead};

/// A part of a request that names its table.
pub(crate) trait OfTable {
    ghost table_of: { Self → List ℕ };

    fn table(&self) -> &Text
        ensures { result.now ≡ table_of self.now };
}

impl OfTable for TransactAction {
    ghost table_of = { λ action. action.table };

    fn table(&self) -> &Text {
        &self.table
    }
}

impl OfTable for TransactRead {
    ghost table_of = { λ read. read.table };

    fn table(&self) -> &Text {
        &self.table
    }
}
