//! The tables that are there.

use base_types::Seq;
use table_schema::Schema;

/// A table: its number, what it was made with, and the numbers of its global indexes, in the order in which the schema has
/// them.
pub struct CatalogTable {
    pub number: u64,
    pub schema: Schema,
    /// Ascending, since an index that is made stands behind the others.
    pub indexes: Seq<u64>,
}

// By hand, so that no crate above proves it again.
impl Drop for CatalogTable {
    fn drop(self) {
        let CatalogTable {
            number: _,
            schema: _,
            indexes: _,
        } = self;
    }
}

/// The tables that are there, in the order of their names, and the greatest number that was drawn for a table or an index.
pub struct Catalog {
    pub drawn: u64,
    pub tables: Seq<CatalogTable>,
}

// By hand, so that no crate above proves it again.
impl Drop for Catalog {
    fn drop(self) {
        let Catalog {
            drawn: _,
            tables: _,
        } = self;
    }
}
