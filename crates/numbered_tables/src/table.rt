//! Tables with their numbers.

use table_rows::TableRows;

/// A table that was made, and the count of the tables made up to it, which tells it from a later one of its name.
pub struct NumberedTable {
    pub number: u64,
    pub rows: TableRows,
}

// By hand, so that no crate above proves it again.
impl Drop for NumberedTable {
    fn drop(self) {
        let NumberedTable { number: _, rows: _ } = self;
    }
}
