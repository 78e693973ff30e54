//! Questions about the catalog, and pages of rows.

ghost use Rattle.std.specs.Prelude.{◌≡◌};
ghost use Rattle.cell_model.specs.Parts.{whole_room};

use base_types::Text;
use page_ranges::Span;
use row_keys::Position;

/// The bytes that a page may have before it ends.
const PAGE_BYTES: u64 = 1_048_576;

/// What a page may still take.
#[derive(Clone, Copy, PartialEq, Eq)]
pub struct PageRoom {
    /// How many rows, where there is a limit.
    pub rows: Option<u64>,
    /// How many bytes, the one that ends the page included.
    pub bytes: u64,
}

impl PageRoom {
    /// What a page may take that has no row yet: so many rows, where there is a limit, and more than 1,048,576 bytes with the last.
    pub fn whole(limit: Option<u64>) -> PageRoom
        ensures { result ≡ whole_room limit }
    {
        PageRoom {
            rows: limit,
            bytes: PAGE_BYTES + 1,
        }
    }
}

/// Whose rows a page has.
#[derive(Clone, Copy)]
pub enum PageSource {
    /// The table's own.
    Table,
    /// Those of the local index at this place among the schema's, from 0.
    Local { place: u64 },
    /// Those of the global index of this number.
    Global { number: u64 },
}

/// A page of the rows of one cell (API Reference: Query, Scan).
pub struct PageQuestion {
    /// The cell whose rows they are, counted from 0; behind the last partition the count begins anew.
    pub cell: u32,
    /// The table's number.
    pub table: u64,
    pub source: PageSource,
    /// The keys, in what is read, of the rows that are asked for: one partition key's, or those at some places. They may live in
    /// other cells too.
    pub span: Span,
    /// Whether the rows come in ascending order.
    pub forward: bool,
    /// Where the page goes on: behind this position.
    pub after: Option<Position>,
    pub room: PageRoom,
}

// By hand, so that no crate above proves it again.
impl Drop for PageQuestion {
    fn drop(self) {
        let PageQuestion {
            cell: _,
            table: _,
            source: _,
            span: _,
            forward: _,
            after: _,
            room: _,
        } = self;
    }
}

/// What is asked of the catalog, or of a cell's rows.
pub enum CatalogQuestion {
    /// The table of this name.
    Look { name: Text },
    /// The names of tables, at most so many, from behind the one that is given.
    Names { after: Option<Text>, limit: u64 },
    /// A page of rows.
    Page(PageQuestion),
}

// By hand, so that no crate above proves it again.
impl Drop for CatalogQuestion {
    fn drop(self) {
        match self {
            CatalogQuestion::Look { name: _ }
            | CatalogQuestion::Names { after: _, limit: _ }
            | CatalogQuestion::Page(_) => {}
        }
    }
}
