//! Tables.

ghost use Rattle.std.specs.Prelude.{◌≡◌, [], ◌∷◌, ◌++◌, slice_get, false, None, IfNone, IfSome, IfOk, OnOk, OnErr, IsTrue};
ghost use Rattle.std.specs.Option.{option_copied};
ghost use Rattle.std.specs.BTreeMap.Range.{entries_between};
ghost use Rattle.std.specs.List.Sorted.{IsStrictlySortedBy};
ghost use Rattle.std.specs.Map.{keys_of};
ghost use Rattle.std.specs.Range.Bound.{bound_map};
ghost use Rattle.row_keys.specs.Keys.{row_order};
ghost use Rattle.row_keys.specs.Rows.{item_at, index_keys};
ghost use Rattle.table_rows.specs.View.{is_pending, committed, index_between};
ghost use Rattle.table_rows.specs.Quiet.{expired_rows};

use crate::index_range::IndexRange;
use crate::indexed::IndexedRows;
use crate::quiet::{Quiet, watched};
use crate::row_range::RowRange;
use attr_value::SharedItem;
use base_types::Seq;
use row_keys::{Position, RowKey};
use std::alloc::{AllocError as NoMemory, Global};
use std::marker::Model;
use std::ops::Bound;
use table_schema::Schema;

/// A table: its schema, its rows in the order of a Scan, and the changes that are prepared.
///
/// Contracts see these alone: the places of the indexes follow from them.
pub struct TableRows {
    rows: IndexedRows,
    /// Seconds at which no row is expired, nor an item that is prepared, where some are known.
    quiet: Option<Quiet>,
}

// By hand, so that no crate above proves it again.
impl Drop for TableRows {
    fn drop(self) {
        let TableRows { rows: _, quiet: _ } = self;
    }
}

impl Model for TableRows {
    ghost use Rattle.std.specs.Option.{ForSome};
    ghost use Rattle.table_rows.specs.View.{TableView};
    ghost use Rattle.table_rows.specs.Quiet.{IsQuiet};
    ghost use Rattle.table_rows.specs.Codes.{table_code};

    ghost Value = { TableView };

    ghost coded = { table_code };

    ghost view = { λ t. t.rows };

    ghost invariant = { λ t. ForSome t.quiet (λ quiet. IsQuiet quiet t.rows) };
}

impl TableRows {
    /// A table of this schema without rows. Memory is taken for the names of its indexes' keys.
    pub fn new(alloc: Global, schema: Schema) -> Result<TableRows, NoMemory>
        ensures { IfOk result (λ table. table ≡ record { schema = schema; rows = []; pending = [] }) }
    {
        let rows = IndexedRows::new(alloc, schema)?;
        Ok(TableRows { rows, quiet: None })
    }

    /// What the table was made with.
    pub fn schema(&self) -> &Schema
        ensures { result.now ≡ self.now.schema }
    {
        self.rows.schema()
    }

    /// The item at a key, whatever is prepared. It costs the logarithm of the rows, and takes no memory.
    pub fn get(&self, key: &RowKey) -> Option<&SharedItem>
        ensures { option_copied result ≡ item_at self.now.rows key.now }
    {
        self.rows.get(key)
    }

    /// That the rows stand in the order of a Scan, each key once. The call does nothing: its clause is what it gives.
    pub fn are_in_order(&self)
        ensures { IsStrictlySortedBy row_order (keys_of self.now.rows) }
    {
        self.rows.are_in_order();
    }

    /// Whether it is known without a look at the rows that none of them is expired at a second. So it is of a table whose
    /// items do not expire, and between a call of [`TableRows::look_out`] and the first second at which one is. It takes no
    /// memory.
    pub fn is_quiet(&self, second: u64) -> bool
        ensures { IsTrue result → expired_rows self.now.schema second self.now.rows ≡ [] }
    {
        if self.rows.schema().ttl.is_none() {
            return true;
        }
        match &self.quiet {
            Some(quiet) => quiet.has(second),
            None => false,
        }
    }

    /// The keys of the rows whose items are expired at a second, in the order of a Scan. It goes over all rows, unless it is
    /// known that there are none.
    pub fn expired_keys(&self, alloc: Global, second: u64) -> Result<Seq<RowKey>, NoMemory>
        ensures { IfOk result (λ keys. keys ≡ keys_of (expired_rows self.now.schema second self.now.rows)) }
    {
        if self.is_quiet(second) {
            return Ok(Seq::new(alloc));
        }
        self.rows.expired_keys(alloc, second)
    }

    /// Finds out until when no row is expired, from a second on. It goes over all rows, unless that is known. What the table
    /// shows stays, and no memory is taken.
    pub fn look_out(&mut self, second: u64)
        ensures { self.new ≡ self.old }
    {
        if self.is_quiet(second) {
            return;
        }
        self.quiet = if self.rows.is_idle() {
            self.rows.quiet_from(second)
        } else {
            None
        };
    }

    /// Whether a change of the item at a key is prepared. It goes over all that are.
    pub fn is_pending(&self, key: &RowKey) -> bool
        ensures { result ≡ is_pending self.now.pending key.now }
    {
        self.rows.is_pending(key)
    }

    /// The rows between two ends, in the order of a Scan, where nothing is prepared.
    pub fn rows<'a>(&'a self, low: Bound<&'a RowKey>, high: Bound<&'a RowKey>) -> RowRange<'a>
        requires { self.now.pending ≡ [] }
        ensures { result
            ≡ entries_between row_order (bound_map (λ end. end.now) low.entry) (bound_map (λ end. end.now) high.entry) self.now.rows }
    {
        self.rows.rows(low, high)
    }

    /// The rows of an index between two ends, in its order, where nothing is prepared. Indexes are numbered from 0: those
    /// that are local first, each in the order of the schema. There is `None` where there are not so many.
    pub fn index_rows<'a>(
        &'a self,
        index: usize,
        low: Bound<&'a Position>,
        high: Bound<&'a Position>,
    ) -> Option<IndexRange<'a>>
        requires { self.now.pending ≡ [] }
        ensures none { IfNone result (slice_get (index_keys self.now.schema) index ≡ None) }
        ensures rows { IfSome result (λ rows. IfSome (slice_get (index_keys self.now.schema) index) (λ keys.
            rows ≡ index_between self.now keys low.entry high.entry)) }
    {
        self.rows.index_rows(index, low, high)
    }

    /// Gives the table another schema, where nothing is prepared: its items stay, and its indexes are those of the new
    /// schema. They are built again, each row in each index for the logarithm of the rows, if there are other indexes
    /// than before or other definitions. The key of the table is to stay (API Reference: UpdateTable).
    ///
    /// Where memory is refused nothing changes.
    pub fn change_schema(&mut self, alloc: Global, schema: Schema) -> Result<(), NoMemory>
        requires { self.old.pending ≡ [] }
        ensures ok { OnOk result (self.new ≡ record self.old { schema = schema }) }
        ensures err { OnErr result (self.new ≡ self.old) }
    {
        // Items may expire by another attribute from now on.
        self.quiet = None;
        self.rows.change_schema(alloc, schema)
    }

    /// Prepares that the item at a key is this one, or none: takes all memory that is needed. The rows stay as they are
    /// until [`TableRows::commit`]. No other change of the key is prepared.
    ///
    /// Where memory is refused nothing changes.
    pub fn prepare(
        &mut self,
        alloc: Global,
        key: RowKey,
        new: Option<SharedItem>,
    ) -> Result<(), NoMemory>
        requires { is_pending self.old.pending key ≡ false }
        ensures ok { OnOk result (self.new ≡ record self.old { pending = self.old.pending ++ record { key = key; new = new } ∷ [] }) }
        ensures err { OnErr result (self.new ≡ self.old) }
    {
        let quiet = watched(self.quiet, self.rows.schema(), new.as_ref());
        self.rows.prepare(alloc, key, new)?;
        self.quiet = quiet;
        Ok(())
    }

    /// Makes all changes that are prepared. It takes no memory.
    pub fn commit(&mut self)
        ensures { self.new ≡ record { schema = self.old.schema; rows = committed self.old.rows self.old.pending; pending = [] } }
    {
        self.rows.commit();
    }

    /// Drops all changes that are prepared. It takes no memory.
    pub fn abort(&mut self)
        ensures { self.new ≡ record self.old { pending = [] } }
    {
        self.rows.abort();
    }
}
