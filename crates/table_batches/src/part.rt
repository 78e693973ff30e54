//! Parts of requests, each of which is on one table.

ghost use Rattle.std.specs.Prelude.{◌≡◌, ℕ, List, Option, Result, IfOk};
ghost use Rattle.item_keys.specs.declared.key.Key.{Key};
ghost use Rattle.item_keys.specs.declared.fault.KeyFault.{KeyFault};
ghost use Rattle.table_model.specs.declared.refusal.Refusal.{Refusal};
ghost use Rattle.table_model.specs.Database.{Database};
ghost use Rattle.table_model.specs.Batches.{asked_keys, batch_get_refusal, batch_write_refusal, write_keys};
ghost use Rattle.table_batches.specs.Answers.{tables_alone};
ghost use Rattle.table_batches.specs.Keys.{AreKeysOf, gathered};
ghost use Rattle.table_batches.specs.Refusals.{RefusesOr};

use crate::check::{check_gets, check_writes};
use crate::keys::{asked_keys, write_keys};
use base_types::{Seq, Text};
use item_keys::KeyFault;
use numbered_tables::NumberedTable;
use row_keys::RowKey;
use std::alloc::{AllocError as NoMemory, Global};
use std::collections::BTreeMap;
use table_model::Refusal;
use table_request::{TableKeys, TableWrites};

/// A part of a request that is on one table.
pub trait OnTable {
    ghost table_of: { Self → List ℕ };

    ghost keys_of: { Database → Self → List (Result Key KeyFault) };

    /// The name of the table.
    fn table(&self) -> &Text
        ensures { result.now ≡ table_of self.now };

    /// The keys of its rows, or the first fault of one. Of a table that is not there nothing is asked.
    fn row_keys(
        &self,
        tables: &BTreeMap<Text, NumberedTable>,
        alloc: Global,
    ) -> Result<Result<Seq<RowKey>, KeyFault>, NoMemory>
        ensures { IfOk result (λ keys. keys ≡ gathered (keys_of (tables_alone tables.now.entries) self.now)) };
}

/// A part of a request that is refused, or not, by the schemas of its tables alone.
pub trait Checked: OnTable {
    ghost refusal: { Database → List Self → Option Refusal };

    /// The keys of the rows of each part of a request, or what refuses the request.
    fn check(
        tables: &BTreeMap<Text, NumberedTable>,
        alloc: Global,
        parts: &[Self],
    ) -> Result<Result<Seq<Seq<RowKey>>, Refusal>, NoMemory>
        ensures { let db = tables_alone tables.now.entries in
            IfOk result (RefusesOr (refusal db parts.now) (AreKeysOf (Self.keys_of db) parts.now)) };
}

impl OnTable for TableKeys {
    ghost table_of = { λ t. t.table };

    ghost keys_of = { asked_keys };

    fn table(&self) -> &Text {
        &self.table
    }

    fn row_keys(
        &self,
        tables: &BTreeMap<Text, NumberedTable>,
        alloc: Global,
    ) -> Result<Result<Seq<RowKey>, KeyFault>, NoMemory> {
        asked_keys(tables, alloc, self)
    }
}

impl Checked for TableKeys {
    ghost refusal = { batch_get_refusal };

    fn check(
        tables: &BTreeMap<Text, NumberedTable>,
        alloc: Global,
        parts: &[TableKeys],
    ) -> Result<Result<Seq<Seq<RowKey>>, Refusal>, NoMemory> {
        check_gets(tables, alloc, parts)
    }
}

impl OnTable for TableWrites {
    ghost table_of = { λ t. t.table };

    ghost keys_of = { write_keys };

    fn table(&self) -> &Text {
        &self.table
    }

    fn row_keys(
        &self,
        tables: &BTreeMap<Text, NumberedTable>,
        alloc: Global,
    ) -> Result<Result<Seq<RowKey>, KeyFault>, NoMemory> {
        write_keys(tables, alloc, self)
    }
}

impl Checked for TableWrites {
    ghost refusal = { batch_write_refusal };

    fn check(
        tables: &BTreeMap<Text, NumberedTable>,
        alloc: Global,
        parts: &[TableWrites],
    ) -> Result<Result<Seq<Seq<RowKey>>, Refusal>, NoMemory> {
        check_writes(tables, alloc, parts)
    }
}
