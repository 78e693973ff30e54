//! What refuses requests, and the keys of their rows, by the schemas of tables alone.

ghost use Rattle.std.specs.Prelude.{◌≡◌, IfOk};
ghost use Rattle.table_model.specs.Batches.{asked_keys, batch_get_refusal, batch_write_refusal, write_keys};
ghost use Rattle.table_batches.specs.Answers.{tables_alone};
ghost use Rattle.table_batches.specs.Keys.{AreKeysOf, ArePushed, keys_refusal};
ghost use Rattle.table_batches.specs.Refusals.{RefusesOr};

use crate::fit::{some_oversized, some_unfit};
use crate::keys::has_twice;
use crate::missing::missing;
use crate::part::OnTable;
use base_types::{Seq, Text};
use item_keys::KeyFault;
use numbered_tables::NumberedTable;
use row_keys::RowKey;
use std::alloc::{AllocError as NoMemory, Global};
use std::collections::BTreeMap;
use table_model::{Invalid, Refusal};
use table_request::{TableKeys, TableWrites};
use update_eval::EvalFault;

/// Adds the keys of the rows of one part, and answers whether a key stands twice among them, or the first fault of a key.
fn push_keys<T: OnTable>(
    tables: &BTreeMap<Text, NumberedTable>,
    alloc: Global,
    part: &T,
    all: &mut Seq<Seq<RowKey>>,
) -> Result<Result<bool, KeyFault>, NoMemory>
    ensures { let keys = T.keys_of (tables_alone tables.now.entries) part.now in
        IfOk result (λ found. ArePushed keys found all.old all.new) }
{
    let keys = match part.row_keys(tables, alloc)? {
        Ok(keys) => keys,
        Err(fault) => return Ok(Err(fault)),
    };
    let twice = has_twice(alloc, keys.as_slice())?;
    all.push(keys)?;
    Ok(Ok(twice))
}

/// The keys of the rows of each part, or the refusal of a key.
fn keys_of_all<T: OnTable>(
    tables: &BTreeMap<Text, NumberedTable>,
    alloc: Global,
    parts: &[T],
) -> Result<Result<Seq<Seq<RowKey>>, Refusal>, NoMemory>
    ensures { let keys = T.keys_of (tables_alone tables.now.entries) in
        IfOk result (RefusesOr (keys_refusal keys parts.now) (AreKeysOf keys parts.now)) }
{
    let mut all = Seq::new(alloc);
    let mut twice = false;
    for part in parts {
        match push_keys(tables, alloc, part, &mut all)? {
            Ok(repeats) => twice |= repeats,
            Err(fault) => return Ok(Err(Refusal::Invalid(Invalid::Key(fault)))),
        }
    }
    if twice {
        return Ok(Err(Refusal::Invalid(Invalid::Twice)));
    }
    Ok(Ok(all))
}

/// The keys that a BatchGetItem asks for, table after table, or its refusal.
pub(crate) fn check_gets(
    tables: &BTreeMap<Text, NumberedTable>,
    alloc: Global,
    requests: &[TableKeys],
) -> Result<Result<Seq<Seq<RowKey>>, Refusal>, NoMemory>
    ensures { let db = tables_alone tables.now.entries in
        IfOk result (RefusesOr (batch_get_refusal db requests.now) (AreKeysOf (asked_keys db) requests.now)) }
{
    if let Some(refusal) = missing(tables, requests)? {
        return Ok(Err(refusal));
    }
    keys_of_all(tables, alloc, requests)
}

/// The keys that a BatchWriteItem writes at, table after table, or its refusal.
pub(crate) fn check_writes(
    tables: &BTreeMap<Text, NumberedTable>,
    alloc: Global,
    requests: &[TableWrites],
) -> Result<Result<Seq<Seq<RowKey>>, Refusal>, NoMemory>
    ensures { let db = tables_alone tables.now.entries in
        IfOk result (RefusesOr (batch_write_refusal db requests.now) (AreKeysOf (write_keys db) requests.now)) }
{
    if let Some(refusal) = missing(tables, requests)? {
        return Ok(Err(refusal));
    }
    let keys = match keys_of_all(tables, alloc, requests)? {
        Ok(keys) => keys,
        Err(refusal) => return Ok(Err(refusal)),
    };
    if some_oversized(requests) {
        return Ok(Err(Refusal::Invalid(Invalid::ItemTooLarge)));
    }
    if some_unfit(tables, requests) {
        return Ok(Err(Refusal::Invalid(Invalid::Evaluation(EvalFault::IndexKey))));
    }
    Ok(Ok(keys))
}
