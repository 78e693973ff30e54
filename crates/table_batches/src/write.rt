//! BatchWriteItem.

ghost use Rattle.std.specs.Prelude.{◌≡◌, false, IsTrue, IfOk, OnErr};
ghost use Rattle.std.specs.List.{flat_map};
ghost use Rattle.table_request.specs.Batches.{ascend};
ghost use Rattle.table_model.specs.Batches.{batch_write_refusal};
ghost use Rattle.numbered_tables.specs.Tables.{AreIdle};
ghost use Rattle.numbered_tables.specs.Changes.{has_repeat};
ghost use Rattle.table_batches.specs.Answers.{IsWritten, tables_alone};
ghost use Rattle.table_batches.specs.Refusals.{RefusesOr};
ghost use Rattle.table_batches.specs.Writes.{changes_in};

use crate::change::changes_of_all;
use crate::fit::{some_oversized, some_unfit};
use crate::missing::missing;
use crate::used::used_if;
use base_types::{Seq, Text};
use numbered_tables::{NumberedTable, TableChange, change_all};
use std::alloc::{AllocError as NoMemory, Global};
use std::collections::BTreeMap;
use table_model::{Invalid, Refusal, Reply};
use table_request::{BatchWrite, TableWrites};
use update_eval::EvalFault;

/// The changes that a request is, or its refusal. The names of its tables ascend, so that the changes of one table are of
/// other items than those of another.
fn changes_asked(
    tables: &BTreeMap<Text, NumberedTable>,
    alloc: Global,
    requests: Seq<TableWrites>,
) -> Result<Result<Seq<TableChange>, Refusal>, NoMemory>
    requires ascending { IsTrue (ascend requests) }
    ensures { let db = tables_alone tables.now.entries in IfOk result (RefusesOr (batch_write_refusal db requests)
        (λ changes. (changes ≡ flat_map (changes_in db) requests) × (has_repeat changes ≡ false))) }
{
    if let Some(refusal) = missing(tables, requests.as_slice())? {
        drop(requests);
        return Ok(Err(refusal));
    }
    let oversized = some_oversized(requests.as_slice());
    let unfit = some_unfit(tables, requests.as_slice());
    let changes = match changes_of_all(tables, alloc, requests)? {
        Ok(changes) => changes,
        Err(refusal) => return Ok(Err(refusal)),
    };
    if oversized {
        drop(changes);
        return Ok(Err(Refusal::Invalid(Invalid::ItemTooLarge)));
    }
    if unfit {
        drop(changes);
        return Ok(Err(Refusal::Invalid(Invalid::Evaluation(EvalFault::IndexKey))));
    }
    Ok(Ok(changes))
}

/// Makes and drops items of several tables (API Reference: BatchWriteItem). It is refused, in this order, for a table that
/// is not there, for the form of a key, for a key that stands twice in a table, for an item of more than 409,600 bytes, and
/// for the key of an index. Otherwise all writes are made. Where memory is refused nothing changes.
pub fn batch_write(
    tables: &mut BTreeMap<Text, NumberedTable>,
    alloc: Global,
    request: BatchWrite,
) -> Result<Reply, NoMemory>
    requires idle { AreIdle tables.old.entries }
    ensures idle { AreIdle tables.new.entries }
    ensures ok { IfOk result (IsWritten tables.old.entries request tables.new.entries) }
    ensures err { OnErr result (tables.new.entries ≡ tables.old.entries) }
{
    let BatchWrite {
        tables: requests,
        capacity,
    } = request;
    let consumed = used_if(capacity, tables, alloc, requests.as_slice())?;
    match changes_asked(tables, alloc, requests)? {
        Ok(changes) => {
            change_all(tables, alloc, changes)?;
            let unwritten = Seq::new(alloc);
            Ok(Reply::BatchWritten {
                unwritten,
                consumed,
            })
        }
        Err(refusal) => Ok(Reply::Refused(refusal)),
    }
}
