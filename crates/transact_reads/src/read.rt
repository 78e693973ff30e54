//! Whole requests.

ghost use Rattle.std.specs.Prelude.{IfOk};
ghost use Rattle.transact_reads.specs.Reads.{IsTransactGet, IsAnswered};

use crate::check::fit;
use crate::told::tell;
use base_types::Text;
use numbered_tables::NumberedTable;
use std::alloc::{AllocError as NoMemory, Global};
use std::collections::BTreeMap;
use table_model::Reply;
use table_request::{TransactGet, TransactRead};

/// Reads items of tables at one point (API Reference: TransactGetItems): what is shown of each, where it is there, in the
/// order of the request. It is refused for the first table that is not there, then for the first key that is none of its
/// table's, and then where an item is read twice. `NoMemory` is for want of memory.
pub fn transact_get(
    tables: &BTreeMap<Text, NumberedTable>,
    alloc: Global,
    request: TransactGet,
) -> Result<Reply, NoMemory>
    ensures { IfOk result (IsTransactGet tables.now.entries request) }
{
    let TransactGet { reads, capacity } = request;
    let reply = answer(tables, alloc, reads.as_slice(), capacity);
    drop(reads);
    reply
}

/// The reply to these reads.
fn answer(
    tables: &BTreeMap<Text, NumberedTable>,
    alloc: Global,
    reads: &[TransactRead],
    capacity: bool,
) -> Result<Reply, NoMemory>
    ensures { IfOk result (IsAnswered tables.now.entries reads.now capacity) }
{
    match fit(tables, alloc, reads)? {
        Ok(found) => tell(alloc, capacity, found.as_slice()),
        Err(refusal) => Ok(Reply::Refused(refusal)),
    }
}
