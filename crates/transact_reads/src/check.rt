//! Reads that nothing refuses.

ghost use Rattle.std.specs.Prelude.{◌≡◌, map, IfOk};
ghost use Rattle.transact_reads.specs.Found.{database_of, target_of};
ghost use Rattle.transact_reads.specs.Checked.{place_of, IsChecked, IsFit};

use crate::found::{FoundRead, ReadAt, find_all, missing_table};
use crate::targets::has_repeat;
use base_types::{Seq, Text};
use numbered_tables::NumberedTable;
use std::alloc::{AllocError as NoMemory, Global};
use std::collections::BTreeMap;
use table_model::{Invalid, Refusal};
use table_request::TransactRead;

/// The reads with their tables and their keys, or the first refusal of the request: of a table, of a key, of an item that is
/// read twice.
pub(crate) fn fit<'a>(
    tables: &'a BTreeMap<Text, NumberedTable>,
    alloc: Global,
    reads: &'a [TransactRead],
) -> Result<Result<Seq<FoundRead<'a>>, Refusal>, NoMemory>
    ensures { IfOk result (IsFit (database_of tables.now.entries) reads.now) }
{
    if let Some(refusal) = missing_table(tables, reads)? {
        return Ok(Err(refusal));
    }
    match find_all(tables, alloc, reads)? {
        Ok(found) => {
            if has_repeat(alloc, found.as_slice())? {
                return Ok(Err(Refusal::Invalid(Invalid::Twice)));
            }
            Ok(Ok(found))
        }
        Err(refusal) => Ok(Err(refusal)),
    }
}

/// Where the items of these reads are.
fn places(alloc: Global, found: Seq<FoundRead<'_>>) -> Result<Seq<ReadAt>, NoMemory>
    ensures { IfOk result (λ places. places ≡ map (λ read. place_of (target_of read)) found.entry) }
{
    let mut places = Vec::with_capacity(alloc, found.len())?;
    for read in Vec::from(found) {
        places.push(read.into_place())?;
    }
    Ok(Seq::from(places))
}

/// Where the items of a request's reads are, in order, or the first refusal of the request: of a table, of a key, of an item
/// that is read twice. It is told by the tables' schemas alone. `NoMemory` is for want of memory.
pub fn checked(
    tables: &BTreeMap<Text, NumberedTable>,
    alloc: Global,
    reads: &[TransactRead],
) -> Result<Result<Seq<ReadAt>, Refusal>, NoMemory>
    ensures { IfOk result (IsChecked (database_of tables.now.entries) reads.now) }
{
    match fit(tables, alloc, reads)? {
        Ok(found) => Ok(Ok(places(alloc, found)?)),
        Err(refusal) => Ok(Err(refusal)),
    }
}
