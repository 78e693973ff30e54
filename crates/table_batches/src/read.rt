//! BatchGetItem.

ghost use Rattle.std.specs.Prelude.{◌≡◌, ◌≤◌, ◌++◌, map, sum_by, length, take, filter_map, IfOk, OnOk};
ghost use Rattle.std.specs.Option.{option_copied};
ghost use Rattle.table_model.specs.Reads.{view};
ghost use Rattle.capacity.specs.Units as units;
ghost use Rattle.table_model.specs.Batches.{most_batch_bytes, read_count, used_by_keys};
ghost use Rattle.table_model.specs.Consumed.{bytes_of, where_asked};
ghost use Rattle.table_batches.specs.Answers.{IsRead, tables_alone};
ghost use Rattle.table_batches.specs.Reads.{shown, found_among, used_among, read_of};

use crate::asked::asked_items;
use crate::unread::unread;
use attr_value::{SharedItem, lent};
use base_types::{Seq, Text};
use capacity::{Mode, read_halves};
use expr_words::Paths;
use numbered_tables::NumberedTable;
use std::alloc::{AllocError as NoMemory, Global};
use std::collections::BTreeMap;
use table_items::{bytes_of, read_mode, view};
use table_model::{FoundItems, Reply};
use table_request::{BatchGet, Consumed, TableKeys};

/// The most bytes of the items that are read together.
const MOST_BYTES: u64 = 16_777_216;

/// How many keys are read: those before the first item with which the items would have more than 16,777,216 bytes.
fn read_count(items: &[Option<&SharedItem>]) -> usize
    ensures count { result ≡ read_count most_batch_bytes (map option_copied items.now) }
    ensures within { result ≤ length items.now }
{
    let mut room = MOST_BYTES;
    for (read, item) in items.iter().enumerate() {
        let bytes = bytes_of(lent(*item));
        if bytes > room {
            return read;
        }
        room -= bytes;
    }
    items.len()
}

/// What is shown of the items that are there.
fn shown(
    alloc: Global,
    projection: Option<&Paths>,
    items: &[Option<&SharedItem>],
) -> Result<Seq<SharedItem>, NoMemory>
    ensures { IfOk result (λ views. views ≡ shown (option_copied projection.entry) (map option_copied items.now)) }
{
    let mut views = Seq::new(alloc);
    for found in items {
        if let Some(item) = *found {
            views.push(view(alloc, projection, item)?)?;
        }
    }
    Ok(views)
}

/// What is shown of the items of a table that are there, under its name.
fn shown_of(
    alloc: Global,
    asked: &TableKeys,
    items: &[Option<&SharedItem>],
) -> Result<FoundItems, NoMemory>
    ensures { IfOk result (λ found. found ≡ record { table = asked.now.table; items = shown asked.now.projection (map option_copied items.now) }) }
{
    let table = asked.table.try_clone()?;
    let items = shown(alloc, asked.projection.as_ref(), items)?;
    Ok(FoundItems { table, items })
}

/// Of each table what is shown of those of its items that are among these, which are the first of all.
fn found(
    alloc: Global,
    requests: &[TableKeys],
    items: &[Option<&SharedItem>],
) -> Result<Seq<FoundItems>, NoMemory>
    ensures { IfOk result (λ found. found ≡ found_among requests.now (map option_copied items.now)) }
{
    let mut found = Seq::with_capacity(alloc, requests.len())?;
    let mut start = 0;
    for asked in requests {
        let end = start + asked.keys.len().min(items.len() - start);
        found.push(shown_of(alloc, asked, &items[start..end])?)?;
        start = end;
    }
    Ok(found)
}

/// The halves of a unit that reads of these items use, each by itself.
fn halves_read(mode: Mode, items: &[Option<&SharedItem>]) -> u64
    ensures { result ≡ units.counted (sum_by (λ item. units.read_halves mode (bytes_of item)) (map option_copied items.now)) }
{
    let mut halves = 0u64;
    for item in items {
        let bytes = bytes_of(lent(*item));
        halves = halves.saturating_add(read_halves(bytes, mode));
    }
    halves
}

/// What the reads of these items of a table use.
fn used_of(asked: &TableKeys, items: &[Option<&SharedItem>]) -> Result<Consumed, NoMemory>
    ensures { IfOk result (λ used. used ≡ used_by_keys asked.now (map option_copied items.now)) }
{
    let table = asked.table.try_clone()?;
    let mode = read_mode(asked.consistent.unwrap_or(false));
    let halves = halves_read(mode, items);
    Ok(Consumed { table, halves })
}

/// Of each table what is used by the reads of those of its items that are among these, which are the first of all.
fn used(
    alloc: Global,
    requests: &[TableKeys],
    items: &[Option<&SharedItem>],
) -> Result<Seq<Consumed>, NoMemory>
    ensures { IfOk result (λ used. used ≡ used_among requests.now (map option_copied items.now)) }
{
    let mut used = Seq::with_capacity(alloc, requests.len())?;
    let mut start = 0;
    for asked in requests {
        let end = start + asked.keys.len().min(items.len() - start);
        used.push(used_of(asked, &items[start..end])?)?;
        start = end;
    }
    Ok(used)
}

/// The same where it is told. Else nothing is measured.
fn used_if(
    capacity: bool,
    alloc: Global,
    requests: &[TableKeys],
    items: &[Option<&SharedItem>],
) -> Result<Option<Seq<Consumed>>, NoMemory>
    ensures { IfOk result (λ used. used ≡ where_asked capacity (used_among requests.now (map option_copied items.now))) }
{
    if !capacity {
        return Ok(None);
    }
    Ok(Some(used(alloc, requests, items)?))
}

/// The answer to a request for these items, which are those of its keys from the first on, as many as are read and one more
/// where that one has no room.
pub fn told_batch(
    alloc: Global,
    requests: Seq<TableKeys>,
    capacity: bool,
    items: &[Option<&SharedItem>],
) -> Result<Reply, NoMemory>
    ensures { IfOk result (λ reply. reply ≡ read_of capacity requests (map option_copied items.now)) }
{
    let count = read_count(items);
    let found = found(alloc, requests.as_slice(), &items[..count])?;
    let consumed = used_if(capacity, alloc, requests.as_slice(), &items[..count])?;
    let unread = unread(alloc, requests, count)?;
    Ok(Reply::BatchRead {
        found,
        unread,
        consumed,
    })
}

/// Reads the items at keys of several tables (API Reference: BatchGetItem). It is refused, in this order, for a table that
/// is not there, for the form of a key, and for a key that stands twice in a table.
///
/// The items end before the first with which they would have more than 16,777,216 bytes together. Its key and those behind
/// it are given back as they were asked.
pub fn batch_get(
    tables: &BTreeMap<Text, NumberedTable>,
    alloc: Global,
    request: BatchGet,
) -> Result<Reply, NoMemory>
    ensures { IfOk result (IsRead tables.now.entries request) }
{
    let BatchGet {
        tables: requests,
        capacity,
    } = request;
    match asked_items(tables, alloc, requests.as_slice())? {
        Ok(items) => told_batch(alloc, requests, capacity, items.as_slice()),
        Err(refusal) => {
            drop(requests);
            Ok(Reply::Refused(refusal))
        }
    }
}
