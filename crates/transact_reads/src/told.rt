//! What is told of items that were read.

ghost use Rattle.std.specs.Prelude.{◌≡◌, map, Option, IfOk};
ghost use Rattle.std.specs.Option.{option_copied};
ghost use Rattle.attr_value.specs.Tree.{Attributes};
ghost use Rattle.table_request.specs.Usage.{by_table};
ghost use Rattle.table_request.specs.declared.transactions.TransactRead.{TransactRead};
ghost use Rattle.table_model.specs.Consumed.{where_asked};
ghost use Rattle.transact_reads.specs.Told.{shown_in, used_in, all_told, reads_told};

use attr_value::{SharedItem, lent};
use base_types::Seq;
use capacity::{Mode, read_halves};
use std::alloc::{AllocError as NoMemory, Global};
use table_items::{bytes_of, view};
use table_model::Reply;
use table_request::{Consumed, TransactRead, Usage};

/// A read with the item that it found.
pub(crate) trait ItemRead {
    ghost read_in: { Self → TransactRead };

    ghost item_in: { Self → Option Attributes };

    fn read(&self) -> &TransactRead
        ensures { result.now ≡ read_in self.now };

    /// The item, where it is there.
    fn item(&self) -> Option<&SharedItem>
        ensures { option_copied result ≡ item_in self.now };
}

/// What is shown of the item, where it is there.
fn shown<R: ItemRead>(alloc: Global, one: &R) -> Result<Option<SharedItem>, NoMemory>
    ensures { IfOk result (λ shown. shown ≡ shown_in (R.read_in one.now) (R.item_in one.now)) }
{
    match one.item() {
        Some(item) => Ok(Some(view(alloc, one.read().projection.as_ref(), item)?)),
        None => Ok(None),
    }
}

/// What is shown of each item, where it is there.
fn views<R: ItemRead>(alloc: Global, all: &[R]) -> Result<Seq<Option<SharedItem>>, NoMemory>
    ensures { IfOk result (λ views. views ≡ map (λ one. shown_in (R.read_in one) (R.item_in one)) all.now) }
{
    let mut views = Seq::with_capacity(alloc, all.len())?;
    for one in all {
        views.push(shown(alloc, one)?)?;
    }
    Ok(views)
}

/// The halves of a unit that the read uses.
fn halves<R: ItemRead>(one: &R) -> u64
    ensures { result ≡ (used_in (R.read_in one.now) (R.item_in one.now)).halves }
{
    read_halves(bytes_of(lent(one.item())), Mode::Transact)
}

/// What all reads use, of each table, in the order of the tables' names.
fn used<R: ItemRead>(alloc: Global, all: &[R]) -> Result<Seq<Consumed>, NoMemory>
    ensures { IfOk result (λ used. used ≡ by_table (map (λ one. used_in (R.read_in one) (R.item_in one)) all.now)) }
{
    let mut usage = Usage::new(alloc);
    for one in all {
        usage.add(&one.read().table, halves(one))?;
    }
    usage.into_consumed(alloc)
}

/// The same where it is told. Else nothing is measured.
fn used_if<R: ItemRead>(
    capacity: bool,
    alloc: Global,
    all: &[R],
) -> Result<Option<Seq<Consumed>>, NoMemory>
    ensures { IfOk result (λ used. used ≡ where_asked capacity (by_table (map (λ one. used_in (R.read_in one) (R.item_in one)) all.now))) }
{
    if !capacity {
        return Ok(None);
    }
    Ok(Some(used(alloc, all)?))
}

/// The reply to reads that nothing refuses.
pub(crate) fn tell<R: ItemRead>(alloc: Global, capacity: bool, all: &[R]) -> Result<Reply, NoMemory>
    ensures { IfOk result (λ reply. reply ≡ all_told R.read_in R.item_in capacity all.now) }
{
    Ok(Reply::TransactRead {
        shown: views(alloc, all)?,
        consumed: used_if(capacity, alloc, all)?,
    })
}

/// A read, and an item that was read by it.
#[derive(Drop)]
struct ReadItem<'a> {
    read: &'a TransactRead,
    item: &'a Option<SharedItem>,
}

impl<'a> ItemRead for ReadItem<'a> {
    ghost read_in = { λ one. one.read.now };

    ghost item_in = { λ one. one.item.now };

    fn read(&self) -> &TransactRead {
        self.read
    }

    fn item(&self) -> Option<&SharedItem> {
        self.item.as_ref()
    }
}

/// The reply to reads of a request that nothing refuses, each of which found its item, in order (API Reference:
/// TransactGetItems). `NoMemory` is for want of memory.
pub fn told_reads(
    alloc: Global,
    reads: &[TransactRead],
    capacity: bool,
    items: &[Option<SharedItem>],
) -> Result<Reply, NoMemory>
    ensures { IfOk result (λ reply. reply ≡ reads_told capacity reads.now items.now) }
{
    let mut all = Vec::with_capacity(alloc, items.len())?;
    for (read, item) in reads.iter().zip(items) {
        all.push(ReadItem { read, item })?;
    }
    tell(alloc, capacity, all.as_slice())
}
