//! BatchGetItem.

ghost use Rattle.std.specs.Prelude.{◌≡◌, List, [], ◌++◌, map, reverse, IfOk, IfErr, OnOk};
ghost use Rattle.std.specs.List.{flat_map};
ghost use Rattle.std.specs.Option.{option_copied};
ghost use Rattle.table_model.specs.Batches.{most_batch_bytes};
ghost use Rattle.table_model.specs.Consumed.{bytes_of};
ghost use Rattle.table_batches.specs.Reads.{read_of};
ghost use Rattle.table_history.specs.Entries.{TableEvent};
ghost use Rattle.cell_asks.specs.Steps.{GivesUp};
ghost use Rattle.cell_asks.specs.Told.{AreTold};
ghost use Rattle.batch_calls.specs.Batches.{IsBatchGetTry};
ghost use Rattle.batch_calls.specs.Steps.{AddsItem, GetsAt, GotOrGone, get_tried};

use crate::find::{Found, find};
use attr_value::{SharedItem, lent};
use base_types::Seq;
use cell_asks::{Asks, Got, Looks, StepError, Tried};
use cell_model::CellKey;
use std::alloc::{AllocError as NoMemory, Global};
use table_batches::told_batch;
use table_items::bytes_of;
use table_model::Reply;
use table_request::BatchGet;

/// The most bytes of the items that are read together.
const MOST_BYTES: u64 = 16_777_216;

/// These keys, one table's behind another's.
fn all_places(alloc: Global, places: Seq<Seq<CellKey>>) -> Result<Seq<CellKey>, NoMemory>
    ensures { IfOk result (λ all. all ≡ flat_map (λ mine. mine) places) }
{
    let mut all = Seq::new(alloc);
    for mine in Vec::from(places) {
        push_all(&mut all, mine)?;
    }
    Ok(all)
}

/// Adds these keys.
fn push_all(all: &mut Seq<CellKey>, more: Seq<CellKey>) -> Result<(), NoMemory>
    ensures { OnOk result (all.new ≡ all.old ++ more) }
{
    for place in Vec::from(more) {
        all.push(place)?;
    }
    Ok(())
}

/// The bytes of an item, none where it is not there.
fn bytes_read(item: &Option<SharedItem>) -> u64
    ensures { result ≡ bytes_of item.now }
{
    bytes_of(lent(item.as_ref()))
}

/// The items that were read, and the bytes that are left for more.
#[derive(Drop)]
struct Reading {
    items: Seq<Option<SharedItem>>,
    room: u64,
}

impl Reading {
    /// Nothing was read.
    fn new(alloc: Global) -> Reading
        ensures { result ≡ record { items = []; room = most_batch_bytes } }
    {
        Reading {
            items: Seq::new(alloc),
            room: MOST_BYTES,
        }
    }

    /// Adds an item, and answers whether it had room.
    fn add(&mut self, item: Option<SharedItem>) -> Result<bool, NoMemory>
        ensures { IfOk result (λ fits. AddsItem item fits self.old self.new) }
    {
        let bytes = bytes_read(&item);
        self.items.push(item)?;
        if bytes > self.room {
            return Ok(false);
        }
        self.room -= bytes;
        Ok(true)
    }
}

/// Reads the items of these keys, up to the first that has no room. None is answered where a table is gone.
fn get_all<C: Asks>(
    cells: &C,
    pass: &mut C::Pass,
    places: Seq<CellKey>,
) -> Result<Option<Seq<Option<SharedItem>>>, StepError>
    requires fits { C.fits cells.now pass.old }
    ensures ok { IfOk result (λ items. GotOrGone (C.count cells.now) (C.seen pass.old) places items (C.seen pass.new)) }
    ensures err { IfErr result (λ why. GivesUp (C.count cells.now) (C.seen pass.old) why (C.seen pass.new)) }
    ensures fits { C.fits cells.now pass.new }
{
    let mut reading = Reading::new(cells.alloc());
    for place in Vec::from(places) {
        let item = match cells.get(pass, place)? {
            Got::Row(item) => item,
            Got::Stale => return Ok(None),
        };
        let fits = reading.add(item)?;
        if !fits {
            return Ok(Some(reading.items));
        }
    }
    Ok(Some(reading.items))
}

/// These items, lent.
fn lent_items(
    alloc: Global,
    items: &[Option<SharedItem>],
) -> Result<Vec<Option<&SharedItem>>, NoMemory>
    ensures { IfOk result (λ lent. map option_copied lent.items ≡ items.now) }
{
    let mut all = Vec::with_capacity(alloc, items.len())?;
    for item in items {
        all.push(item.as_ref())?;
    }
    Ok(all)
}

/// The reply where these items were read.
fn told(alloc: Global, request: BatchGet, items: &[Option<SharedItem>]) -> Result<Reply, NoMemory>
    ensures { IfOk result (λ reply. reply ≡ read_of request.capacity request.tables items.now) }
{
    let BatchGet { tables, capacity } = request;
    let lent = lent_items(alloc, items)?;
    told_batch(alloc, tables, capacity, lent.as_slice())
}

/// What a request comes to where its items were read, or a table was gone.
fn tried(
    alloc: Global,
    looks: &mut Looks,
    request: BatchGet,
    items: Option<Seq<Option<SharedItem>>>,
) -> Result<Tried, NoMemory>
    ensures tried { IfOk result (λ tried. tried ≡ get_tried request items) }
    ensures told { (es : List TableEvent) → AreTold es looks.old → AreTold es looks.new }
{
    match items {
        Some(items) => Ok(Tried::Reply(told(alloc, request, items.as_slice())?)),
        None => {
            drop(request);
            looks.forget(alloc);
            Ok(Tried::Again)
        }
    }
}

/// Reads the items at these places.
fn get_at<C: Asks>(
    cells: &C,
    pass: &mut C::Pass,
    looks: &mut Looks,
    request: BatchGet,
    places: Seq<Seq<CellKey>>,
) -> Result<Tried, StepError>
    requires fits { C.fits cells.now pass.old }
    requires told { AreTold (reverse (C.seen pass.old).front) looks.old }
    ensures ok { IfOk result (λ tried. GetsAt (C.count cells.now) (C.seen pass.old) request places tried (C.seen pass.new)) }
    ensures err { IfErr result (λ why. GivesUp (C.count cells.now) (C.seen pass.old) why (C.seen pass.new)) }
    ensures told { AreTold (reverse (C.seen pass.new).front) looks.new }
    ensures fits { C.fits cells.now pass.new }
{
    let places = all_places(cells.alloc(), places)?;
    let items = get_all(cells, pass, places)?;
    Ok(tried(cells.alloc(), looks, request, items)?)
}

/// Reads items of several tables, each by itself (API Reference: BatchGetItem). It is refused by own Looks of its tables, in
/// this order, for a table that is not there, for the form of a key, and for a key that stands twice in a table.
///
/// The items end with the first with which they have more than 16,777,216 bytes together: its key and those behind it are
/// given back as they were asked.
pub fn batch_get<C: Asks>(
    cells: &C,
    pass: &mut C::Pass,
    looks: &mut Looks,
    request: BatchGet,
) -> Result<Tried, StepError>
    requires fits { C.fits cells.now pass.old }
    requires told { AreTold (reverse (C.seen pass.old).front) looks.old }
    ensures ok { IfOk result (λ tried. IsBatchGetTry (C.count cells.now) (C.seen pass.old) request tried (C.seen pass.new)) }
    ensures err { IfErr result (λ why. GivesUp (C.count cells.now) (C.seen pass.old) why (C.seen pass.new)) }
    ensures told { AreTold (reverse (C.seen pass.new).front) looks.new }
    ensures fits { C.fits cells.now pass.new }
{
    match find(cells, pass, looks, request.tables.as_slice()) {
        Ok(Found::At(places)) => get_at(cells, pass, looks, request, places),
        Ok(Found::Refused(why)) => {
            drop(request);
            Ok(Tried::Reply(Reply::Refused(why)))
        }
        Err(why) => {
            drop(request);
            Err(why)
        }
    }
}
