//! A page as it is filled.

ghost use Rattle.std.specs.Prelude.{◌≡◌, [], ◌+◌, ◌^◌, ◌<◌, ◌≤◌, false, Some, IfOk, OnOk};
ghost use Rattle.std.specs.Option.{option_copied, ForSome};
ghost use Rattle.attr_value.specs.Sizes.{item_size};
ghost use Rattle.capacity.specs.Units.{counted};
ghost use Rattle.paging.specs.Room.{has_stopped};
ghost use Rattle.paging.specs.Rows.{rows_after};
ghost use Rattle.table_schema.specs.declared.schema.Schema.{Schema as AnySchema};
ghost use Rattle.table_model.specs.declared.reply.Reply.TheVariants as answer;
ghost use Rattle.table_model.specs.Outcome.{is_met};
ghost use Rattle.table_model.specs.Pages.{page_of, used_by_page};
ghost use Rattle.table_model.specs.Pages.{Source as AnySource};
ghost use Rattle.page_reads.specs.Filled.{filled_of, item_of, IsAdded, IsSeen, FillsPage};

use crate::row::{Seen, Sight};
use attr_value::SharedItem;
use base_types::Seq;
use capacity::read_halves;
use paging::{Judged, PageState, Steps, Walk};
use std::alloc::{AllocError as NoMemory, Global};
use std::sync::ledger::Ledger;
use table_items::{is_met, read_mode};
use table_model::{Page, Reply};
use table_request::{Consumed, PageRequest, Select};

/// A page, and the bytes of the rows that it looked at.
#[derive(Drop)]
pub struct Filled {
    pub page: Page,
    /// Whether the rows pass the filter or not, or the last `u64` where they have more.
    pub bytes: u64,
}

impl Filled {
    /// What is told of the page, with what it used where that is told.
    pub fn told(self, request: &PageRequest) -> Result<Reply, NoMemory>
        ensures { IfOk result (λ reply. reply ≡ answer.Page self.page (used_by_page request.now self.bytes)) }
    {
        let consumed = used(request, self.bytes)?;
        Ok(Reply::Page {
            page: self.page,
            consumed,
        })
    }
}

/// What a page of so many bytes uses, where that is told.
fn used(request: &PageRequest, bytes: u64) -> Result<Option<Consumed>, NoMemory>
    ensures { IfOk result (λ used. used ≡ used_by_page request.now bytes) }
{
    if !request.capacity {
        return Ok(None);
    }
    let table = request.table.try_clone()?;
    let halves = read_halves(bytes, read_mode(request.consistent));
    Ok(Some(Consumed { table, halves }))
}

/// A page without rows.
fn empty_page(alloc: Global, request: &PageRequest) -> Page
    ensures { (schema : AnySchema) (source : AnySource) → result ≡ page_of schema source request.now [] }
{
    let items = if matches!(request.select, Some(Select::Count)) {
        None
    } else {
        Some(Seq::new(alloc))
    };
    Page {
        count: 0,
        scanned: 0,
        items,
        last: None,
    }
}

/// A page without rows, which have no bytes.
pub fn nothing_filled(alloc: Global, request: &PageRequest) -> Filled
    ensures { (schema : AnySchema) (source : AnySource) → result ≡ filled_of schema source request.now [] }
{
    Filled {
        page: empty_page(alloc, request),
        bytes: 0,
    }
}

/// A row as a page judges it: its size, and whether it passes the filter.
fn judged(sight: &Sight<'_>, row: &Seen<'_>) -> Judged
    ensures size { result.size ≡ counted (item_size (item_of row.now)) }
    ensures passes { result.passes ≡ is_met sight.now.page.now.filter sight.now.page.now.values (Some (item_of row.now)) }
{
    let item = row.item();
    Judged {
        size: item.size(),
        passes: is_met(sight.page.filter.as_ref(), &sight.page.values, Some(item)),
    }
}

/// Adds a row that is judged so to a page, which is full with it or not.
fn add_judged(
    alloc: Global,
    sight: &Sight<'_>,
    row: Seen<'_>,
    judged: Judged,
    is_full: bool,
    filled: &mut Filled,
) -> Result<(), NoMemory>
    requires few { filled.old.page.scanned + 1 < 2 ^ 64 }
    requires fewer { filled.old.page.count ≤ filled.old.page.scanned }
    requires size { judged.size ≡ counted (item_size (item_of row)) }
    requires passes { judged.passes ≡ is_met sight.now.page.now.filter sight.now.page.now.values (Some (item_of row)) }
    ensures seen { OnOk result (IsSeen sight.now (item_of row.entry) is_full filled.old filled.new) }
    ensures scanned { OnOk result (filled.new.page.scanned ≡ filled.old.page.scanned + 1) }
{
    let last = sight.last_key(alloc, row.item(), is_full)?;
    filled.page.last = last;
    filled.page.scanned += 1;
    filled.bytes = filled.bytes.saturating_add(judged.size);
    if judged.passes {
        filled.page.count += 1;
        sight.add_shown(alloc, row, &mut filled.page.items)?;
    }
    Ok(())
}

/// Adds a row that is seen so to a page, which is full with it or not. The page had fewer than 2^64 - 1 rows.
pub fn add_seen(
    alloc: Global,
    sight: &Sight<'_>,
    row: Seen<'_>,
    is_full: bool,
    filled: &mut Filled,
) -> Result<(), NoMemory>
    requires few { filled.old.page.scanned + 1 < 2 ^ 64 }
    requires fewer { filled.old.page.count ≤ filled.old.page.scanned }
    ensures seen { OnOk result (IsSeen sight.now (item_of row.entry) is_full filled.old filled.new) }
{
    let judged = judged(sight, &row);
    add_judged(alloc, sight, row, judged, is_full, filled)
}

/// Tells a page of its next row, and answers whether it is full.
fn add_row(
    alloc: Global,
    sight: &Sight<'_>,
    item: &SharedItem,
    state: &mut PageState,
    filled: &mut Filled,
) -> Result<bool, NoMemory>
    requires going { has_stopped state.old ≡ false }
    requires few { filled.old.page.scanned + 1 < 2 ^ 64 }
    requires fewer { filled.old.page.count ≤ filled.old.page.scanned }
    ensures added { IfOk result (λ _. IsAdded sight.now item.now state.old filled.old state.new filled.new) }
    ensures full { IfOk result (λ full. full ≡ has_stopped state.new) }
    ensures scanned { IfOk result (λ _. filled.new.page.scanned ≡ filled.old.page.scanned + 1) }
{
    let row = sight.see(alloc, item)?;
    let judged = judged(sight, &row);
    let is_full = state.offer(judged.size, judged.passes).is_stop();
    add_judged(alloc, sight, row, judged, is_full, filled)?;
    Ok(is_full)
}

/// The page of the rows strictly after a place, or of all, in the direction asked. The limit is not 0.
///
/// Each row that it looks at is a step, and so is finding the end of the rows: it looks at no row behind the one that makes
/// the page full.
pub fn fill<W: Walk<Row = SharedItem>, L: Ledger>(
    alloc: Global,
    sight: &Sight<'_>,
    rows: &W,
    after: Option<&W::Place>,
    forward: bool,
    steps: &mut Steps<L>,
) -> Result<Filled, NoMemory>
    requires { ForSome sight.now.page.now.limit (λ most. 1 ≤ most) }
    ensures page { IfOk result (FillsPage sight.now
        (rows_after W.Place.cmp forward (option_copied after.entry) (W.listed rows.now))) }
    ensures cost { IfOk result (λ filled. steps.new ≤ steps.old + filled.page.scanned + 1) }
{
    let mut state = PageState::start(sight.page.limit);
    let mut filled = nothing_filled(alloc, sight.page);
    let mut cursor = after;
    while let Some((place, item)) = rows.next(cursor, forward, steps) {
        cursor = Some(place);
        if add_row(alloc, sight, item, &mut state, &mut filled)? {
            return Ok(filled);
        }
    }
    Ok(filled)
}
