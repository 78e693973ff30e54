//! A page along an ordered map, of which no more is gone over than the page needs.

ghost use Rattle.std.specs.Prelude.{◌≡◌, ◌+◌, ◌∷◌, ◌⊎◌, [], true, false, length, option_map, Option, IfOk, IfSome, IfNone};
ghost use Rattle.std.specs.BTreeMap.Range.{entries_between};
ghost use Rattle.std.specs.Map.Iter.{deref_pair};
ghost use Rattle.attr_value.specs.Tree.{Attributes};
ghost use Rattle.row_keys.specs.declared.position.Position.{Position};
ghost use Rattle.paging.specs.Rows.{in_direction};
ghost use Rattle.cell_model.specs.declared.question.PageQuestion.{PageQuestion as AnyQuestion};
ghost use Rattle.cell_model.specs.Pages.{is_over};
ghost use Rattle.cell_pages.specs.Asked.{entry_of};
ghost use Rattle.cell_pages.specs.Walked.{included, is_reversed, page_along};

use crate::ends::{Ends, end_at};
use crate::part::{is_over, no_row, room_behind};
use base_types::Seq;
use cell_model::{CatalogAnswer, PageQuestion, PageRoom, PageRow};
use std::alloc::{AllocError as NoMemory, Global};
use std::collections::btree_map::{BTreeMap, Range};

/// The rows that the entries of an ordered map stand for: each for one, or for none.
pub trait EntryRows<K, W> {
    /// The row of an entry, where it stands for one and the page is asked for it.
    ghost picked: { Self → AnyQuestion → K × W → Option (Position × Attributes) };

    /// The row of an entry, where it stands for one and the page is asked for it. `NoMemory` is for want of memory.
    fn picked(&self, page: &PageQuestion, key: &K, kept: &W) -> Result<Option<PageRow>, NoMemory>
        ensures { IfOk result (λ row. option_map entry_of row ≡ picked self.now page.now (key.now, kept.now)) };
}

/// What comes next in this direction, unless the page is over.
fn next_kept<'a, K, W>(
    range: &mut Range<'a, K, W>,
    forward: bool,
    room: PageRoom,
) -> Option<(&'a K, &'a W)>
    ensures none { IfNone result ((is_over room ≡ true) ⊎ (range.old ≡ [])) }
    ensures going { IfSome result (λ next. is_over room ≡ false) }
    ensures next { IfSome result (λ next. in_direction forward range.old ≡ deref_pair next ∷ in_direction forward range.new) }
    ensures fewer { IfSome result (λ next. length range.old ≡ length range.new + 1) }
{
    if is_over(room) {
        return None;
    }
    if forward {
        return range.next();
    }
    range.next_back()
}

/// The page of the entries between two ends that are not the wrong way round.
fn part_along<K: Ord, W, R: EntryRows<K, W>>(
    alloc: Global,
    entry_rows: &R,
    map: &BTreeMap<K, W>,
    ends: &Ends<K>,
    page: &PageQuestion,
) -> Result<CatalogAnswer, NoMemory>
    requires { is_reversed K.cmp ends.now.low ends.now.high ≡ false }
    ensures { IfOk result (λ answer. answer ≡ page_along (R.picked entry_rows.now page.now) page.now
        (entries_between K.cmp (included ends.now.low) (included ends.now.high) map.now.entries)) }
{
    let mut range = map.range((end_at(&ends.low), end_at(&ends.high)));
    let mut rows = Seq::new(alloc);
    let mut room = page.room;
    while let Some((key, kept)) = next_kept(&mut range, page.forward, room) {
        if let Some(row) = entry_rows.picked(page, key, kept)? {
            room = room_behind(room, &row.item);
            rows.push(row)?;
        }
    }
    let stopped = is_over(room);
    Ok(CatalogAnswer::Part {
        rows,
        room,
        stopped,
    })
}

/// The page of the rows that the entries of a map between two ends stand for, in the page's direction. Where the low end is above
/// the high one it has no row. `NoMemory` is for want of memory.
pub fn page_between<K: Ord, W, R: EntryRows<K, W>>(
    alloc: Global,
    entry_rows: &R,
    map: &BTreeMap<K, W>,
    ends: &Ends<K>,
    page: &PageQuestion,
) -> Result<CatalogAnswer, NoMemory>
    ensures { IfOk result (λ answer. answer ≡ page_along (R.picked entry_rows.now page.now) page.now
        (entries_between K.cmp (included ends.now.low) (included ends.now.high) map.now.entries)) }
{
    if ends.is_reversed() {
        return Ok(no_row(alloc, page));
    }
    part_along(alloc, entry_rows, map, ends, page)
}
