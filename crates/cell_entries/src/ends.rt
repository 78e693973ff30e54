//! Between which entries the rows of a page stand.

ghost use Rattle.std.specs.Prelude.{◌≡◌, true, false, IfOk};
ghost use Rattle.std.specs.Ordering.{is_le};
ghost use Rattle.std.specs.BTreeMap.Range.{is_past_end};
ghost use Rattle.row_keys.specs.Keys.{position_order};
ghost use Rattle.row_keys.specs.Rows.{position};
ghost use Rattle.row_keys.specs.declared.position.Position.{Position as AnyPosition};
ghost use Rattle.page_ranges.specs.Least.{least_at};
ghost use Rattle.cell_entries.specs.LocalEntries.{entry_order};
ghost use Rattle.cell_pages.specs.Walked.{included, is_from, is_up_to};
ghost use Rattle.cell_entries.specs.Met.{Enclose, entry_in};

use crate::entry::LocalEntry;
use crate::row::IndexPlace;
use base_types::Text;
use cell_model::PageQuestion;
use cell_pages::{Ends, ends_of};
use item_keys::KeyValue;
use row_keys::{Position, RowKey, SortPoint};
use std::alloc::{AllocError as NoMemory, Global};

/// The key that no key is below.
fn least_key(alloc: Global) -> Result<RowKey, NoMemory>
    ensures { IfOk result (λ key. key ≡ least_at 0) }
{
    Ok(RowKey {
        place: 0,
        partition: KeyValue::S(Text::copied(alloc, "")?),
        sort: SortPoint::Least,
    })
}

/// The position that no position is below.
fn first_position(alloc: Global) -> Result<Position, NoMemory>
    ensures { IfOk result (λ first. first ≡ position (least_at 0) (least_at 0)) }
{
    Ok(Position {
        read: least_key(alloc)?,
        item: least_key(alloc)?,
    })
}

/// The low end, or the first position where there is none.
fn low_position(alloc: Global, low: Option<Position>) -> Result<Position, NoMemory>
    ensures { IfOk result (λ first. (at : AnyPosition) → is_from low at ≡ true → is_le (position_order first at) ≡ true) }
{
    match low {
        Some(at) => Ok(at),
        None => first_position(alloc),
    }
}

/// The low end as an entry of the index, or the index's first where there is none.
fn low_entry(
    alloc: Global,
    index: IndexPlace,
    low: Option<Position>,
) -> Result<LocalEntry, NoMemory>
    ensures { IfOk result (λ entry. (at : AnyPosition) → is_from low at ≡ true
        → is_le (entry_order entry (entry_in index.table index.place at)) ≡ true) }
{
    let at = low_position(alloc, low)?;
    Ok(LocalEntry {
        table: index.table,
        index: index.place,
        at,
    })
}

/// The high end as an entry of the index, or the first one of the next index where there is none.
fn high_entry(
    alloc: Global,
    index: IndexPlace,
    high: Option<Position>,
) -> Result<Option<LocalEntry>, NoMemory>
    ensures { IfOk result (λ entry. (at : AnyPosition) → is_up_to high at ≡ true
        → is_past_end entry_order (included entry) (entry_in index.table index.place at) ≡ false) }
{
    if let Some(at) = high {
        return Ok(Some(LocalEntry {
            table: index.table,
            index: index.place,
            at,
        }));
    }
    let Some(next) = index.place.checked_add(1) else {
        return Ok(None);
    };
    Ok(Some(LocalEntry {
        table: index.table,
        index: next,
        at: first_position(alloc)?,
    }))
}

/// The entries between which all that the page is asked for stands.
pub(crate) fn entry_ends(
    alloc: Global,
    index: IndexPlace,
    page: &PageQuestion,
) -> Result<Ends<LocalEntry>, NoMemory>
    ensures { IfOk result (λ ends. Enclose index.table index.place page.now ends.low ends.high) }
{
    let Ends { low, high } = ends_of(alloc, page)?;
    let first = low_entry(alloc, index, low)?;
    let last = high_entry(alloc, index, high)?;
    Ok(Ends {
        low: Some(first),
        high: last,
    })
}
