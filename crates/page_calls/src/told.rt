//! What is told of a page by the rows of its parts.

ghost use Rattle.std.specs.Prelude.{◌≡◌, ◌+◌, ◌<◌, length, map, IfOk};
ghost use Rattle.cell_pages.specs.Asked.{entry_of};
ghost use Rattle.page_reads.specs.Filled.{filled_as};
ghost use Rattle.page_reads.specs.Sources.{source_in};
ghost use Rattle.page_calls.specs.Steps.{reply_of};

use crate::gather::Gathered;
use cell_model::PageRow;
use page_reads::{Filled, Seen, Sight, add_seen, nothing_filled};
use std::alloc::{AllocError as NoMemory, Global};
use table_model::Reply;

/// Whether the page is full with the row behind so many of these.
fn is_full(rows: &[PageRow], before: usize, ended: bool) -> bool
    requires { before < length rows.now }
    ensures { before + 1 ≡ length rows.now → result ≡ ended }
{
    ended && before + 1 == rows.len()
}

/// The page of these rows, which ends with the last of them, or goes on.
fn filled(
    alloc: Global,
    sight: &Sight<'_>,
    rows: &[PageRow],
    ended: bool,
) -> Result<Filled, NoMemory>
    ensures { IfOk result (λ filled. filled
        ≡ filled_as ended sight.now.schema.now (source_in sight.now.source) sight.now.page.now (map entry_of rows.now)) }
{
    let mut filled = nothing_filled(alloc, sight.page);
    for (before, row) in rows.iter().enumerate() {
        let is_full = is_full(rows, before, ended);
        add_seen(alloc, sight, Seen::Whole(&row.item), is_full, &mut filled)?;
    }
    Ok(filled)
}

/// What is told of a page of these rows.
pub(crate) fn told_page(
    alloc: Global,
    sight: &Sight<'_>,
    gathered: &Gathered,
) -> Result<Reply, NoMemory>
    ensures { IfOk result (λ reply. reply
        ≡ reply_of sight.now.schema.now (source_in sight.now.source) sight.now.page.now gathered.now) }
{
    let filled = filled(alloc, sight, gathered.rows.as_slice(), gathered.ended)?;
    filled.told(sight.page)
}
