//! A page that goes on in the next cell.

ghost use Rattle.std.specs.Prelude.{◌≡◌, ◌<◌, IfOk};
ghost use Rattle.cell_model.specs.Parts.{next_page};

use crate::ends::{copy_of_position, copy_of_span};
use cell_model::{PageQuestion, PageRoom};
use std::alloc::AllocError as NoMemory;

/// The same page asked of the next cell, with so much of it left as a cell told before (API Reference: Scan). `NoMemory` is for want
/// of memory.
pub fn next_page(page: &PageQuestion, room: PageRoom) -> Result<PageQuestion, NoMemory>
    requires { page.now.cell < u32.MAX }
    ensures { IfOk result (λ next. next ≡ next_page page.now room) }
{
    Ok(PageQuestion {
        cell: page.cell + 1,
        table: page.table,
        source: page.source,
        span: copy_of_span(&page.span)?,
        forward: page.forward,
        after: copy_of_position(&page.after)?,
        room,
    })
}
