//! The parts of a page, from cell to cell.

ghost use Rattle.std.specs.Prelude.{◌≡◌, ◌+◌, ◌-◌, ◌^◌, ◌<◌, ◌++◌, IfOk, IfErr, OnOk};
ghost use Rattle.cell_asks.specs.Steps.{GivesUp};
ghost use Rattle.page_calls.specs.Steps.{GatheredOrGone, TurnsTo, turn_of};

use base_types::Seq;
use cell_asks::{Asks, StepError};
use cell_model::{PageQuestion, PageRow, Part};
use cell_pages::next_page;
use std::alloc::AllocError as NoMemory;

/// What became of a page in one cell.
#[derive(Drop)]
pub(crate) enum Turn {
    /// The table or the index is gone.
    Gone,
    /// The page has ended.
    Ended,
    /// This may be asked of the next cell.
    GoesOn(PageQuestion),
}

/// The rows of a page, and whether it has ended with them.
#[derive(Drop)]
pub(crate) struct Gathered {
    pub rows: Seq<PageRow>,
    pub ended: bool,
}

/// Adds the rows that a cell told, and tells what may be asked of the next cell, which is this but for the room that is left.
fn add_part(mut next: PageQuestion, part: Part, rows: &mut Vec<PageRow>) -> Result<Turn, NoMemory>
    ensures turn { IfOk result (λ turn. turn ≡ turn_of next part) }
    ensures added { OnOk result (rows.new.items ≡ rows.old.items ++ part.rows) }
{
    let Part {
        rows: more,
        room,
        stopped,
    } = part;
    rows.append(&mut Vec::from(more))?;
    if stopped {
        return Ok(Turn::Ended);
    }
    next.room = room;
    Ok(Turn::GoesOn(next))
}

/// Asks a cell for its part of a page, and adds its rows.
fn ask_part<C: Asks>(
    cells: &C,
    pass: &mut C::Pass,
    question: PageQuestion,
    rows: &mut Vec<PageRow>,
) -> Result<Turn, StepError>
    requires fits { C.fits cells.now pass.old }
    requires cell { question.cell < u32.MAX }
    ensures ok { IfOk result (TurnsTo (C.count cells.now) (C.seen pass.old) question rows.old.items rows.new.items (C.seen pass.new)) }
    ensures err { IfErr result (λ why. GivesUp (C.count cells.now) (C.seen pass.old) why (C.seen pass.new)) }
    ensures fits { C.fits cells.now pass.new }
{
    let next = next_page(&question, question.room)?;
    match cells.page(pass, question)? {
        Some(part) => Ok(add_part(next, part, rows)?),
        None => {
            drop(next);
            Ok(Turn::Gone)
        }
    }
}

/// The rows of a page from its first cell on, up to the one with which it has ended, and in so many cells behind the first at
/// most. None is answered where the table or the index is gone.
pub(crate) fn gather<C: Asks>(
    cells: &C,
    pass: &mut C::Pass,
    first: PageQuestion,
    behind: u32,
) -> Result<Option<Gathered>, StepError>
    requires fits { C.fits cells.now pass.old }
    requires within { first.cell + behind < 2 ^ 32 - 1 }
    ensures ok { IfOk result (λ gathered. GatheredOrGone (C.count cells.now) (C.seen pass.old) first behind gathered (C.seen pass.new)) }
    ensures err { IfErr result (λ why. GivesUp (C.count cells.now) (C.seen pass.old) why (C.seen pass.new)) }
    ensures fits { C.fits cells.now pass.new }
{
    let mut rows = Vec::new(cells.alloc());
    let mut question = first;
    let mut left = behind;
    'cells: loop {
        match ask_part(cells, pass, question, &mut rows)? {
            Turn::Gone => return Ok(None),
            Turn::Ended => {
                return Ok(Some(Gathered {
                    rows: Seq::from(rows),
                    ended: true,
                }));
            }
            Turn::GoesOn(next) => {
                if left == 0 {
                    drop(next);
                    return Ok(Some(Gathered {
                        rows: Seq::from(rows),
                        ended: false,
                    }));
                }
                left -= 1;
                question = next;
            }
        }
    }
}
