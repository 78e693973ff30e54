//! Ranges of positions in an index.

ghost use Rattle.std.specs.Prelude.{◌≡◌, IfOk};
ghost use Rattle.row_keys.specs.declared.position.Position.{Position as AnyPosition};
ghost use Rattle.page_ranges.specs.Span.{is_inside, stands_inside};
ghost use Rattle.page_ranges.specs.Least.{first_of};

use crate::least::least_at;
use crate::span::Span;
use row_keys::{Position, RowKey};
use std::alloc::{AllocError as NoMemory, Global};

/// The positions from `low` on and before `high`. Where an end is absent, the range has none on that side.
#[derive(Drop)]
pub struct PositionSpan {
    pub low: Option<Position>,
    pub high: Option<Position>,
}

impl Span {
    /// The positions whose keys in what is read are inside.
    pub fn positions(self, alloc: Global) -> Result<PositionSpan, NoMemory>
        ensures { IfOk result (λ span. (position : AnyPosition) → stands_inside span position ≡ is_inside self position.read) }
    {
        let Span { low, high } = self;
        let low = end_of(alloc, low)?;
        let high = end_of(alloc, high)?;
        Ok(PositionSpan { low, high })
    }
}

/// The first position of a key, where there is one.
fn end_of(alloc: Global, key: Option<RowKey>) -> Result<Option<Position>, NoMemory>
    ensures { IfOk result (λ end. end ≡ first_of key) }
{
    match key {
        Some(read) => {
            let item = least_at(alloc, 0)?;
            Ok(Some(Position { read, item }))
        }
        None => Ok(None),
    }
}
