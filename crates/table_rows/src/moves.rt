//! Places of one item in an index, before and after a change.

ghost use Rattle.std.specs.Prelude.{◌≡◌, IfOk};
ghost use Rattle.table_rows.specs.Moves.{same_place, move_of};

use row_keys::Position;
use std::alloc::AllocError as NoMemory;

/// The place that goes from an index and the one that comes, where a change of an item moves its row. A row that stays
/// where it is has neither.
#[derive(Drop)]
pub(crate) struct Move {
    pub gone: Option<Position>,
    pub come: Option<Position>,
}

/// Whether both stand at one place, or nowhere.
fn same_place(old: &Option<Position>, new: &Option<Position>) -> bool
    ensures { result ≡ same_place old.now new.now }
{
    match (old, new) {
        (None, None) => true,
        (Some(old), Some(new)) => old.cmp(new).is_eq(),
        (Some(_), None) | (None, Some(_)) => false,
    }
}

impl Move {
    /// The move from one place to another.
    pub fn between(old: Option<Position>, new: Option<Position>) -> Move
        ensures { result ≡ move_of old new }
    {
        if same_place(&old, &new) {
            return Move {
                gone: None,
                come: None,
            };
        }
        Move {
            gone: old,
            come: new,
        }
    }
    /// The place that comes, copied.
    pub fn coming(&self) -> Result<Option<Position>, NoMemory>
        ensures { IfOk result (λ come. come ≡ self.now.come) }
    {
        match &self.come {
            Some(place) => Ok(Some(place.try_clone()?)),
            None => Ok(None),
        }
    }
}
