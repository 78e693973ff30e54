//! Why each cell can answer by itself: what a cell holds and answers is what its own entries make
//! of it.
//!
//! The definitions stand in `specs/Cells.antt`. A cell's entries are those at it and those over all
//! cells. So whoever keeps, for each cell, what the cell's own entries make of the state has all
//! that its answers need.
ghost use Rattle.std.specs.Prelude.{ℕ};
ghost use Rattle.txn_core.specs.Cells.{OwnEntriesTell, OwnEntriesAnswer, CellsAnswer, SameEntriesAnswer, SeenCellsAreEnough};

use crate::rules::Rules;

/// [Cell]. After a legal history each cell holds what its own entries make of the state: of each
/// item that lives there the row, its stamp, its version and its pending; the floor and the numbers
/// of the cell; the catalog; and of the control cell, the transactions, the tokens and the reasons
/// of decisions.
pub fn own_entries_tell<R: Rules>()
    ensures { (n : ℕ) → OwnEntriesTell (R.protocol n) }
{}

/// [Cell]. After a legal history a cell's own entries decide what it answers. A command, which goes
/// to all cells, is answered by the control cell's refusal, or by the first cell in which an item
/// of its table is held, or by the catalog. Two legal histories in which the cells that are asked
/// have the same entries have the same answers.
pub fn own_entries_answer<R: Rules>()
    ensures one_cell { (n : ℕ) → OwnEntriesAnswer (R.protocol n) }
    ensures all_cells { (n : ℕ) → CellsAnswer (R.protocol n) }
    ensures same_entries { (n : ℕ) → SameEntriesAnswer (R.protocol n) }
{}

/// Who has seen a beginning of the history with all entries of its own pass, and all those of the
/// cells that it asks, may go by it: an answer and a moment that fit that beginning fit the whole.
/// What may be sent is a question of its own, [`seen_is_enough`](crate::laws::seen_is_enough).
pub fn seen_cells_are_enough<R: Rules>()
    ensures { (n : ℕ) → SeenCellsAreEnough (R.protocol n) }
{}
