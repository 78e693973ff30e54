//! What else is so of what a control cell holds.

ghost use Rattle.std.specs.Prelude.{ℕ};
ghost use Rattle.control_cell.specs.Holding.{OthersLeaveIt, OwnEntriesTellIt, UnchangedHolds};

use txn_core::Rules;

/// An entry that is no Begin, Decide, Done or Forget, and no command that was carried out, leaves what a control cell holds.
pub fn others_leave_it<R: Rules>()
    ensures { (n : ℕ) → OthersLeaveIt R (R.protocol n) }
{}

/// After a legal history a control cell holds what the whole history leaves exactly where it holds what its own entries leave.
pub fn own_entries_tell_it<R: Rules>()
    ensures { (n : ℕ) → OwnEntriesTellIt R (R.protocol n) }
{}

/// A control cell in which nothing changed, as where memory was refused, holds what it held.
pub fn unchanged_holds<R: Rules>()
    ensures { (n : ℕ) → UnchangedHolds R (R.protocol n) }
{}
