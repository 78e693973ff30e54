//! What the definitions say of every transfer, and of some. The functions do nothing: their clauses are laws.

ghost use Rattle.std.specs.Prelude.{ℕ};
ghost use Rattle.load_gen.specs.Transfers.{IsTransfer};
ghost use Rattle.load_gen.specs.Worked.{Worked};

/// Every transfer is between two of the 64 accounts, never one alone, and of 1 to 9.
pub fn transfers_are_between_two()
    ensures { (start j : ℕ) → IsTransfer start j }
{}

/// The worked examples hold.
pub fn worked()
    ensures { Worked }
{}
