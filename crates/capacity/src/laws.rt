//! What the definitions say of small reads and writes. The function does nothing: its clause is proved by computing.

ghost use Rattle.capacity.specs.Worked.{Worked};

/// The worked examples hold.
pub fn worked()
    ensures { Worked }
{}
