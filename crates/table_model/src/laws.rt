//! What the definitions say of small requests. The function does nothing: its clause is proved by computing.

ghost use Rattle.table_model.specs.Worked.{Worked};

/// The worked examples hold.
pub fn worked()
    ensures { Worked }
{}
