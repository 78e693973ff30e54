//! What the definitions say of small replies. The function does nothing: its clause is proved by computing.

ghost use Rattle.api_reply.specs.Worked.{Worked};

/// The worked examples hold.
pub fn worked()
    ensures { Worked }
{}
