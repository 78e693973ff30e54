//! Sessions over a pass: which entries of the history are theirs.

ghost use Rattle.pass_sessions.specs.OwnEntries.{SessionsAddEntries};

/// A kind of session over a pass.
pub trait SessionKind {
    ghost use Rattle.std.specs.Prelude.{ℕ};
    ghost use Rattle.pass_sessions.specs.PassWays.{Rightness};

    /// What the history is made of.
    type Entry;

    // The number of the pass that counted the entry.
    ghost by: { Self.Entry → ℕ };

    // What a right reply is.
    ghost right: { Rightness Self.Entry };
}

/// Whatever a session over a pass answers by the steps of `pass_ways`, its pass has added the entries of its messages, one
/// message after the other, then those of the next message where the sink failed at its reply, and no other; and but for
/// these, for units and for the moment the pass is the same.
pub fn session_law<K: SessionKind>()
    ensures { SessionsAddEntries K.by K.right }
{}
