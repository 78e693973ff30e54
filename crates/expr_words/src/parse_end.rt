//! Why a text is refused.

use base_types::Text;

/// The clauses of an update.
#[derive(Debug, Clone, Copy, PartialEq, Eq)]
pub enum Clause {
    Set,
    Remove,
    Add,
    Delete,
}

/// Why no tree is answered. Of several faults of one text the first is told in the order TooLong,
/// Syntax (first the place of a byte that begins no token, wherever it stands), ClauseTwice,
/// UndefinedName and UndefinedValue in the order of the text, TooManyOperators, Overlap.
#[derive(Debug, PartialEq, Eq, Drop)]
pub enum ParseEnd {
    /// The text is no sentence. `place` counts bytes from 0: the first byte that begins no token;
    /// else the start of the first token with which no sentence goes on, or the text's length.
    Syntax { place: u32 },
    /// A placeholder of a name, with its `#`, that is not given.
    UndefinedName { name: Text },
    /// A placeholder of a value, with its `:`, that is not given.
    UndefinedValue { name: Text },
    /// The text has more than 4,096 bytes.
    TooLong,
    /// An update has more than 300 operators and functions.
    TooManyOperators,
    /// Of two paths the steps of one begin the other's.
    Overlap,
    /// An update has a clause twice.
    ClauseTwice { clause: Clause },
    /// Memory was refused.
    NoMemory,
}
