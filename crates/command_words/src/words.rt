//! What the words state, and why they state nothing.
ghost use Rattle.std.specs.Prelude.{◌≡◌};

use std::alloc::AllocError;

/// A command of the program, with its values.
#[derive(Clone, Copy, Debug, PartialEq, Eq)]
pub enum Command {
    /// Answer the messages of standard input on standard output, out of this many partitions.
    Stdio {
        partitions: u32,
    },
    /// Answer the connections of a port with this many workers, out of this many partitions.
    Serve {
        port: u16,
        partitions: u32,
        workers: u32,
    },
    /// Make `count` transfers for each of `clients` clients, beginning with the number `start`.
    Load {
        start: u64,
        clients: u32,
        count: u32,
        partitions: u32,
    },
}

/// Why no command is answered.
#[derive(Clone, Copy, Debug, PartialEq, Eq)]
pub enum WordsEnd {
    /// The words state no command.
    Refused,
    /// Memory was refused. Nothing is said of the words.
    NoMemory,
}

impl From<AllocError> for WordsEnd {
    ghost use Rattle.command_words.specs.declared.words.WordsEnd.{WordsEnd};

    ghost from_gives = { λ refused end. end ≡ WordsEnd.NoMemory };

    fn from(_refused: AllocError) -> WordsEnd {
        WordsEnd::NoMemory
    }
}
