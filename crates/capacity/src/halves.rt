//! What reads and writes count for.

ghost use Rattle.std.specs.Prelude.{◌≡◌};
ghost use Rattle.capacity.specs.Units.{read_halves as halves_of_read, write_halves as halves_of_write};

/// How a read or a write is made. A write alone is the same in the first two.
#[derive(Clone, Copy)]
pub enum Mode {
    /// A read that may miss the latest writes.
    Eventual,
    /// A read of what stands at its moment.
    Consistent,
    /// A part of a transaction.
    Transact,
}

/// The halves of a unit that a read of so many bytes counts for.
pub fn read_halves(bytes: u64, mode: Mode) -> u64
    ensures { result ≡ halves_of_read mode bytes }
{
    let pieces = bytes.div_ceil(4096).max(1);
    match mode {
        Mode::Eventual => pieces,
        Mode::Consistent => 2 * pieces,
        Mode::Transact => 4 * pieces,
    }
}

/// The halves of a unit that a write of so many bytes counts for.
pub fn write_halves(bytes: u64, mode: Mode) -> u64
    ensures { result ≡ halves_of_write mode bytes }
{
    let pieces = bytes.div_ceil(1024).max(1);
    match mode {
        Mode::Eventual | Mode::Consistent => 2 * pieces,
        Mode::Transact => 4 * pieces,
    }
}
