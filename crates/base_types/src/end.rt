//! Why a call that takes memory gave no value.

ghost use Rattle.std.specs.Prelude.{◌≡◌};

use std::alloc::{AllocError as NoMemory, AllocFailed};

/// Why a call gave no value: what it was asked has a fault, or memory was refused.
#[derive(Clone, Copy, Debug, PartialEq, Eq, Drop)]
pub enum End<F> {
    /// What was asked has this fault.
    Fault(F),
    /// Memory was refused.
    NoMemory,
}

impl<F> From<NoMemory> for End<F> {
    ghost use Rattle.base_types.specs.declared.end.End.{End};

    ghost from_gives = { λ refused end. end ≡ End.NoMemory };

    fn from(_refused: NoMemory) -> End<F> {
        End::NoMemory
    }
}

impl<F, T: Drop> From<AllocFailed<T>> for End<F> {
    ghost use Rattle.base_types.specs.declared.end.End.{End};

    ghost from_gives = { λ refused end. end ≡ End.NoMemory };

    fn from(_refused: AllocFailed<T>) -> End<F> {
        End::NoMemory
    }
}
