//! Why there is no new item.

ghost use Rattle.std.specs.Prelude.{◌≡◌};

use base_types::End;
use number38::NumberFault;

/// What is wrong with an update of an item.
#[derive(Clone, Copy, Debug, PartialEq, Eq)]
pub enum EvalFault {
    /// A path that finds nothing where a value is needed, or a value that was not given.
    MissingOperand,
    /// An operand of a type that its operator or function does not take.
    OperandType,
    /// A sum that is no number.
    Number(NumberFault),
    /// A path whose parent is not there, or is not of the kind that its last step needs.
    BadPath,
    /// A new item whose lists and maps lie deeper in one another than 32 levels.
    TooDeep,
    /// A new item of more than 409,600 bytes.
    ItemTooLarge,
    /// An attribute of the new item that is the key of an index and has another type, or a size that no key has. It is
    /// told by who knows the indexes, and never by [`crate::apply`].
    IndexKey,
}

/// Why an evaluation gave nothing.
pub type EvalEnd = End<EvalFault>;

impl From<EvalFault> for EvalEnd {
    ghost use Rattle.base_types.specs.declared.end.End.{End};

    ghost from_gives = { λ fault end. end ≡ End.Fault fault };

    fn from(fault: EvalFault) -> EvalEnd {
        EvalEnd::Fault(fault)
    }
}
