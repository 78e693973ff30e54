//! Why an item has no key.

ghost use Rattle.std.specs.Prelude.{◌≡◌, Some};
ghost use Rattle.item_keys.specs.FaultName.{name_of};

use base_types::End;
use std::error::Error;
use std::fmt;

/// What is wrong with the key of an item. It is shown as its name, the form in which error texts have it.
#[derive(Clone, Copy, Debug, PartialEq, Eq)]
pub enum KeyFault {
    /// The item does not have the key attribute.
    Missing = 1,
    /// The key attribute's value has another type than the one that is defined.
    WrongType = 2,
    /// The key attribute's value is a string or a binary of no byte.
    Empty = 3,
    /// The partition key's value has more than 2,048 bytes, or the sort key's more than 1,024.
    TooLong = 4,
    /// There is an attribute beside those of the key.
    Extra = 5,
}

impl KeyFault {
    /// The variant's name.
    #[tactic(auto, unfolding(crate::specs::FaultName::name_of))]
    fn name(self) -> &'static str
        ensures { result.now ≡ name_of self }
    {
        match self {
            KeyFault::Missing => "Missing",
            KeyFault::WrongType => "WrongType",
            KeyFault::Empty => "Empty",
            KeyFault::TooLong => "TooLong",
            KeyFault::Extra => "Extra",
        }
    }
}

impl fmt::Display for KeyFault {
    ghost output = { λ fault. Some (name_of fault) };

    fn fmt<W: fmt::Write>(&self, f: &mut fmt::Formatter<W>) -> fmt::Result {
        f.write_str(self.name())
    }
}

impl Error for KeyFault {}

/// Why there is no key.
pub type KeyEnd = End<KeyFault>;

impl From<KeyFault> for KeyEnd {
    ghost use Rattle.base_types.specs.declared.end.End.{End};

    ghost from_gives = { λ fault end. end ≡ End.Fault fault };

    fn from(fault: KeyFault) -> KeyEnd {
        KeyEnd::Fault(fault)
    }
}
