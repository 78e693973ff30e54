//! Why JSON states no attribute value.

ghost use Rattle.std.specs.Prelude.{◌≡◌};
ghost use Rattle.attr_json.specs.Names.{name_of};

use attr_value::ValueFault;
use base_types::End;
use number38::NumberFault;
use std::fmt;

/// What is wrong with the JSON of an attribute value. It is shown as error texts have it: its name, and behind it that
/// of the fault inside it.
#[derive(Clone, Copy, PartialEq, Eq)]
pub enum JsonFault {
    /// No object, or one that has not exactly one member.
    NotOneMember,
    /// The member's name is not that of a type, or the JSON under it is not of the type's kind. A set's list is of
    /// another kind where one of its elements is no string, and null is stated by true alone.
    UnknownType,
    /// A text that denotes no number.
    BadNumber(NumberFault),
    /// A text that is not the base64 of bytes: the standard alphabet, canonical, with padding (RFC 4648, section 4).
    BadBase64,
    /// The elements of a set: there is none, or one is there twice.
    BadSet(ValueFault),
    /// More than 32 lists and maps in one another.
    TooDeep,
}

impl JsonFault {
    /// The fault's name, and behind it that of the fault inside it.
    #[tactic(auto, unfolding(crate::specs::Names::name_of))]
    fn name(self) -> &'static str
        ensures { result.now ≡ name_of self }
    {
        match self {
            JsonFault::NotOneMember => "NotOneMember",
            JsonFault::UnknownType => "UnknownType",
            JsonFault::BadNumber(NumberFault::Grammar) => "BadNumber Grammar",
            JsonFault::BadNumber(NumberFault::TooManyDigits) => "BadNumber TooManyDigits",
            JsonFault::BadNumber(NumberFault::OutOfRange) => "BadNumber OutOfRange",
            JsonFault::BadBase64 => "BadBase64",
            JsonFault::BadSet(ValueFault::EmptySet) => "BadSet EmptySet",
            JsonFault::BadSet(ValueFault::DuplicateInSet) => "BadSet DuplicateInSet",
            JsonFault::BadSet(ValueFault::TooDeep) => "BadSet TooDeep",
            JsonFault::BadSet(ValueFault::BadPath) => "BadSet BadPath",
            JsonFault::TooDeep => "TooDeep",
        }
    }
}

impl fmt::Display for JsonFault {
    ghost use Rattle.std.specs.Prelude.{Some};

    ghost output = { λ fault. Some (name_of fault) };

    fn fmt<W: fmt::Write>(&self, f: &mut fmt::Formatter<W>) -> fmt::Result {
        f.write_str(self.name())
    }
}

/// Why there is no attribute value.
pub type JsonEnd = End<JsonFault>;

impl From<JsonFault> for JsonEnd {
    ghost use Rattle.base_types.specs.declared.end.End.{End};

    ghost from_gives = { λ fault end. end ≡ End.Fault fault };

    fn from(fault: JsonFault) -> JsonEnd {
        JsonEnd::Fault(fault)
    }
}
