//! Why a message is no request.

use api_form::{Fault, Name};
use base_types::{End, Text};
use expr_parse::ParseEnd;
use legacy_params::LegacyFault;
use table_schema::SchemaFault;

/// Why a message is refused before the database sees it.
pub enum Refusal {
    /// The target names no operation (UnknownOperationException).
    UnknownOperation,
    /// The body is no JSON, or a part of it is of another JSON kind than stated (SerializationException).
    Serialization,
    /// The body has this fault, which is not one of kinds (ValidationException).
    Body(Fault),
    /// What is stated of a table breaks this rule (ValidationException).
    Schema(SchemaFault),
    /// Legacy members of the body have this fault (ValidationException).
    Legacy(LegacyFault),
    /// The text of this member is no expression. The fault is never of memory (ValidationException).
    Expression { member: Name, fault: ParseEnd },
    /// A placeholder of a name, with its `#`, that no expression uses (ValidationException).
    UnusedName(Text),
    /// A placeholder of a value, with its `:`, that no expression uses (ValidationException).
    UnusedValue(Text),
}

// By hand, so that no crate above proves it again.
impl Drop for Refusal {
    fn drop(self) {
        match self {
            Refusal::UnknownOperation
            | Refusal::Serialization
            | Refusal::Body(_)
            | Refusal::Schema(_)
            | Refusal::Legacy(_)
            | Refusal::Expression {
                member: _,
                fault: _,
            }
            | Refusal::UnusedName(_)
            | Refusal::UnusedValue(_) => {}
        }
    }
}

/// Why there is no request.
pub type RequestEnd = End<Refusal>;

impl From<Refusal> for RequestEnd {
    ghost use Rattle.std.specs.Prelude.{◌≡◌};
    ghost use Rattle.base_types.specs.declared.end.End.{End};

    ghost from_gives = { λ fault end. end ≡ End.Fault fault };

    fn from(fault: Refusal) -> RequestEnd {
        RequestEnd::Fault(fault)
    }
}
