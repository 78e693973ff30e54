ghost use Rattle.std.specs.Prelude.{◌≡◌, Some};
ghost use Rattle.table_schema.specs.FaultName.{name_of};

use base_types::End;
use std::error::Error;
use std::fmt;

/// The rule that a schema breaks. It is shown as its name, the form in which error texts have it.
#[derive(Clone, Copy, Debug, PartialEq, Eq)]
pub enum SchemaFault {
    /// The table's name does not have 3 to 255 bytes of `a-z`, `A-Z`, `0-9`, `_`, `.` and `-`.
    BadName = 1,
    /// The table's key has one attribute as HASH and as RANGE.
    BadKeySchema = 2,
    /// The name of a definition does not have 1 to 255 bytes, or two definitions have one name.
    BadDefinition = 3,
    /// An attribute of the table's key or of an index's is not defined, or one that is defined is in no key.
    DefinitionMismatch = 4,
    /// The name of an index is not of the form of a table's, or two indexes of the table have one name.
    BadIndexName = 5,
    /// An index has one attribute as HASH and as RANGE; or a local index has another HASH than the table or
    /// no RANGE, or is on a table without a RANGE.
    BadIndexKey = 6,
    /// A projection that names attributes does not name 1 to 20 of them.
    BadProjection = 7,
    /// There are more than 5 local or more than 20 global indexes.
    TooManyIndexes = 8,
}

impl SchemaFault {
    /// The variant's name.
    #[tactic(auto, unfolding(crate::specs::FaultName::name_of))]
    fn name(self) -> &'static str
        ensures { result.now ≡ name_of self }
    {
        match self {
            SchemaFault::BadName => "BadName",
            SchemaFault::BadKeySchema => "BadKeySchema",
            SchemaFault::BadDefinition => "BadDefinition",
            SchemaFault::DefinitionMismatch => "DefinitionMismatch",
            SchemaFault::BadIndexName => "BadIndexName",
            SchemaFault::BadIndexKey => "BadIndexKey",
            SchemaFault::BadProjection => "BadProjection",
            SchemaFault::TooManyIndexes => "TooManyIndexes",
        }
    }
}

impl fmt::Display for SchemaFault {
    ghost output = { λ fault. Some (name_of fault) };

    fn fmt<W: fmt::Write>(&self, f: &mut fmt::Formatter<W>) -> fmt::Result {
        f.write_str(self.name())
    }
}

impl Error for SchemaFault {}

/// Why there is no schema.
pub type SchemaEnd = End<SchemaFault>;
