//! What was consumed of the tables' capacity (DynamoDB API Reference: ConsumedCapacity).

ghost use Rattle.std.specs.Prelude.{◌≡◌, ◌++◌, ◌∷◌, [], OnOk, option_map};
ghost use Rattle.json.specs.Json.{Json};
ghost use Rattle.json.specs.Token.{number};
ghost use Rattle.json.specs.Tree.{json_tokens};
ghost use Rattle.capacity.specs.Units.{units};
ghost use Rattle.api_reply.specs.Capacity.{consumed_tokens};

use base_types::Seq;
use json::Writer;
use std::alloc::{AllocError as NoMemory, Global};
use table_request::Consumed;

/// What was consumed, of one table or of several. Units need not be whole, so its JSON is none of [`crate::to_json::ToJson`].
pub(crate) trait Capacity {
    ghost as_json: { Self → Json };

    /// Writes the JSON of the value.
    fn write(&self, alloc: Global, writer: &mut Writer) -> Result<(), NoMemory>
        ensures tokens { OnOk result (writer.new.tokens ≡ writer.old.tokens ++ json_tokens (as_json self.now)) }
        ensures before { writer.new.before ≡ writer.old.before };
}

impl Capacity for Consumed {
    ghost use Rattle.api_reply.specs.Capacity.{capacity};

    ghost as_json = { capacity };

    fn write(&self, alloc: Global, writer: &mut Writer) -> Result<(), NoMemory> {
        writer.begin_object()?;
        writer.key("CapacityUnits")?;
        write_units(alloc, writer, self.halves)?;
        writer.key("TableName")?;
        writer.string(self.table.as_str())?;
        writer.end_object()
    }
}

impl Capacity for Seq<Consumed> {
    ghost use Rattle.api_reply.specs.Capacity.{capacities};

    ghost as_json = { capacities };

    fn write(&self, alloc: Global, writer: &mut Writer) -> Result<(), NoMemory> {
        writer.begin_array()?;
        for used in self.as_slice() {
            used.write(alloc, writer)?;
        }
        writer.end_array()
    }
}

/// Writes halves as a number of units.
fn write_units(alloc: Global, writer: &mut Writer, halves: u64) -> Result<(), NoMemory>
    ensures tokens { OnOk result (writer.new.tokens ≡ writer.old.tokens ++ number (units halves) ∷ []) }
    ensures before { writer.new.before ≡ writer.old.before }
{
    let text = capacity::print(alloc, halves)?;
    writer.number(text.as_str())
}

/// Writes the member that tells what was consumed, where it is told.
pub(crate) fn write_consumed<T: Capacity>(
    alloc: Global,
    writer: &mut Writer,
    consumed: &Option<T>,
) -> Result<(), NoMemory>
    ensures tokens { OnOk result (writer.new.tokens ≡ writer.old.tokens ++ consumed_tokens (option_map T.as_json consumed.now)) }
    ensures before { writer.new.before ≡ writer.old.before }
{
    match consumed {
        Some(consumed) => {
            writer.key("ConsumedCapacity")?;
            consumed.write(alloc, writer)
        }
        None => Ok(()),
    }
}
