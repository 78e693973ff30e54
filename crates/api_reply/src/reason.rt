//! What became of each part of a cancelled transaction (DynamoDB API Reference: CancellationReason).

ghost use Rattle.std.specs.Prelude.{◌≡◌, IfOk, OnOk, Some, codes, option_map};
ghost use Rattle.api_reply.specs.Batches.{item};
ghost use Rattle.api_reply.specs.Bodies.{reason_item, reason_message};
ghost use Rattle.api_reply.specs.Json.{Adds, optional};

use crate::message::{code_of, eval_message};
use crate::to_json::{ToJson, write_optional, write_text};
use base_types::Text;
use json::Writer;
use std::alloc::{AllocError as NoMemory, Global};
use table_model::Reason;

impl ToJson for Reason {
    ghost use Rattle.api_reply.specs.Bodies.{reason_data};

    ghost as_data = { reason_data };

    fn write(&self, alloc: Global, writer: &mut Writer) -> Result<(), NoMemory> {
        let message = reason_message(alloc, self)?;
        writer.begin_object()?;
        write_text(writer, "Code", code_of(self))?;
        write_shown_item(alloc, writer, self)?;
        write_optional(alloc, writer, "Message", &message)?;
        writer.end_object()
    }
}

/// Writes the item that is shown beside it, where there is one.
#[tactic(auto, unfolding(crate::specs::Json::Adds))]
fn write_shown_item(alloc: Global, writer: &mut Writer, reason: &Reason) -> Result<(), NoMemory>
    ensures adds { OnOk result (Adds (optional (codes "Item") (option_map item (reason_item reason.now))) writer.old writer.new) }
    ensures before { writer.new.before ≡ writer.old.before }
{
    match reason {
        Reason::ConditionFalse { old } => write_optional(alloc, writer, "Item", old),
        Reason::None
        | Reason::Held { .. }
        | Reason::Late { .. }
        | Reason::Moved { .. }
        | Reason::Invalid(_) => Ok(()),
    }
}

/// What people are told, where the part was not accepted.
fn reason_message(alloc: Global, reason: &Reason) -> Result<Option<Text>, NoMemory>
    ensures { IfOk result (λ text. text ≡ reason_message reason.now) }
{
    match reason {
        Reason::None => Ok(None),
        Reason::ConditionFalse { .. } => told(alloc, "The conditional request failed"),
        Reason::Held { .. } => told(alloc, "Transaction is ongoing for the item"),
        Reason::Late { .. } => told(alloc, "A later change of the item is there"),
        Reason::Moved { .. } => told(alloc, "The item changed during the read"),
        Reason::Invalid(fault) => Ok(Some(Text::from(eval_message(alloc, *fault)?))),
    }
}

fn told(alloc: Global, text: &str) -> Result<Option<Text>, NoMemory>
    ensures { IfOk result (λ copy. copy ≡ Some text.now) }
{
    Ok(Some(Text::copied(alloc, text)?))
}
