//! The bodies of errors.

ghost use Rattle.std.specs.Prelude.{◌≡◌, ◌++◌, OnOk};
ghost use Rattle.attr_json.specs.Text.{tokens_of};
ghost use Rattle.api_reply.specs.Bodies.{cancelled, failed, refusal_data};
ghost use Rattle.api_reply.specs.Errors.{error, text_first, type_first};

use crate::kind::ErrorKind;
use crate::message::{kind_of, message_of};
use crate::to_json::{ToJson, write_list_member, write_optional, write_text};
use attr_value::SharedItem;
use base_types::Seq;
use json::Writer;
use std::alloc::{AllocError as NoMemory, Global};
use table_model::{Reason, Refusal};

/// Writes an error: its type, and a text for people.
pub(crate) fn write_error(
    writer: &mut Writer,
    kind: ErrorKind,
    message: &str,
) -> Result<(), NoMemory>
    ensures tokens { OnOk result (writer.new.tokens ≡ writer.old.tokens ++ tokens_of (error kind message.now)) }
    ensures before { writer.new.before ≡ writer.old.before }
{
    match kind {
        ErrorKind::TransactionCanceled | ErrorKind::IdempotentParameterMismatch => {
            write_text_first(writer, kind, message)
        }
        _ => write_type_first(writer, kind, message),
    }
}

/// Writes an error whose text is called `Message`.
fn write_text_first(writer: &mut Writer, kind: ErrorKind, message: &str) -> Result<(), NoMemory>
    ensures tokens { OnOk result (writer.new.tokens ≡ writer.old.tokens ++ tokens_of (text_first kind message.now)) }
    ensures before { writer.new.before ≡ writer.old.before }
{
    writer.begin_object()?;
    write_text(writer, "Message", message)?;
    write_text(writer, "__type", kind.type_name())?;
    writer.end_object()
}

/// Writes an error whose text is called `message`.
fn write_type_first(writer: &mut Writer, kind: ErrorKind, message: &str) -> Result<(), NoMemory>
    ensures tokens { OnOk result (writer.new.tokens ≡ writer.old.tokens ++ tokens_of (type_first kind message.now)) }
    ensures before { writer.new.before ≡ writer.old.before }
{
    writer.begin_object()?;
    write_text(writer, "__type", kind.type_name())?;
    write_text(writer, "message", message)?;
    writer.end_object()
}

impl ToJson for Refusal {
    ghost as_data = { refusal_data };

    fn write(&self, alloc: Global, writer: &mut Writer) -> Result<(), NoMemory> {
        let message = message_of(alloc, self)?;
        match self {
            Refusal::Cancelled(reasons) => {
                write_cancelled(alloc, writer, reasons, message.as_str())
            }
            Refusal::ConditionFailed { old } => {
                write_failed(alloc, writer, old, message.as_str())
            }
            _ => write_error(writer, kind_of(self), message.as_str()),
        }
    }
}

/// Writes the error of a cancelled transaction, which tells of each of its parts.
fn write_cancelled(
    alloc: Global,
    writer: &mut Writer,
    reasons: &Seq<Reason>,
    message: &str,
) -> Result<(), NoMemory>
    ensures tokens { OnOk result (writer.new.tokens ≡ writer.old.tokens ++ tokens_of (cancelled reasons.now message.now)) }
    ensures before { writer.new.before ≡ writer.old.before }
{
    writer.begin_object()?;
    write_list_member(alloc, writer, "CancellationReasons", reasons)?;
    write_text(writer, "Message", message)?;
    write_text(writer, "__type", ErrorKind::TransactionCanceled.type_name())?;
    writer.end_object()
}

/// Writes the error of a condition that was false, with the item where it is shown.
fn write_failed(
    alloc: Global,
    writer: &mut Writer,
    old: &Option<SharedItem>,
    message: &str,
) -> Result<(), NoMemory>
    ensures tokens { OnOk result (writer.new.tokens ≡ writer.old.tokens ++ tokens_of (failed old.now message.now)) }
    ensures before { writer.new.before ≡ writer.old.before }
{
    writer.begin_object()?;
    write_optional(alloc, writer, "Item", old)?;
    write_text(
        writer,
        "__type",
        ErrorKind::ConditionalCheckFailed.type_name(),
    )?;
    write_text(writer, "message", message)?;
    writer.end_object()
}
