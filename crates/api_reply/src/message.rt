//! What people are told of a refusal that hangs on the tables.

ghost use Rattle.std.specs.Prelude.{◌≡◌, ◌++◌, IfOk, OnOk, codes, string_bytes};
ghost use Rattle.api_reply.specs.Messages.{code_of, codes_of, eval_fault, invalid_message, kind_of, message_of, ttl_fault};

use crate::kind::ErrorKind;
use number38::NumberFault;
use std::alloc::{AllocError as NoMemory, Global};
use table_model::{Invalid, Reason, Refusal, TtlFault};
use update_eval::EvalFault;

/// The kind of the error.
pub fn kind_of(refusal: &Refusal) -> ErrorKind
    ensures { result ≡ kind_of refusal.now }
{
    match refusal {
        Refusal::Invalid(_) => ErrorKind::Validation,
        Refusal::NoTable(_) | Refusal::NoIndex(_) => ErrorKind::ResourceNotFound,
        Refusal::TableExists(_) | Refusal::TableHeld(_) => ErrorKind::ResourceInUse,
        Refusal::ConditionFailed { .. } => ErrorKind::ConditionalCheckFailed,
        Refusal::Cancelled(_) => ErrorKind::TransactionCanceled,
        Refusal::Conflict { .. } => ErrorKind::TransactionConflict,
        Refusal::Mismatch => ErrorKind::IdempotentParameterMismatch,
        Refusal::TooManyTables => ErrorKind::LimitExceeded,
    }
}

/// The text of the refusal.
pub fn message_of(alloc: Global, refusal: &Refusal) -> Result<String, NoMemory>
    ensures { IfOk result (λ text. string_bytes text ≡ message_of refusal.now) }
{
    match refusal {
        Refusal::Invalid(why) => invalid_message(alloc, why),
        Refusal::NoTable(name) => {
            format!(in alloc; "Requested resource not found: Table: {name} not found")
        }
        Refusal::NoIndex(name) => {
            format!(in alloc; "Requested resource not found: Index: {name} not found")
        }
        Refusal::TableExists(name) => format!(in alloc; "Table already exists: {name}"),
        Refusal::TableHeld(name) => {
            format!(in alloc; "A transaction holds an item of table: {name}")
        }
        Refusal::ConditionFailed { .. } => {
            String::from_str(alloc, "The conditional request failed")
        }
        Refusal::Cancelled(reasons) => cancelled_message(alloc, reasons.as_slice()),
        Refusal::Conflict { .. } => String::from_str(alloc, "Transaction is ongoing for the item"),
        Refusal::Mismatch => String::from_str(
            alloc,
            "Parameters differ from those of the earlier call with this token",
        ),
        Refusal::TooManyTables => String::from_str(alloc, "There are 256 tables"),
    }
}

/// The text of what does not fit the tables.
fn invalid_message(alloc: Global, why: &Invalid) -> Result<String, NoMemory>
    ensures { IfOk result (λ text. string_bytes text ≡ invalid_message why.now) }
{
    match why {
        Invalid::Schema(fault) => format!(in alloc; "Table schema is not valid: {fault}"),
        Invalid::Key(fault) => format!(in alloc; "The provided key is not valid: {fault}"),
        Invalid::UpdateOfKey(name) => format!(in alloc; "Update of a key attribute: {name}"),
        Invalid::KeyCondition(fault) => format!(in alloc; "Key condition is not valid: {fault}"),
        Invalid::FilterOfKey(name) => format!(in alloc; "Filter names a key attribute: {name}"),
        Invalid::UnknownIndex(name) => {
            format!(in alloc; "The table does not have the specified index: {name}")
        }
        Invalid::ConsistentIndexRead => String::from_str(
            alloc,
            "Consistent reads are not supported on global secondary indexes",
        ),
        Invalid::NotProjected(name) => format!(in alloc; "Attribute is not projected: {name}"),
        Invalid::Select => String::from_str(alloc, "Select is not valid"),
        Invalid::StartKey => String::from_str(alloc, "The start key is not valid"),
        Invalid::Twice => String::from_str(alloc, "Two operations on one item"),
        Invalid::Evaluation(fault) => eval_message(alloc, *fault),
        Invalid::ItemTooLarge => {
            String::from_str(alloc, "Item size has exceeded the maximum allowed size")
        }
        Invalid::TimeToLive(fault) => ttl_message(alloc, *fault),
    }
}

/// The text of a time to live that a table can't have.
fn ttl_message(alloc: Global, fault: TtlFault) -> Result<String, NoMemory>
    ensures { IfOk result (λ text. string_bytes text ≡ codes "Time to live is not valid: " ++ ttl_fault fault) }
{
    let name = ttl_fault(fault);
    format!(in alloc; "Time to live is not valid: {name}")
}

/// The fault's name.
fn ttl_fault(fault: TtlFault) -> &'static str
    ensures { result.now ≡ ttl_fault fault }
{
    match fault {
        TtlFault::AlreadyEnabled => "AlreadyEnabled",
        TtlFault::AlreadyDisabled => "AlreadyDisabled",
        TtlFault::OtherAttribute => "OtherAttribute",
    }
}

/// The text of a faulty evaluation.
pub(crate) fn eval_message(alloc: Global, fault: EvalFault) -> Result<String, NoMemory>
    ensures { IfOk result (λ text. string_bytes text ≡ codes "Update is not valid: " ++ eval_fault fault) }
{
    let name = eval_fault(fault);
    format!(in alloc; "Update is not valid: {name}")
}

/// The fault's name, and behind it that of the fault inside it.
fn eval_fault(fault: EvalFault) -> &'static str
    ensures { result.now ≡ eval_fault fault }
{
    match fault {
        EvalFault::MissingOperand => "MissingOperand",
        EvalFault::OperandType => "OperandType",
        EvalFault::Number(NumberFault::Grammar) => "Number Grammar",
        EvalFault::Number(NumberFault::TooManyDigits) => "Number TooManyDigits",
        EvalFault::Number(NumberFault::OutOfRange) => "Number OutOfRange",
        EvalFault::BadPath => "BadPath",
        EvalFault::TooDeep => "TooDeep",
        EvalFault::ItemTooLarge => "ItemTooLarge",
        EvalFault::IndexKey => "IndexKey",
    }
}

/// The text of a cancelled transaction, with the code of each part.
fn cancelled_message(alloc: Global, reasons: &[Reason]) -> Result<String, NoMemory>
    ensures { IfOk result (λ text. string_bytes text
        ≡ codes "Transaction cancelled, please refer cancellation reasons for specific reasons [" ++ codes_of reasons.now ++ codes "]") }
{
    let mut text = String::from_str(
        alloc,
        "Transaction cancelled, please refer cancellation reasons for specific reasons [",
    )?;
    push_codes(&mut text, reasons)?;
    text.push_str("]")?;
    Ok(text)
}

/// Adds the codes, with a comma and a space between them.
fn push_codes(text: &mut String, reasons: &[Reason]) -> Result<(), NoMemory>
    ensures { OnOk result (string_bytes text.new ≡ string_bytes text.old ++ codes_of reasons.now) }
{
    let Some((first, others)) = reasons.split_first() else {
        return Ok(());
    };
    text.push_str(code_of(first))?;
    for reason in others {
        text.push_str(", ")?;
        text.push_str(code_of(reason))?;
    }
    Ok(())
}

/// The code of what became of a part of a transaction (API Reference: CancellationReason).
pub(crate) fn code_of(reason: &Reason) -> &'static str
    ensures { result.now ≡ code_of reason.now }
{
    match reason {
        Reason::None => "None",
        Reason::ConditionFalse { .. } => "ConditionalCheckFailed",
        Reason::Held { .. } | Reason::Late { .. } | Reason::Moved { .. } => "TransactionConflict",
        Reason::Invalid(_) => "ValidationError",
    }
}
