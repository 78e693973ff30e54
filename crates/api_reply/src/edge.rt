//! What people are told of a message that is refused before the tables are looked at.

ghost use Rattle.std.specs.Prelude.{◌≡◌, ◌++◌, IfOk, codes, string_bytes};
ghost use Rattle.api_form.specs.Names.{text_of};
ghost use Rattle.api_reply.specs.Edge.{about, body_message, clause_word, edge_kind, edge_message, legacy_word, parse_message};

use crate::kind::ErrorKind;
use api_form::{Fault, Name};
use expr_words::{Clause, ParseEnd};
use request_parts::{LegacyFault, Refusal};
use std::alloc::{AllocError as NoMemory, Global};

/// The kind of the error.
pub(crate) fn edge_kind(refusal: &Refusal) -> ErrorKind
    ensures { result ≡ edge_kind refusal.now }
{
    match refusal {
        Refusal::UnknownOperation => ErrorKind::UnknownOperation,
        Refusal::Serialization | Refusal::Body(Fault::Kind) => ErrorKind::Serialization,
        _ => ErrorKind::Validation,
    }
}

/// The text of the refusal.
pub(crate) fn edge_message(alloc: Global, refusal: &Refusal) -> Result<String, NoMemory>
    ensures { IfOk result (λ text. string_bytes text ≡ edge_message refusal.now) }
{
    match refusal {
        Refusal::UnknownOperation => String::from_str(alloc, "Unknown operation"),
        Refusal::Serialization => {
            String::from_str(alloc, "Body is not JSON of the expected shape")
        }
        Refusal::Body(why) => body_message(alloc, *why),
        Refusal::Schema(why) => format!(in alloc; "Table schema is not valid: {why}"),
        Refusal::Legacy(why) => legacy_message(alloc, *why),
        Refusal::Expression { member, fault } => expression_message(alloc, *member, fault),
        Refusal::UnusedName(name) => format!(in alloc; "Unused attribute name: {name}"),
        Refusal::UnusedValue(name) => format!(in alloc; "Unused attribute value: {name}"),
    }
}

/// The text of a body's fault.
fn body_message(alloc: Global, why: Fault) -> Result<String, NoMemory>
    ensures { IfOk result (λ text. string_bytes text ≡ body_message why) }
{
    match why {
        Fault::Kind => String::from_str(alloc, "Body is not JSON of the expected shape"),
        Fault::Missing(member) => named(alloc, "Member is missing: ", member),
        Fault::OutOfRange(member) => named(alloc, "Member is out of range: ", member),
        Fault::BadValue(why) => format!(in alloc; "Attribute value is not valid: {why}"),
        Fault::Select => String::from_str(alloc, "Select is not valid"),
    }
}

/// The text of a fault of legacy members.
fn legacy_message(alloc: Global, why: LegacyFault) -> Result<String, NoMemory>
    ensures { IfOk result (λ text. string_bytes text ≡ codes "Legacy member is not valid: " ++ legacy_word why) }
{
    let word = legacy_word(why);
    format!(in alloc; "Legacy member is not valid: {word}")
}

/// The name of a fault of legacy members.
fn legacy_word(why: LegacyFault) -> &'static str
    ensures { result.now ≡ legacy_word why }
{
    match why {
        LegacyFault::Mixed => "Mixed",
        LegacyFault::BadOperator => "BadOperator",
        LegacyFault::BadCount => "BadCount",
        LegacyFault::TwoForms => "TwoForms",
        LegacyFault::NoAttributes => "NoAttributes",
    }
}

/// A text that ends with the name of a member.
fn named(alloc: Global, text: &str, member: Name) -> Result<String, NoMemory>
    ensures { IfOk result (λ all. string_bytes all ≡ text.now ++ text_of member) }
{
    let mut all = String::from_str(alloc, text)?;
    all.push_str(member.text())?;
    Ok(all)
}

/// The text of an expression that is refused.
fn expression_message(alloc: Global, member: Name, why: &ParseEnd) -> Result<String, NoMemory>
    ensures { IfOk result (λ text. string_bytes text ≡ about member ++ parse_message why.now) }
{
    let mut text = about(alloc, member)?;
    text.push_str(parse_message(alloc, why)?.as_str())?;
    Ok(text)
}

/// Which expression is refused.
fn about(alloc: Global, member: Name) -> Result<String, NoMemory>
    ensures { IfOk result (λ text. string_bytes text ≡ about member) }
{
    let member = member.text();
    format!(in alloc; "Invalid {member}: ")
}

/// What is wrong with an expression.
fn parse_message(alloc: Global, why: &ParseEnd) -> Result<String, NoMemory>
    ensures { IfOk result (λ text. string_bytes text ≡ parse_message why.now) }
{
    match why {
        ParseEnd::Syntax { place } => format!(in alloc; "syntax error at byte {place}"),
        ParseEnd::UndefinedName { name } => format!(in alloc; "undefined attribute name: {name}"),
        ParseEnd::UndefinedValue { name } => format!(in alloc; "undefined attribute value: {name}"),
        ParseEnd::TooLong => String::from_str(alloc, "longer than 4096 bytes"),
        ParseEnd::TooManyOperators => String::from_str(alloc, "more than 300 operators"),
        ParseEnd::Overlap => String::from_str(alloc, "two document paths overlap"),
        ParseEnd::ClauseTwice { clause } => {
            let word = clause_word(*clause);
            format!(in alloc; "clause twice: {word}")
        }
        ParseEnd::NoMemory => String::from_str(alloc, "not read"),
    }
}

/// The word of a clause.
fn clause_word(clause: Clause) -> &'static str
    ensures { result.now ≡ clause_word clause }
{
    match clause {
        Clause::Set => "SET",
        Clause::Remove => "REMOVE",
        Clause::Add => "ADD",
        Clause::Delete => "DELETE",
    }
}
