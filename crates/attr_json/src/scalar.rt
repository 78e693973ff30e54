//! What one text, and true or false, state under the name of a type.

ghost use Rattle.std.specs.Prelude.{◌≡◌};
ghost use Rattle.attr_value.specs.View.{tree_of};
ghost use Rattle.attr_json.specs.Answers.{IsAnswer};
ghost use Rattle.attr_json.specs.Scalars.{number_of, bytes_of, text_value, flag_value};

use crate::fault::{JsonEnd, JsonFault};
use attr_value::Value;
use base_types::{Bytes, Text};
use base64::DecodeAllocError;
use base64::engine::general_purpose::STANDARD;
use number38::{Number, parse};
use std::alloc::Global;

/// The number that a text denotes.
pub(crate) fn number_from(text: &str) -> Result<Number, JsonEnd>
    ensures { IsAnswer (λ z. z) (number_of text.now) result }
{
    match parse(text) {
        Ok(number) => Ok(number),
        Err(fault) => Err(JsonEnd::Fault(JsonFault::BadNumber(fault))),
    }
}

/// The bytes of a text in base64.
pub(crate) fn bytes_from(alloc: Global, text: &str) -> Result<Bytes, JsonEnd>
    ensures { IsAnswer (λ b. b) (bytes_of text.now) result }
{
    match STANDARD.decode(alloc, text.as_bytes()) {
        Ok(bytes) => Ok(Bytes::from(bytes)),
        Err(DecodeAllocError::OutOfMemory) => Err(JsonEnd::NoMemory),
        Err(DecodeAllocError::DecodeError(_)) => Err(JsonEnd::Fault(JsonFault::BadBase64)),
    }
}

/// A text under the name of its type.
pub(crate) fn text_value(alloc: Global, name: &str, text: &str) -> Result<Value, JsonEnd>
    ensures { IsAnswer tree_of (text_value name.now text.now) result }
{
    if name == "S" {
        return Ok(Value::S(Text::copied(alloc, text)?));
    }
    if name == "N" {
        return Ok(Value::N(number_from(text)?));
    }
    if name == "B" {
        return Ok(Value::B(bytes_from(alloc, text)?));
    }
    Err(JsonEnd::Fault(JsonFault::UnknownType))
}

/// True or false under the name of its type.
pub(crate) fn flag_value(name: &str, flag: bool) -> Result<Value, JsonEnd>
    ensures { IsAnswer tree_of (flag_value name.now flag) result }
{
    if name == "BOOL" {
        return Ok(Value::Bool(flag));
    }
    if name == "NULL" && flag {
        return Ok(Value::Null);
    }
    Err(JsonEnd::Fault(JsonFault::UnknownType))
}
