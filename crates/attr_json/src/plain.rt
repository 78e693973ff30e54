//! The texts that numbers and binaries are written as.

ghost use Rattle.std.specs.Prelude.{◌≡◌, IfOk, Ok, string_bytes};
ghost use Rattle.number38.specs.Printed.{printed};
ghost use Rattle.attr_json.specs.Scalars.{number_of, bytes_of};
ghost use Rattle.attr_json.specs.Written.{base64_of};

use base_types::Bytes;
use base64::engine::general_purpose::STANDARD;
use number38::Number;
use std::alloc::{AllocError as NoMemory, Global};

/// The text of a number, which denotes it.
pub(crate) fn number_text(alloc: Global, number: &Number) -> Result<String, NoMemory>
    ensures text { IfOk result (λ text. string_bytes text ≡ printed number.now) }
    ensures read_back { IfOk result (λ text. number_of (printed number.now) ≡ Ok number.now) }
{
    let text = number.print(alloc)?;
    Ok(text)
}

/// The base64 of bytes.
pub(crate) fn base64_text(alloc: Global, bytes: &Bytes) -> Result<String, NoMemory>
    ensures text { IfOk result (λ text. string_bytes text ≡ base64_of bytes.now) }
    ensures read_back { IfOk result (λ text. bytes_of (base64_of bytes.now) ≡ Ok bytes.now) }
{
    STANDARD.encode(alloc, bytes.as_slice())
}
