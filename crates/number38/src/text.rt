//! Texts read as numbers.
//!
//! The text is taken apart by the grammar first. Then its digits are counted and their value computed, and the exponent
//! is looked at last. So the faults come in their order, and no number on the way grows with the text.

ghost use Rattle.std.specs.Prelude.{ℤ, ◌≡◌, ◌+◌, ◌*◌, ◌%◌, ◌^◌, ◌<◌, ◌≤◌, ◌⊎◌, ◌++◌, length, IfSome, IfNone, IsErrOf};
ghost use Rattle.std.specs.Str.Parse.{AllDigits, digits_value};
ghost use Rattle.number38.specs.Digits.{significant_digits};
ghost use Rattle.number38.specs.Text.{Numeral, IsTextOf, IsExactly, denoted, valued};
ghost use Rattle.number38.specs.Reading.{pieces, answer_to, HasDigits};

use crate::mantissa::{Mantissa, bounded_value, nothing};
use crate::number::{Number, NumberFault};
use crate::numeral::{Parts, take_apart};
use crate::scaled::Scaled;

/// The value of the digits before and behind the point, read as one run.
fn mantissa_of(whole: &[u8], decimals: &[u8]) -> Option<Mantissa>
    requires whole { AllDigits 10 whole.now }
    requires decimals { AllDigits 10 decimals.now }
    requires room { length whole.now + length decimals.now < 2 ^ 64 }
    ensures some { IfSome result (λ m. m.coefficient * 10 ^ m.zeros ≡ digits_value 10 (whole.now ++ decimals.now)) }
    ensures zeros { IfSome result (λ m. m.zeros ≤ length whole.now + length decimals.now) }
    ensures none { IfNone result (38 < significant_digits (digits_value 10 (whole.now ++ decimals.now))) }
{
    nothing().with_digits(whole)?.with_digits(decimals)
}

/// The number of a mantissa whose point moves to the right and to the left.
fn placed(negative: bool, mantissa: Mantissa, right: u64, left: u128) -> Result<Number, NumberFault>
    requires { 0 < mantissa.coefficient }
    ensures { result ≡ valued negative (mantissa.coefficient * 10 ^ mantissa.zeros) right left }
{
    match (167 + mantissa.zeros as u128 + right as u128).checked_sub(left) {
        None => Err(NumberFault::OutOfRange),
        Some(power) => {
            if power > 292 {
                return Err(NumberFault::OutOfRange);
            }
            let scaled = Scaled {
                negative,
                coefficient: mantissa.coefficient,
                power: power as u32,
            };
            scaled.in_range().ok_or(NumberFault::OutOfRange)
        }
    }
}

/// The number that the parts of a numeral denote.
fn number_of(parts: Parts<'_>) -> Result<Number, NumberFault>
    requires digits { HasDigits (pieces parts) }
    requires room { length parts.whole.now + length parts.decimals.now < 2 ^ 63 }
    ensures { result ≡ answer_to (pieces parts.entry) }
{
    match mantissa_of(parts.whole, parts.decimals) {
        None => Err(NumberFault::TooManyDigits),
        Some(mantissa) => {
            if mantissa.coefficient == 0 {
                return Ok(Number::zero());
            }
            let places = parts.decimals.len() as u128;
            let moved = bounded_value(parts.exponent);
            if parts.lowers {
                placed(parts.negative, mantissa, 0, places + moved as u128)
            } else {
                placed(parts.negative, mantissa, moved, places)
            }
        }
    }
}

/// The number that a text denotes.
///
/// A numeral is an optional `+` or `-`, digits with at most one `.` before, among or behind them and at least one digit,
/// and optionally `e` or `E`, an optional sign and at least one digit. Zeros at the beginning and at the end of the
/// digits do not count, and a zero is 0 whatever its exponent. Texts and exponents may have any length.
///
/// Answers `Grammar` where the text is no numeral, else `TooManyDigits` for more than 38 significant digits, else
/// `OutOfRange` for a magnitude below 1E-130 or from 1E126 on. Takes no memory.
pub fn parse(text: &str) -> Result<Number, NumberFault>
    ensures value { (n : Numeral) → IsTextOf n text.now → result ≡ denoted n }
    ensures numeral { IsErrOf result NumberFault.Grammar ⊎ ((n : Numeral) × IsTextOf n text.now) }
{
    match take_apart(text.as_bytes()) {
        Some(parts) => number_of(parts),
        None => Err(NumberFault::Grammar),
    }
}

/// No digit of a numeral is lost: where it denotes a number, that number, moved back by the places that the point moved
/// to the left, is the value of the digits moved to the right. So the quotient in `denoted` is exact.
pub fn nothing_is_rounded()
    ensures { (n : Numeral) (z : ℤ) → denoted n ≡ Ok z → IsExactly n z }
{}
