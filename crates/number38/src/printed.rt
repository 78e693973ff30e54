//! Numbers written as texts.

ghost use Rattle.std.specs.Prelude.{◌≡◌, ◌+◌, ◌*◌, ◌^◌, ◌<◌, ◌≤◌, ◌/◌, ◌%◌, ◌++◌, ◌∷◌, OnOk, IfOk, string_bytes, decimal, replicate};
ghost use Rattle.number38.specs.Text.{Denotes};
ghost use Rattle.number38.specs.Printed.{printed, whole_text, padded_text, text_with};

use crate::number::Number;
use std::alloc::{AllocError as NoMemory, Global};

/// Adds zeros at the end.
fn push_zeros(text: &mut String, count: u32) -> Result<(), NoMemory>
    ensures { OnOk result (string_bytes text.new ≡ string_bytes text.old ++ replicate count 48) }
{
    for _i in 0..count {
        text.push('0')?;
    }
    Ok(())
}

/// Adds a coefficient in decimal.
fn push_decimal(text: &mut String, n: u128) -> Result<(), NoMemory>
    ensures { OnOk result (string_bytes text.new ≡ string_bytes text.old ++ decimal n) }
{
    write!(text, "{n}")
}

/// The coefficient before and behind a point that has this many digits behind it.
fn split(coefficient: u128, places: u32) -> (u128, u128)
    requires { coefficient < 10 ^ 38 }
    ensures whole { result.0 ≡ coefficient / 10 ^ places }
    ensures fraction { result.1 ≡ coefficient % 10 ^ places }
{
    if places > 38 {
        return (0, coefficient);
    }
    let one = 10u128.pow(places);
    (coefficient / one, coefficient % one)
}

/// Adds a coefficient with a point, behind which so many of its digits stand.
fn push_pointed(text: &mut String, coefficient: u128, places: u32) -> Result<(), NoMemory>
    requires digits { coefficient < 10 ^ 38 }
    requires stripped { 0 < coefficient % 10 }
    requires places { 0 < places }
    ensures { OnOk result (string_bytes text.new ≡ string_bytes text.old
        ++ (whole_text (coefficient / 10 ^ places) ++ 46 ∷ padded_text places (coefficient % 10 ^ places))) }
{
    let (whole, fraction) = split(coefficient, places);
    push_decimal(text, whole)?;
    text.push('.')?;
    push_zeros(text, places - (fraction.ilog10() + 1))?;
    push_decimal(text, fraction)
}

/// Adds the whole number of a coefficient and a power of ten, 10^167 being 1.
fn push_magnitude(text: &mut String, coefficient: u128, power: u32) -> Result<(), NoMemory>
    requires digits { coefficient < 10 ^ 38 }
    requires stripped { 0 < coefficient → 0 < coefficient % 10 }
    requires zero { coefficient ≡ 0 → power ≡ 167 }
    ensures { OnOk result (string_bytes text.new ≡ string_bytes text.old ++ text_with 167 (coefficient * 10 ^ power)) }
{
    if power < 167 {
        return push_pointed(text, coefficient, 167 - power);
    }
    push_decimal(text, coefficient)?;
    push_zeros(text, power - 167)
}

impl Number {
    /// The number as plain decimal: `-` if it is negative, the whole part without leading zeros or `0`, and where there is
    /// a fraction `.` and its digits without trailing zeros. Equal numbers have equal texts.
    pub fn print(&self, alloc: Global) -> Result<String, NoMemory>
        ensures text { IfOk result (λ text. string_bytes text ≡ printed self.now) }
        // What is printed is read as the number again.
        ensures read_back { IfOk result (λ text. Denotes (string_bytes text) self.now) }
    {
        let number = self.scaled();
        let mut text = String::new(alloc);
        if number.negative {
            text.push('-')?;
        }
        push_magnitude(&mut text, number.coefficient, number.power)?;
        Ok(text)
    }
}
