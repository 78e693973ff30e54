//! Sums and differences.
//!
//! The coefficient of the greater power of ten gets as many zeros as the powers differ by, so that both stand at the smaller
//! power. Two numbers are far apart where it would then reach twice the limit of a coefficient, 2 * 10^38. That is decided
//! without computing it where the powers differ by more than 38, and by a checked product else. The sum or difference of
//! such two is at least 10^38 and ends in the last digit of the smaller one, which is no zero: it has more than 38 digits.
//! Otherwise the sum stays below 3 * 10^38, and 128 bits hold it.

ghost use Rattle.std.specs.Prelude.{◌≡◌, ◌+◌, ◌*◌, ◌^◌, ◌<◌, ◌≤◌, ◌%◌, ◌+ℤ◌, ◌-ℤ◌};
ghost use Rattle.number38.specs.Number.{fitted, signed};
ghost use Rattle.number38.specs.Scaled.{whole};

use crate::number::{Number, NumberFault};
use crate::scaled::{Scaled, widened};

/// The sum of two coefficients with their signs.
fn signed_sum(a_negative: bool, a: u128, b_negative: bool, b: u128) -> (bool, u128)
    requires { a + b < 2 ^ 128 }
    ensures { signed result.0 result.1 ≡ signed a_negative a +ℤ signed b_negative b }
{
    if a_negative == b_negative {
        (a_negative, a + b)
    } else if b <= a {
        (a_negative, a - b)
    } else {
        (b_negative, b - a)
    }
}

/// The sum of two whole numbers, the first of which has the greater power of ten or the same.
fn aligned_sum(high: Scaled, low: Scaled) -> Result<Number, NumberFault>
    requires order { low.power ≤ high.power }
    requires room { high.power < 293 }
    requires high_digits { high.coefficient < 10 ^ 38 }
    requires low_digits { low.coefficient < 10 ^ 38 }
    requires low_stripped { 0 < low.coefficient → 0 < low.coefficient % 10 }
    ensures { result ≡ fitted (whole high +ℤ whole low) }
{
    if low.coefficient == 0 {
        return high.fit();
    }
    match widened(high.coefficient, (high.power - low.power) as u64) {
        None => Err(NumberFault::TooManyDigits),
        Some(wide) => {
            let (negative, coefficient) = signed_sum(
                high.negative,
                wide,
                low.negative,
                low.coefficient,
            );
            let sum = Scaled {
                negative,
                coefficient,
                power: low.power,
            };
            sum.fit()
        }
    }
}

/// The sum of two whole numbers that stand for numbers.
fn sum(a: Scaled, b: Scaled) -> Result<Number, NumberFault>
    requires a_power { a.power < 293 }
    requires b_power { b.power < 293 }
    requires a_digits { a.coefficient < 10 ^ 38 }
    requires b_digits { b.coefficient < 10 ^ 38 }
    requires a_stripped { 0 < a.coefficient → 0 < a.coefficient % 10 }
    requires b_stripped { 0 < b.coefficient → 0 < b.coefficient % 10 }
    ensures { result ≡ fitted (whole a +ℤ whole b) }
{
    if a.power < b.power {
        aligned_sum(b, a)
    } else {
        aligned_sum(a, b)
    }
}

impl Number {
    /// The exact sum. Answers `TooManyDigits` where it has more than 38 significant digits, else `OutOfRange` where its
    /// magnitude is. Takes no memory.
    pub fn add(&self, other: &Number) -> Result<Number, NumberFault>
        ensures { result ≡ fitted (self.now +ℤ other.now) }
    {
        sum(self.scaled(), other.scaled())
    }

    /// The exact difference. Answers `TooManyDigits` where it has more than 38 significant digits, else `OutOfRange` where
    /// its magnitude is. Takes no memory.
    pub fn sub(&self, other: &Number) -> Result<Number, NumberFault>
        ensures { result ≡ fitted (self.now -ℤ other.now) }
    {
        let other = other.scaled();
        let turned = Scaled {
            negative: !other.negative,
            coefficient: other.coefficient,
            power: other.power,
        };
        sum(self.scaled(), turned)
    }
}
