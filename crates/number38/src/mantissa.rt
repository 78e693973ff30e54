//! The value of a run of digits, while at most 38 of them count.

ghost use Rattle.std.specs.Prelude.{◌≡◌, ◌+◌, ◌*◌, ◌%◌, ◌^◌, ◌<◌, ◌≤◌, length, min, IfSome, IfNone};
ghost use Rattle.std.specs.Str.Parse.{AllDigits, digits_value, digits_value_after};
ghost use Rattle.number38.specs.Digits.{significant_digits};

use crate::scaled::{COEFFICIENT_LIMIT, widened};

/// A coefficient that ends in no zero, and how many zeros stand behind it.
#[derive(Clone, Copy)]
pub struct Mantissa {
    pub coefficient: u128,
    pub zeros: u64,
    ghost digits: { coefficient < 10 ^ 38 },
    ghost stripped: { 0 < coefficient → 0 < coefficient % 10 },
}

/// The mantissa of no digits.
pub fn nothing() -> Mantissa
    ensures coefficient { result.coefficient ≡ 0 }
    ensures zeros { result.zeros ≡ 0 }
{
    Mantissa {
        coefficient: 0,
        zeros: 0,
    }
}

impl Mantissa {
    /// One more digit, where at most 38 digits count.
    fn with_digit(self, digit: u8) -> Option<Mantissa>
        requires digit { digit < 10 }
        requires room { self.zeros + 1 < 2 ^ 64 }
        ensures some { IfSome result (λ m. m.coefficient * 10 ^ m.zeros
            ≡ self.coefficient * 10 ^ self.zeros * 10 + digit) }
        ensures zeros { IfSome result (λ m. m.zeros ≤ self.zeros + 1) }
        ensures none { IfNone result (38 < significant_digits (self.coefficient * 10 ^ self.zeros * 10 + digit)) }
    {
        let zeros = self.zeros + 1;
        if digit == 0 {
            return Some(Mantissa {
                coefficient: self.coefficient,
                zeros,
            });
        }
        let coefficient = widened(self.coefficient, zeros)? + digit as u128;
        if coefficient >= COEFFICIENT_LIMIT {
            return None;
        }
        Some(Mantissa {
            coefficient,
            zeros: 0,
        })
    }

    /// More digits, where at most 38 digits count in all.
    pub fn with_digits(self, digits: &[u8]) -> Option<Mantissa>
        requires digits { AllDigits 10 digits.now }
        requires room { self.zeros + length digits.now < 2 ^ 64 }
        ensures some { IfSome result (λ m. m.coefficient * 10 ^ m.zeros
            ≡ digits_value_after 10 (self.coefficient * 10 ^ self.zeros) digits.now) }
        ensures zeros { IfSome result (λ m. m.zeros ≤ self.zeros + length digits.now) }
        ensures none { IfNone result (38 < significant_digits
            (digits_value_after 10 (self.coefficient * 10 ^ self.zeros) digits.now)) }
    {
        let mut so_far = self;
        for digit in digits {
            so_far = so_far.with_digit(*digit - b'0')?;
        }
        Some(so_far)
    }
}

/// The value of digits, and the greatest `u64` for a greater one.
pub fn bounded_value(digits: &[u8]) -> u64
    requires { AllDigits 10 digits.now }
    ensures { result ≡ min (digits_value 10 digits.now) u64.MAX }
{
    let mut value = 0u64;
    for digit in digits {
        value = value
            .saturating_mul(10)
            .saturating_add((*digit - b'0') as u64);
    }
    value
}
