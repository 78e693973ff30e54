//! The type of a number, its digits, and numbers from machine words.

ghost use Rattle.std.specs.Prelude.{◌≡◌, ◌+◌, ◌*◌, ◌%◌, ◌^◌, ◌<◌, ◌≤◌, IsTrue, SomeIff, pos, max, unsigned_abs};

use crate::halves::Halves;
use crate::scaled::{COEFFICIENT_LIMIT, Scaled};
use std::hash::{Hash, Hasher};
use std::marker::Model;

/// Why there is no number. Where several faults stand together, the first in this order is answered.
#[derive(Clone, Copy, Debug, PartialEq, Eq)]
pub enum NumberFault {
    /// The text is no numeral.
    Grammar = 1,
    /// More than 38 significant digits.
    TooManyDigits = 2,
    /// A magnitude above 0 that is below 1E-130, or one from 1E126 on.
    OutOfRange = 3,
}

/// An exact decimal number: 0, or one of at most 38 significant digits and of a magnitude from 1E-130 to below 1E126.
///
/// It is kept as `coefficient * 10^exponent` with a sign, in one form: the coefficient ends in no zero, and 0 has the
/// exponent 0 and no sign.
#[derive(Clone, Copy, Debug)]
pub struct Number {
    // Fields lie in this order: with the greatest first, nothing is lost between them.
    coefficient: Halves,
    exponent: i16,
    negative: bool,
}

impl Model for Number {
    ghost use Rattle.std.specs.Prelude.{ℤ};

    ghost Value = { ℤ };

    ghost use Rattle.number38.specs.Number.{whole_of, IsCanonical, canonical};
    ghost use Rattle.number38.specs.NumberLaws.{canonical-whole};

    ghost view = { whole_of };

    ghost invariant = { IsCanonical };

    ghost inverse = { canonical };

    ghost inverse_ok = { canonical-whole };
}

impl Number {
    ghost use Rattle.number38.specs.Digits.{significant_digits};
    ghost use Rattle.number38.specs.Number.{is_in_range};
    ghost use Rattle.number38.specs.Scaled.{magnitude, whole};

    /// 0.
    pub(crate) fn zero() -> Number
        ensures { result ≡ pos 0 }
    {
        Number {
            negative: false,
            coefficient: Halves::of(0),
            exponent: 0,
        }
    }

    /// The whole number that the number is, as a coefficient and a power of ten.
    pub(crate) fn scaled(&self) -> Scaled
        ensures whole { whole result ≡ self.now }
        ensures digits { result.coefficient < 10 ^ 38 }
        ensures stripped { 0 < result.coefficient → 0 < result.coefficient % 10 }
        ensures sign { IsTrue result.negative → 0 < result.coefficient }
        ensures zero { result.coefficient ≡ 0 → result.power ≡ 167 }
        ensures range { 0 < result.coefficient → IsTrue (is_in_range (magnitude result)) }
        ensures power { result.power < 293 }
    {
        Scaled {
            negative: self.negative,
            coefficient: self.coefficient.word(),
            power: (self.exponent + 167) as u32,
        }
    }

    /// How many significant digits the number has, from 1 to 38: zeros at its beginning and at its end do not count, and
    /// 0 has one digit.
    pub fn digits(&self) -> u32
        ensures count { result ≡ max 1 (significant_digits (unsigned_abs self.now)) }
        ensures most { result ≤ 38 }
    {
        let coefficient = self.coefficient.word();
        if coefficient == 0 {
            return 1;
        }
        coefficient.ilog10() + 1
    }
}

impl PartialEq for Number {
    ghost use Rattle.std.proofs.Common.{rules};
    ghost use Rattle.std.specs.Ordering.{int_eq};
    ghost use Rattle.std.specs.Cmp.Rules.{comparing};

    ghost eq = { int_eq };

    ghost laws = { Prim.search (comparing, rules) };

    fn eq(&self, other: &Number) -> bool {
        self.negative == other.negative
            && self.coefficient.word() == other.coefficient.word()
            && self.exponent == other.exponent
    }
}

impl Eq for Number {
    ghost use Rattle.std.proofs.Common.{rules};
    ghost use Rattle.std.specs.Cmp.Rules.{comparing};

    ghost laws = { Prim.search (comparing, rules) };
}

impl Hash for Number {
    ghost use Rattle.number38.specs.Hashed.{hash_writes, hash_writes-same};

    ghost hash_input = { hash_writes };

    ghost respects_eq = { hash_writes-same };

    fn hash<H: Hasher>(&self, state: &mut H) {
        self.negative.hash(state);
        self.coefficient.word().hash(state);
        self.exponent.hash(state);
    }
}

/// The number of a `u64`, each of which is one.
pub fn from_u64(n: u64) -> Number
    ensures { result ≡ pos (n * 10 ^ 167) }
{
    if n == 0 {
        return Number::zero();
    }
    let whole = Scaled {
        negative: false,
        coefficient: u128::from(n),
        power: 167,
    };
    whole.stripped().in_range().unwrap()
}

impl Scaled {
    ghost use Rattle.number38.specs.Number.{is_in_range, fitted};
    ghost use Rattle.number38.specs.Scaled.{magnitude, whole};

    /// The number, where its magnitude is in range.
    pub(crate) fn in_range(self) -> Option<Number>
        requires digits { self.coefficient < 10 ^ 38 }
        requires stripped { 0 < self.coefficient % 10 }
        requires room { self.power < 2000 }
        ensures { SomeIff result (IsTrue (is_in_range (magnitude self))) (whole self) }
    {
        let digits = self.coefficient.ilog10() + 1 + self.power;
        if digits < 38 || 293 < digits {
            return None;
        }
        Some(Number {
            negative: self.negative,
            coefficient: Halves::of(self.coefficient),
            exponent: self.power as i16 - 167,
        })
    }

    /// The number, or the first fault: too many digits, and then a magnitude that is out of range.
    pub(crate) fn fit(self) -> Result<Number, NumberFault>
        requires { self.power < 1000 }
        ensures { result ≡ fitted (whole self) }
    {
        if self.coefficient == 0 {
            return Ok(Number::zero());
        }
        let stripped = self.stripped();
        if stripped.coefficient >= COEFFICIENT_LIMIT {
            return Err(NumberFault::TooManyDigits);
        }
        stripped.in_range().ok_or(NumberFault::OutOfRange)
    }
}
