//! A coefficient and a power of ten: what sums and texts are computed with.

ghost use Rattle.std.specs.Prelude.{◌≡◌, ◌+◌, ◌*◌, ◌%◌, ◌^◌, ◌<◌, ◌≤◌, SomeIff};
ghost use Rattle.number38.specs.Scaled.{magnitude, whole};

/// 10^38: a coefficient below it has at most 38 digits.
pub const COEFFICIENT_LIMIT: u128 = 100_000_000_000_000_000_000_000_000_000_000_000_000;

/// Twice the limit of a coefficient: from here on no coefficient makes a sum or a difference short again.
pub const FAR: u128 = 200_000_000_000_000_000_000_000_000_000_000_000_000;

/// The whole number `coefficient * 10^power`, with a sign. It is a number's value times 10^167.
#[derive(Clone, Copy)]
pub struct Scaled {
    pub negative: bool,
    pub coefficient: u128,
    pub power: u32,
}

impl Scaled {
    /// The same whole number, whose coefficient ends in no zero.
    pub fn stripped(self) -> Scaled
        requires some { 0 < self.coefficient }
        requires room { self.power < 1000 }
        ensures same { magnitude result ≡ magnitude self }
        ensures sign { result.negative ≡ self.negative }
        ensures stripped { 0 < result.coefficient % 10 }
        ensures shorter { result.coefficient ≤ self.coefficient }
        ensures power { result.power < self.power + 39 }
    {
        let mut coefficient = self.coefficient;
        let mut zeros = 0;
        while coefficient % 10 == 0 {
            coefficient /= 10;
            zeros += 1;
        }
        Scaled {
            negative: self.negative,
            coefficient,
            power: self.power + zeros,
        }
    }
}

/// The coefficient with this many zeros behind it, where that is below twice the limit.
pub fn widened(coefficient: u128, zeros: u64) -> Option<u128>
    ensures { SomeIff result (coefficient * 10 ^ zeros < FAR) (coefficient * 10 ^ zeros) }
{
    if coefficient == 0 {
        return Some(0);
    }
    if zeros > 38 {
        return None;
    }
    let wide = coefficient.checked_mul(10u128.pow(zeros as u32))?;
    if wide < FAR { Some(wide) } else { None }
}
