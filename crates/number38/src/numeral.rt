//! A text taken apart by the grammar of numerals.

ghost use Rattle.std.specs.Prelude.{◌≡◌, ◌≤◌, length, option_map};
ghost use Rattle.std.specs.Char.{is_ascii_digit};
ghost use Rattle.std.specs.List.{prefix_len};
ghost use Rattle.number38.specs.Reading.{digits_at, after_digits, sign_at, fraction_at, exponent_at, pieces, pieces_at};

/// The parts of a numeral.
#[derive(Clone, Copy)]
pub struct Parts<'a> {
    /// Whether a minus stands before the digits.
    pub negative: bool,
    /// The digits before the point.
    pub whole: &'a [u8],
    /// The digits behind the point.
    pub decimals: &'a [u8],
    /// Whether the exponent is negative.
    pub lowers: bool,
    /// The digits of the exponent, none where there is no exponent.
    pub exponent: &'a [u8],
}

/// How many digits stand at the front.
fn digit_count(text: &[u8]) -> usize
    ensures count { result ≡ prefix_len is_ascii_digit text.now }
    ensures bound { result ≤ length text.now }
{
    text.iter().take_while(|c| c.is_ascii_digit()).count()
}

/// The digits at the front, and what follows them.
#[tactic(auto, using(crate::proofs::ReadingLaws::digits_at_front))]
fn digits(text: &[u8]) -> (&[u8], &[u8])
    ensures digits { result.0.now ≡ digits_at text.now }
    ensures rest { result.1.now ≡ after_digits text.now }
{
    text.split_at(digit_count(text))
}

/// Whether a minus stands at the front, and what follows the sign.
fn sign(text: &[u8]) -> (bool, &[u8])
    ensures { (result.0, result.1.now) ≡ sign_at text.now }
{
    match text {
        [b'-', rest @ ..] => (true, rest),
        [b'+', rest @ ..] => (false, rest),
        _ => (false, text),
    }
}

/// The digits behind a point at the front, and what follows them.
fn fraction(text: &[u8]) -> (&[u8], &[u8])
    ensures { (result.0.now, result.1.now) ≡ fraction_at text.now }
{
    match text {
        [b'.', rest @ ..] => digits(rest),
        _ => (&text[..0], text),
    }
}

/// The exponent that is all of the text: whether it is negative, and its digits.
fn exponent(text: &[u8]) -> Option<(bool, &[u8])>
    ensures { option_map (λ e. (e.0, e.1.now)) result ≡ exponent_at text.now }
{
    match text {
        [] => Some((false, text)),
        [b'e' | b'E', rest @ ..] => {
            let (lowers, behind) = sign(rest);
            let (found, rest) = digits(behind);
            if found.is_empty() || !rest.is_empty() {
                return None;
            }
            Some((lowers, behind))
        }
        _ => None,
    }
}

/// The parts of the text, where it is a numeral.
#[tactic(auto, unfolding(crate::specs::Reading::pieces_at))]
pub fn take_apart(text: &[u8]) -> Option<Parts<'_>>
    ensures { option_map pieces result ≡ pieces_at text.now }
{
    let (negative, rest) = sign(text);
    let (whole, rest) = digits(rest);
    let (decimals, rest) = fraction(rest);
    if whole.is_empty() && decimals.is_empty() {
        return None;
    }
    let (lowers, exponent) = exponent(rest)?;
    Some(Parts {
        negative,
        whole,
        decimals,
        lowers,
        exponent,
    })
}
