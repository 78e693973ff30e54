//! The number that a value says.
ghost use Rattle.std.specs.Prelude.{◌≡◌};
ghost use Rattle.std.specs.List.{list_all};
ghost use Rattle.std.specs.Char.{is_ascii_digit};
ghost use Rattle.command_words.specs.Settings.{number_of, is_number as number_digits};

/// The number that 1 to 7 decimal digits say. `None` of any other text.
pub(crate) fn number(text: &str) -> Option<u32>
    ensures { result ≡ number_of text.now }
{
    if is_number(text) {
        text.parse().ok()
    } else {
        None
    }
}

/// The text is 1 to 7 decimal digits.
fn is_number(text: &str) -> bool
    ensures { result ≡ number_digits text.now }
{
    if text.is_empty() || 7 < text.len() {
        return false;
    }
    is_of_digits(text.as_bytes())
}

/// Each byte is a decimal digit.
fn is_of_digits(bytes: &[u8]) -> bool
    ensures { result ≡ list_all is_ascii_digit bytes.now }
{
    bytes.iter().all(|byte| byte.is_ascii_digit())
}
