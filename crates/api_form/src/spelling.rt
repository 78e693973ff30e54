//! How texts and the names of maps are spelled.

ghost use Rattle.std.specs.Prelude.{◌≡◌};
ghost use Rattle.api_form.specs.Spellings.{is_word_byte, is_name_byte, list_all, is_table_name, is_placeholder, is_spelled, is_between};

/// What a text, or a name in a map, may be.
#[derive(Clone, Copy)]
pub enum Spelling {
    /// Any text.
    Any,
    /// At least one byte.
    Filled,
    /// The name of a table or an index: 3 to 255 letters, digits, `_`, `.` and `-` (Developer Guide, "Naming rules").
    TableName,
    /// The name of an attribute that a table names: 1 to 255 bytes (API Reference, TimeToLiveSpecification).
    AttributeName,
    /// `#` and one or more letters, digits and `_` (Developer Guide, "Expression attribute names").
    NamePlaceholder,
    /// `:` and one or more letters, digits and `_` (Developer Guide, "Expression attribute values").
    ValuePlaceholder,
    /// 1 to 36 characters (API Reference, TransactWriteItems).
    Token,
}

/// Whether the text is spelled in this way.
pub fn is_spelled(spelling: Spelling, text: &str) -> bool
    ensures { result ≡ is_spelled spelling text.now }
{
    match spelling {
        Spelling::Any => true,
        Spelling::Filled => !text.is_empty(),
        Spelling::TableName => is_table_name(text.as_bytes()),
        Spelling::AttributeName => is_between(1, 255, text.len() as u64),
        Spelling::NamePlaceholder => is_placeholder(b'#', text.as_bytes()),
        Spelling::ValuePlaceholder => is_placeholder(b':', text.as_bytes()),
        Spelling::Token => is_between(1, 36, text.chars().count() as u64),
    }
}

fn is_table_name(bytes: &[u8]) -> bool
    ensures { result ≡ is_table_name bytes.now }
{
    is_between(3, 255, bytes.len() as u64) && are_name_bytes(bytes)
}

fn are_name_bytes(bytes: &[u8]) -> bool
    ensures { result ≡ list_all is_name_byte bytes.now }
{
    for byte in bytes {
        if !is_name_byte(*byte) {
            return false;
        }
    }
    true
}

fn is_placeholder(sign: u8, bytes: &[u8]) -> bool
    ensures { result ≡ is_placeholder sign bytes.now }
{
    match bytes {
        [first, word @ ..] => *first == sign && !word.is_empty() && are_word_bytes(word),
        [] => false,
    }
}

fn are_word_bytes(bytes: &[u8]) -> bool
    ensures { result ≡ list_all is_word_byte bytes.now }
{
    for byte in bytes {
        if !is_word_byte(*byte) {
            return false;
        }
    }
    true
}

fn is_word_byte(byte: u8) -> bool
    ensures { result ≡ is_word_byte byte }
{
    byte.is_ascii_alphanumeric() || byte == b'_'
}

fn is_name_byte(byte: u8) -> bool
    ensures { result ≡ is_name_byte byte }
{
    is_word_byte(byte) || byte == b'.' || byte == b'-'
}

pub fn is_between(least: u64, most: u64, number: u64) -> bool
    ensures { result ≡ is_between least most number }
{
    least <= number && number <= most
}
