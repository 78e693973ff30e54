ghost use Rattle.std.specs.Prelude.{IsTrue, ◌↔◌};
ghost use Rattle.table_schema.specs.Name.{IsNameByte, IsTableName, IsAttributeName};

use base_types::Text;

/// Whether a table or an index may have this name.
pub fn is_table_name(name: &Text) -> bool
    ensures { IsTrue result ↔ IsTableName name.now }
{
    let bytes = name.as_str().as_bytes();
    matches!(bytes.len(), 3..=255) && bytes.iter().all(|byte| is_name_byte(*byte))
}

fn is_name_byte(byte: u8) -> bool
    ensures { IsTrue result ↔ IsNameByte byte }
{
    byte.is_ascii_alphanumeric() || matches!(byte, b'_' | b'.' | b'-')
}

/// Whether a key attribute may have this name.
pub fn is_attribute_name(name: &Text) -> bool
    ensures { IsTrue result ↔ IsAttributeName name.now }
{
    matches!(name.len(), 1..=255)
}
