//! Units as a text.

ghost use Rattle.std.specs.Prelude.{◌≡◌, IfOk};
ghost use Rattle.capacity.specs.Units.{units};

use base_types::Text;
use std::alloc::{AllocError as NoMemory, Global};

/// The units that so many halves are, in decimal with one digit behind a point.
pub fn print(alloc: Global, halves: u64) -> Result<Text, NoMemory>
    ensures { IfOk result (λ text. text ≡ units halves) }
{
    let whole = halves / 2;
    let text = if halves % 2 == 0 {
        format!(in alloc; "{whole}.0")?
    } else {
        format!(in alloc; "{whole}.5")?
    };
    Ok(Text::from(text))
}
