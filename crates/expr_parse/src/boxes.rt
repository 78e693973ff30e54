//! Parts of a tree in places of their own.
#![tactic(auto)]

ghost use Rattle.std.specs.Prelude.{◌≡◌, IfOk, IsOkUnless};

use expr_words::Stop;
use std::alloc::Global;

/// Two parts of a tree, each in a place of its own.
pub(crate) fn boxed_pair<T: Drop>(
    alloc: Global,
    left: T,
    right: T,
) -> Result<(Box<T>, Box<T>), Stop>
    ensures left { IfOk result (λ x. x.0.value ≡ left) }
    ensures right { IfOk result (λ x. x.1.value ≡ right) }
    ensures only_memory { IsOkUnless result Stop.NoMemory }
{
    let left = Box::new(alloc, left)?;
    let right = Box::new(alloc, right)?;
    Ok((left, right))
}
