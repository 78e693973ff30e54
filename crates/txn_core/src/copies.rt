//! Copies of what messages carry.

ghost use Rattle.std.specs.Prelude.{◌≡◌, IfOk};

use crate::rules::Rules;
use base_types::Seq;
use std::alloc::{AllocError as NoMemory, Global};

/// A copy of the actions of a transaction.
pub fn copy_of_actions<R: Rules>(
    alloc: Global,
    actions: &[R::Action],
) -> Result<Seq<R::Action>, NoMemory>
    ensures { IfOk result (λ copies. copies ≡ actions.now) }
{
    let mut copies = Vec::with_capacity(alloc, actions.len())?;
    for action in actions {
        copies.push(R::copy_of_action(alloc, action)?)?;
    }
    Ok(Seq::from(copies))
}
