//! Copies of what a transaction is begun with.

ghost use Rattle.std.specs.Prelude.{◌≡◌, IfOk};
ghost use Rattle.std.specs.Option.{option_copied};
ghost use Rattle.txn_core.specs.declared.message.Message.{Message};

use base_types::Text;
use std::alloc::{AllocError as NoMemory, Global};
use txn_core::{Asked, Message, Rules, copy_of_actions};

/// A copy of a token, where there is one.
fn copy_of_token(token: Option<&Text>) -> Result<Option<Text>, NoMemory>
    ensures { IfOk result (λ copy. copy ≡ option_copied token.entry) }
{
    match token {
        Some(text) => Ok(Some(text.try_clone()?)),
        None => Ok(None),
    }
}

/// The Begin of a transaction with this token and these actions.
pub(crate) fn begin_message<R: Rules>(
    alloc: Global,
    token: Option<&Text>,
    actions: &[R::Action],
) -> Result<Asked<R>, NoMemory>
    ensures { IfOk result (λ message. message ≡ Message.Begin (option_copied token.entry) actions.now) }
{
    let token = copy_of_token(token)?;
    let actions = copy_of_actions::<R>(alloc, actions)?;
    Ok(Message::Begin { token, actions })
}
