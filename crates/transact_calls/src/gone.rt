//! Which table of a transaction is gone.

ghost use Rattle.std.specs.Prelude.{IfOk, IfErr, IfSome};
ghost use Rattle.cell_asks.specs.Steps.{GivesUp};
ghost use Rattle.transact_calls.specs.Ends.{FindsGone, IsGone, IsNameAt};

use base_types::Text;
use cell_asks::{Asks, Got, StepError};
use cell_model::KeyedAction;
use std::alloc::AllocError as NoMemory;

/// The name of the table of the action at a place.
fn name_at(actions: &[KeyedAction], place: Option<u32>) -> Result<Option<Text>, NoMemory>
    ensures { IfOk result (λ name. IfSome name (λ name. IsNameAt actions.now place name)) }
{
    let Some(place) = place else {
        return Ok(None);
    };
    match actions.get(place as usize) {
        Some(action) => Ok(Some(action.statement().table.try_clone()?)),
        None => Ok(None),
    }
}

/// The name of the first table that own Gets of the actions' items find gone. One is; were none, it would be want of memory.
fn find_gone<C: Asks>(
    cells: &C,
    pass: &mut C::Pass,
    actions: &[KeyedAction],
) -> Result<Text, StepError>
    requires fits { C.fits cells.now pass.old }
    ensures ok { IfOk result (λ name. FindsGone (C.count cells.now) (C.seen pass.old) actions.now name (C.seen pass.new)) }
    ensures err { IfErr result (λ why. GivesUp (C.count cells.now) (C.seen pass.old) why (C.seen pass.new)) }
    ensures fits { C.fits cells.now pass.new }
{
    let Some((action, others)) = actions.split_first() else {
        return Err(StepError::NoMemory);
    };
    let key = action.key().try_clone()?;
    match cells.get(pass, key)? {
        Got::Row(_) => find_gone(cells, pass, others),
        Got::Stale => Ok(action.statement().table.try_clone()?),
    }
}

/// The name of a table of the actions that is gone: that of the action at the place, where it is known, and else one that own Gets
/// find gone.
pub(crate) fn gone_name<C: Asks>(
    cells: &C,
    pass: &mut C::Pass,
    actions: &[KeyedAction],
    place: Option<u32>,
) -> Result<Text, StepError>
    requires fits { C.fits cells.now pass.old }
    ensures ok { IfOk result (λ name. IsGone (C.count cells.now) (C.seen pass.old) actions.now place name (C.seen pass.new)) }
    ensures err { IfErr result (λ why. GivesUp (C.count cells.now) (C.seen pass.old) why (C.seen pass.new)) }
    ensures fits { C.fits cells.now pass.new }
{
    match name_at(actions, place)? {
        Some(name) => Ok(name),
        None => find_gone(cells, pass, actions),
    }
}
