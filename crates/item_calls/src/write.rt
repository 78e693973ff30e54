//! What single writes share.

ghost use Rattle.std.specs.Prelude.{◌≡◌, List, reverse, IfOk, IfErr};
ghost use Rattle.table_history.specs.Entries.{TableEvent};
ghost use Rattle.cell_asks.specs.Told.{AreTold};
ghost use Rattle.item_calls.specs.Answers.{WriteStops, WroteAt, fault_told, written_told, write_tried};

use cell_asks::{Asks, Looks, StepError, Tried, Wrote};
use cell_model::KeyedAction;
use expr_parse::Update;
use std::alloc::{AllocError as NoMemory, Global};
use table_items::{Telling, condition_failed, put_fault};
use table_model::{Invalid, Refusal, Reply};
use update_eval::EvalFault;

/// Which texts tell of faults.
#[derive(Clone, Copy)]
pub(crate) enum Faults {
    /// Those of a put: the item's size has a text of its own.
    OfPut,
    OfOther,
}

/// What is told of a write by the answer to it.
#[derive(Drop)]
pub(crate) struct WriteTelling {
    pub(crate) telling: Telling,
    /// What a reply has to know of the update.
    pub(crate) update: Option<Update>,
    pub(crate) faults: Faults,
}

/// Why an action can't be evaluated on its item.
fn fault_told(faults: Faults, fault: EvalFault) -> Invalid
    ensures { result ≡ fault_told faults fault }
{
    match faults {
        Faults::OfPut => put_fault(fault),
        Faults::OfOther => Invalid::Evaluation(fault),
    }
}

/// What a write comes to by the answer to it.
fn tried_write(
    alloc: Global,
    looks: &mut Looks,
    telling: WriteTelling,
    wrote: Wrote,
) -> Result<Tried, NoMemory>
    ensures tried { IfOk result (λ tried. tried ≡ write_tried (written_told telling) wrote) }
    ensures told { (es : List TableEvent) → AreTold es looks.old → AreTold es looks.new }
{
    let WriteTelling {
        telling,
        update,
        faults,
    } = telling;
    match wrote {
        Wrote::Written { old, new } => Ok(Tried::Reply(telling.written(
            alloc,
            update.as_ref(),
            old.as_ref(),
            new.as_ref(),
        )?)),
        Wrote::CondFalse { old } => {
            Ok(Tried::Reply(condition_failed(telling.show_old, old.as_ref())?))
        }
        Wrote::Invalid(fault) => {
            let why = fault_told(faults, fault);
            Ok(Tried::Reply(Reply::Refused(Refusal::Invalid(why))))
        }
        Wrote::Held { number } => Ok(Tried::Reply(Reply::Refused(Refusal::Conflict { number }))),
        Wrote::Stale => {
            looks.forget(alloc);
            Ok(Tried::Again)
        }
    }
}

/// Makes a write, and tells what came of it.
pub(crate) fn write<C: Asks>(
    cells: &C,
    pass: &mut C::Pass,
    looks: &mut Looks,
    action: KeyedAction,
    telling: WriteTelling,
) -> Result<Tried, StepError>
    requires fits { C.fits cells.now pass.old }
    requires told { AreTold (reverse (C.seen pass.old).front) looks.old }
    ensures ok { IfOk result (λ tried. WroteAt (C.count cells.now) (C.seen pass.old) action (written_told telling) tried (C.seen pass.new)) }
    ensures err { IfErr result (λ why. WriteStops (C.count cells.now) (C.seen pass.old) action why (C.seen pass.new)) }
    ensures told { AreTold (reverse (C.seen pass.new).front) looks.new }
    ensures fits { C.fits cells.now pass.new }
{
    let wrote = cells.write(pass, action)?;
    Ok(tried_write(cells.alloc(), looks, telling, wrote)?)
}
