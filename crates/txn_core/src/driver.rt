//! What the driver of one transaction knows, and that it sends nothing that the protocol forbids.
//!
//! A driver steps through a history that grows by others' entries too, and goes by what it has seen
//! of it. What it knows beside its [`Course`](crate::Course) is defined in `specs/Driver.antt`:
//! that the number was begun, with which stamp and actions; that all that the course was told
//! stands in the history; and a reason for each verdict. These laws say that it knows this at
//! first, after each step that its course asks for, and ever after, and that the step which comes
//! next is then allowed.
ghost use Rattle.std.specs.Prelude.{ℕ};
ghost use Rattle.txn_core.specs.Driver.{BeginningIsKnown, StepsAreKnown, KnowledgeStays, CourseIsAllowed, EndIsKnown, OwnNumberIsKept, ReasonsAreKnown, CourseEnds};

use crate::rules::Rules;

/// A driver knows its number's stamp and actions from the Begin that drew it, or from its recalled
/// record, which also tells the fate.
pub fn beginning_is_known<R: Rules>()
    ensures { (n : ℕ) → BeginningIsKnown (R.protocol n) }
{}

/// After each step that its course asks for, a driver knows all that the course is then told, by
/// the answer: a verdict and its reason, a fate, or that an action had its last message.
pub fn steps_are_known<R: Rules>()
    ensures { (n : ℕ) → StepsAreKnown (R.protocol n) }
{}

/// What a driver knows stays true, whatever others do in between.
pub fn knowledge_stays<R: Rules>()
    ensures { (n : ℕ) → KnowledgeStays (R.protocol n) }
{}

/// A course sends nothing that the protocol forbids: where a driver knows from the history all that
/// its course was told, what the course says next may be sent. A cancel carries the reasons that
/// the driver found, or none where it found a table gone.
pub fn course_is_allowed<R: Rules>()
    ensures { (n : ℕ) → CourseIsAllowed (R.protocol n) }
{}

/// What a driver's end means: a committed transaction stands in the one order once, with its stamp
/// and its actions, and a cancelled one stands nowhere there.
pub fn end_is_known<R: Rules>()
    ensures { (n : ℕ) → EndIsKnown (R.protocol n) }
{}

/// A number that a pass drew has its record until this pass has it forgotten, whatever others do.
/// So until then the pass is told its fate, and its Done is answered Finished.
pub fn own_number_is_kept<R: Rules>()
    ensures { (n : ℕ) → OwnNumberIsKept (R.protocol n) }
{}

/// The reasons of a number's decision are those that the deciding message carried. Its record tells
/// them, and they stay.
pub fn reasons_are_known<R: Rules>()
    ensures { (n : ℕ) → ReasonsAreKnown (R.protocol n) }
{}

/// A course comes to its end: each step that it asks for leaves it fewer moves, at first twice the
/// number of its actions and two more.
pub fn course_ends()
    ensures { CourseEnds }
{}
