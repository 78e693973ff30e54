//! Why the transactions have one serial order: each law is the contract of a function without
//! parameters.
//!
//! They hold of every legal history, for every number of partitions `n`, with nothing assumed of
//! the schedule. What each law says stands in `specs/Laws.antt`, under its name. A history is the
//! list of its entries, the newest first; legal histories are defined in `specs/Legal.antt`, what
//! entries change in `specs/History.antt` and `specs/State.antt`, and the one order, with the
//! tables that it makes, in `specs/Serial.antt`, with no word of cells.
ghost use Rattle.std.specs.Prelude.{ℕ};
ghost use Rattle.txn_core.specs.Laws.{RowsAreShown, ImagesAreTables, NumbersAreDecidedOnce, CommittedStandOnce, ActionsKeepTheirOutcome, HeldIsAccepted, FirstDecisionStands, OthersLeaveTheOrder, WritesAreSerial, ExpirationsAreSerial, CatalogIsSerial, RemovalsLeaveNone, RemovalsAreSingle, StampsRise, GetsAreShown, PointsNeverFall, PointsPassOwn, TokensDrawOnce, LaterBeginsName, TimeEndsLife, CancelEndsLife, StaleBeginsAreReal, RepeatsAreDone, ReadsAreAtOnePoint, HeldIsReal, LateIsReal, MovedIsReal, ReadHoldersAreReal, MovedItemIsReal, CancelsAreReal, BeginningsAllow, RulesAreAll};

use crate::rules::Rules;

/// [Rows are shown]. The committed row of each item is what a reader is shown, and where a
/// committed transaction waits on an item, that transaction holds the item and its new image is the
/// item of the tables.
pub fn rows_are_shown<R: Rules>()
    ensures rows { (n : ℕ) → RowsAreShown (R.protocol n) }
    ensures images { (n : ℕ) → ImagesAreTables (R.protocol n) }
{}

/// [One fate]. Each number is decided at most once: a later Decide doesn't decide. A committed one
/// stands in the one order once and whole, no other one stands there, and at its commit each of its
/// actions does to the tables what it was held for: that is what an accepted Prepare of it made. No
/// message but an accepted Write, an expiration, the Decide that commits and a command that is carried
/// out changes the order or its tables, be it repeated or late.
pub fn one_fate<R: Rules>()
    ensures once { (n : ℕ) → NumbersAreDecidedOnce (R.protocol n) }
    ensures whole { (n : ℕ) → CommittedStandOnce (R.protocol n) }
    ensures accepted { (n : ℕ) → ActionsKeepTheirOutcome (R.protocol n) }
    ensures prepared { (n : ℕ) → HeldIsAccepted (R.protocol n) }
    ensures first { (n : ℕ) → FirstDecisionStands (R.protocol n) }
    ensures others { (n : ℕ) → OthersLeaveTheOrder (R.protocol n) }
{}

/// [Serial], [Tables]. A write is answered by the tables of the one order before it: it found their
/// item and made of it what its action makes, or it names why not. The catalog that the cells hold
/// is that of the one order.
pub fn writes_are_serial<R: Rules>()
    ensures writes { (n : ℕ) → WritesAreSerial (R.protocol n) }
    ensures catalog { (n : ℕ) → CatalogIsSerial (R.protocol n) }
{}

/// [Expired]. An expiration is answered by the tables of the one order before it: it found their
/// item, which was expired at its moment, and its action removes it; it was kept, since there is no
/// such item; or it names why not.
pub fn expirations_are_serial<R: Rules>()
    ensures { (n : ℕ) → ExpirationsAreSerial (R.protocol n) }
{}

/// The write of an item's removal leaves the item absent, in its cell and in the tables, and stands
/// in the one order as any other accepted write does.
pub fn removals_leave_none<R: Rules>()
    ensures gone { (n : ℕ) → RemovalsLeaveNone (R.protocol n) }
    ensures single { (n : ℕ) → RemovalsAreSingle (R.protocol n) }
{}

/// [Timestamp order]. Two transactions of the one order that share an item stand in the order of
/// their stamps.
pub fn timestamp_order<R: Rules>()
    ensures { (n : ℕ) → StampsRise (R.protocol n) }
{}

/// [Reads go forward]. A Get is what a reader is shown before its entry, and the point of the
/// history at which an item is shown is never before the one at which an earlier reader was shown
/// it. After an accepted Write of an item, its expiration, or its Apply, that point is past the entry:
/// who was answered so sees what it wrote.
pub fn reads_go_forward<R: Rules>()
    ensures shown { (n : ℕ) → GetsAreShown (R.protocol n) }
    ensures forward { (n : ℕ) → PointsNeverFall (R.protocol n) }
    ensures own { (n : ℕ) → PointsPassOwn (R.protocol n) }
{}

/// [Token once]. A token lives from the Begin that drew a number for it, while no entry since then
/// ended its life. In it no other number is drawn for the token, so of all its transactions this
/// one alone can stand in the one order, where no number stands twice ([`one_fate`]); and every
/// later Begin with the token that doesn't end its life names that number, or finds a table gone. A
/// Begin after its life draws a new number. A Stale is answered only where the table of an action is
/// gone, and a Repeat names a number that was begun with the same parameters, is committed, and Done.
pub fn token_once<R: Rules>()
    ensures once { (n : ℕ) → TokensDrawOnce (R.protocol n) }
    ensures later { (n : ℕ) → LaterBeginsName (R.protocol n) }
    ensures timed { (n : ℕ) → TimeEndsLife (R.protocol n) }
    ensures cancelled { (n : ℕ) → CancelEndsLife (R.protocol n) }
    ensures stale { (n : ℕ) → StaleBeginsAreReal (R.protocol n) }
    ensures repeated { (n : ℕ) → RepeatsAreDone (R.protocol n) }
{}

/// [One-point reads]. An item that two reads of its version found with one version, the second time
/// unheld, is for both of them the item of the tables at every point between. So two rounds of such
/// reads are the tables at one point: the end of the first round.
pub fn one_point_reads<R: Rules>()
    ensures { (n : ℕ) → ReadsAreAtOnePoint (R.protocol n) }
{}

/// [Real causes]. The number of a Held holds the message's item, and of a Prepare it is another's;
/// of a command it holds an item of its table; the number that a ReadVersion names holds its item.
/// The stamp of a Late is the item's, or where it is
/// absent the floor of its cell, and isn't earlier than the transaction's. Where two reads of an
/// item find two versions, an item of its cell was changed between them, or the catalog; where both
/// found it there, this very item was. So a Decide that cancels names for every action its real cause.
pub fn real_causes<R: Rules>()
    ensures held { (n : ℕ) → HeldIsReal (R.protocol n) }
    ensures late { (n : ℕ) → LateIsReal (R.protocol n) }
    ensures moved { (n : ℕ) → MovedIsReal (R.protocol n) }
    ensures held_read { (n : ℕ) → ReadHoldersAreReal (R.protocol n) }
    ensures moved_item { (n : ℕ) → MovedItemIsReal (R.protocol n) }
    ensures cancelled { (n : ℕ) → CancelsAreReal (R.protocol n) }
{}

/// Who has seen only a beginning of the history may go by it: what may be sent after that beginning
/// may be sent after the whole, so the entry that follows keeps the history legal.
pub fn seen_is_enough<R: Rules>()
    ensures { (n : ℕ) → BeginningsAllow (R.protocol n) }
{}

/// The rules of legal histories, one by one: an entry may come after a history exactly where it
/// keeps the rule of each kind of break. So a list is legal exactly where
/// [`sending_check`](crate::sending_check) finds nothing and each entry keeps the rule of answers.
pub fn rules_one_by_one<R: Rules>()
    ensures { (n : ℕ) → RulesAreAll (R.protocol n) }
{}
