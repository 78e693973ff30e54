//! How index rows and pages follow the tables: each law is the contract of a function without
//! parameters.
//!
//! They hold of every legal history, whatever messages of the feed are repeated, late or left out.
//! What each law says stands in `specs/Indexes.antt`, under its name. What entries make of outboxes,
//! marks and index rows is defined in `specs/Feeding.antt`, over the definitions of the crate
//! [`index_feed`].
ghost use Rattle.std.specs.Prelude.{ℕ};
ghost use Rattle.txn_core.specs.Indexes.{AcksChangeOnce, DrainedIsProjection, EmptyIsEmpty, GoneHasNoRows, IndexPagesAreShown, IndexRowsProject, OthersLeaveProjections, OthersQueueNothing, RepeatsChangeNothing, TablePagesAreShown, WhatWaitsCompletes};

use crate::rules::Rules;

/// [Index rows project]. Each row of an index was its item's projection in the tables at a beginning
/// of the history. An index that is not there has no rows.
pub fn index_rows_project<R: Rules>()
    ensures rows { (n : ℕ) → IndexRowsProject (R.protocol n) }
    ensures gone { (n : ℕ) → GoneHasNoRows (R.protocol n) }
{}

/// [Drained is projection]. Where every outbox is empty and no item waits for an Apply, the rows of
/// each index are the projection of the tables. At any other time, what waits in the outboxes is just
/// what is missing. An outbox that is answered Empty is empty, and only a change of an item or of the
/// catalog queues anything.
pub fn drained_is_projection<R: Rules>()
    ensures drained { (n : ℕ) → DrainedIsProjection (R.protocol n) }
    ensures waits { (n : ℕ) → WhatWaitsCompletes (R.protocol n) }
    ensures empty { (n : ℕ) → EmptyIsEmpty (R.protocol n) }
    ensures others { (n : ℕ) → OthersQueueNothing (R.protocol n) }
{}

/// [Feeds harmless]. An ApplyIndex and an Ack that come again change nothing, however late, and no
/// message of the feed changes what the rows of an index should be.
pub fn feeds_harmless<R: Rules>()
    ensures repeated { (n : ℕ) → RepeatsChangeNothing (R.protocol n) }
    ensures acknowledged { (n : ℕ) → AcksChangeOnce (R.protocol n) }
    ensures others { (n : ℕ) → OthersLeaveProjections (R.protocol n) }
{}

/// A page of a table is made of the items that readers are shown, and a page of an index of its rows:
/// all those of the page's cell, no others, each once and in the order of keys.
pub fn pages_are_shown<R: Rules>()
    ensures table { (n : ℕ) → TablePagesAreShown (R.protocol n) }
    ensures index { (n : ℕ) → IndexPagesAreShown (R.protocol n) }
{}
