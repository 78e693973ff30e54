//! Where messages go.

ghost use Rattle.std.specs.Prelude.{◌≡◌, ◌↔◌, ◌≤◌, IsTrue};
ghost use Rattle.txn_core.specs.Legal.{sent_to};
ghost use Rattle.txn_core.specs.Breaks.{IsAt};

use txn_core::{Asked, Message, Rules};

/// The number of the control cell, which comes after the partitions.
fn control<R: Rules>(partitions: u32) -> u32
    ensures { result ≡ (R.protocol partitions).control }
{
    partitions
}

/// The cell that a message goes to, or none for all cells.
pub(crate) fn sent_to<R: Rules>(partitions: u32, message: &Asked<R>) -> Option<u32>
    requires { 1 ≤ partitions }
    ensures { result ≡ sent_to (R.protocol partitions) message.now }
{
    match message {
        Message::Get { key } => Some(R::cell_of(partitions, key)),
        Message::Write { action } => Some(R::cell_of(partitions, R::key_of(action))),
        Message::Expire { action } => Some(R::cell_of(partitions, R::key_of(action))),
        Message::Prepare { action, .. } => Some(R::cell_of(partitions, R::key_of(action))),
        Message::Apply { key, .. } => Some(R::cell_of(partitions, key)),
        Message::Release { key, .. } => Some(R::cell_of(partitions, key)),
        Message::ReadVersion { key } => Some(R::cell_of(partitions, key)),
        Message::QueryPage { page } => Some(R::page_cell(partitions, page)),
        Message::ScanPage { page } => Some(R::page_cell(partitions, page)),
        Message::ExpiredKeys { cell, .. } => Some(*cell),
        Message::Pendings { cell } => Some(*cell),
        Message::PeekOut { source } => Some(*source),
        Message::ApplyIndex { row_key, .. } => Some(R::cell_of(partitions, row_key)),
        Message::Ack { source, .. } => Some(*source),
        Message::Command { .. } => None,
        _ => Some(control::<R>(partitions)),
    }
}

/// Whether both are one cell, where both are cells.
pub(crate) fn is_at(cell: Option<u32>, other: Option<u32>) -> bool
    ensures { IsTrue result ↔ IsAt cell other }
{
    match (cell, other) {
        (Some(one), Some(two)) => one == two,
        _ => true,
    }
}
