//! Actions as a token keeps them.

use table_request::TransactAction;

/// An action of a transaction with the number of the table that it named, which tells the table from a later one of its
/// name.
#[derive(PartialEq, Drop)]
pub struct NumberedAction {
    pub table: u64,
    pub action: TransactAction,
}
