//! What a request is refused for.

use attr_value::SharedItem;
use base_types::{Seq, Text};
use item_keys::KeyFault;
use key_condition::RangeFault;
use table_schema::SchemaFault;
use txn_core::Stamp;
use update_eval::EvalFault;

/// Why a request changed nothing (API Reference: Common errors, and each operation's errors).
pub enum Refusal {
    /// ValidationException.
    Invalid(Invalid),
    /// ResourceNotFoundException: no table has this name.
    NoTable(Text),
    /// ResourceNotFoundException: the table has no index of this name.
    NoIndex(Text),
    /// ResourceInUseException: a table has this name.
    TableExists(Text),
    /// ResourceInUseException: a transaction holds an item of the table of this name.
    TableHeld(Text),
    /// ConditionalCheckFailedException. The item is shown where that was asked and it is there.
    ConditionFailed { old: Option<SharedItem> },
    /// TransactionCanceledException, with a reason for each action, of which one is not `None`.
    Cancelled(Seq<Reason>),
    /// TransactionConflictException: the transaction of this number holds the item.
    Conflict { number: u64 },
    /// IdempotentParameterMismatchException.
    Mismatch,
    /// LimitExceededException: there are as many tables as there may be.
    TooManyTables,
}

// By hand, so that no crate above proves it again.
impl Drop for Refusal {
    fn drop(self) {
        match self {
            Refusal::Invalid(_)
            | Refusal::NoTable(_)
            | Refusal::NoIndex(_)
            | Refusal::TableExists(_)
            | Refusal::TableHeld(_)
            | Refusal::ConditionFailed { old: _ }
            | Refusal::Cancelled(_)
            | Refusal::Conflict { number: _ }
            | Refusal::Mismatch
            | Refusal::TooManyTables => {}
        }
    }
}

/// Why a request does not fit the tables (ValidationException).
pub enum Invalid {
    /// The schema that the table would have.
    Schema(SchemaFault),
    /// The key of an item, or a key that was sent.
    Key(KeyFault),
    /// An update writes the key attribute of this name.
    UpdateOfKey(Text),
    KeyCondition(RangeFault),
    /// The filter of a Query names this attribute, which is of the key that is queried.
    FilterOfKey(Text),
    /// The table has no index of this name to be read.
    UnknownIndex(Text),
    /// A consistent read of a global index.
    ConsistentIndexRead,
    /// A projection names this attribute, which the global index does not keep.
    NotProjected(Text),
    /// All attributes are asked of a global index that does not keep them.
    Select,
    /// ExclusiveStartKey is no key of what is read.
    StartKey,
    /// Two parts of the request are on one item.
    Twice,
    /// An update, or the item that a write would leave.
    Evaluation(EvalFault),
    /// An item to be put has more than 409,600 bytes.
    ItemTooLarge,
    /// The time to live that a table would have.
    TimeToLive(TtlFault),
}

// By hand, so that no crate above proves it again.
impl Drop for Invalid {
    fn drop(self) {
        match self {
            Invalid::Schema(_)
            | Invalid::Key(_)
            | Invalid::UpdateOfKey(_)
            | Invalid::KeyCondition(_)
            | Invalid::FilterOfKey(_)
            | Invalid::UnknownIndex(_)
            | Invalid::ConsistentIndexRead
            | Invalid::NotProjected(_)
            | Invalid::Select
            | Invalid::StartKey
            | Invalid::Twice
            | Invalid::Evaluation(_)
            | Invalid::ItemTooLarge
            | Invalid::TimeToLive(_) => {}
        }
    }
}

/// Why a table's time to live can't become what is stated (API Reference: UpdateTimeToLive).
#[derive(Clone, Copy, PartialEq, Eq)]
pub enum TtlFault {
    /// It is to be enabled, and is.
    AlreadyEnabled = 1,
    /// It is to be disabled, and is.
    AlreadyDisabled = 2,
    /// It is to be disabled for another attribute than the one by which items expire.
    OtherAttribute = 3,
}

/// What became of one part of a cancelled transaction (API Reference: CancellationReason).
pub enum Reason {
    /// The part was accepted.
    None,
    /// Its condition is false. The item is shown where that was asked.
    ConditionFalse { old: Option<SharedItem> },
    /// The transaction of this number holds the item.
    Held { number: u64 },
    /// A change of the item with this later stamp is there.
    Late { stamp: Stamp },
    /// The item had these versions at the two reads.
    Moved { first: u64, second: u64 },
    /// It has this fault.
    Invalid(EvalFault),
}

// By hand, so that no crate above proves it again.
impl Drop for Reason {
    fn drop(self) {
        match self {
            Reason::None
            | Reason::ConditionFalse { old: _ }
            | Reason::Held { number: _ }
            | Reason::Late { stamp: _ }
            | Reason::Moved {
                first: _,
                second: _,
            }
            | Reason::Invalid(_) => {}
        }
    }
}
