use crate::reason::Reason;
use crate::stamp::Stamp;
use base_types::{Seq, Text};

/// What is asked of a cell. `K` says which item or which row of an index, `V` what an item or a row
/// holds, `A` is an action on one item, `F` why an action can't be evaluated, `D` a command that
/// changes the catalog, and `Q` a question about it, or about a page of rows.
///
/// A message that has neither a key nor a page names the cell that it goes to, where there are
/// several.
#[derive(Drop)]
pub enum Message<K, V, A, F, D, Q> {
    /// The committed item.
    Get {
        /// Which item.
        key: K,
    },
    /// A single write.
    Write {
        /// What is done to its item.
        action: A,
    },
    /// Carries out an action that removes its item, where the item is there and expired.
    Expire {
        /// What removes its item.
        action: A,
    },
    /// Holds the action's item for a transaction, where the action can be carried out.
    Prepare {
        /// The transaction's number.
        number: u64,
        /// The transaction's stamp.
        stamp: Stamp,
        /// One of the transaction's actions.
        action: A,
    },
    /// Puts the new image of a held item in place.
    Apply {
        /// The number of the transaction that holds the item.
        number: u64,
        /// Which item.
        key: K,
    },
    /// Lets a held item go as it is.
    Release {
        /// The number of the transaction that holds the item.
        number: u64,
        /// Which item.
        key: K,
    },
    /// The committed item with its version, and who holds it.
    ReadVersion {
        /// Which item.
        key: K,
    },
    /// A page of the rows with one partition key, of a table or of an index.
    QueryPage {
        /// Which page: of which table and index, in which range, from where on.
        page: Q,
    },
    /// A page of all rows of a cell, of a table or of an index.
    ScanPage {
        /// Which page: of which table and index, in which places, from where on.
        page: Q,
    },
    /// The keys of a partition's expired items that no transaction holds.
    ExpiredKeys {
        /// Which partition.
        cell: u32,
        /// How many keys at most.
        limit: u32,
    },
    /// The items of a partition that a transaction holds.
    Pendings {
        /// Which partition.
        cell: u32,
    },
    /// The first change in a partition's outbox, which waits for its index.
    PeekOut {
        /// The partition whose outbox it is.
        source: u32,
    },
    /// Carries out a change of an index row.
    ApplyIndex {
        /// The partition in whose outbox the change waits.
        source: u32,
        /// Its number in that outbox.
        sequence: u64,
        /// The index.
        index: u64,
        /// Which row of it.
        row_key: K,
        /// The row afterwards, or none where it is removed.
        after: Option<V>,
    },
    /// Takes a change that was carried out from its outbox.
    Ack {
        /// The partition whose outbox it is.
        source: u32,
        /// The change's number there.
        sequence: u64,
    },
    /// Draws a number for a transaction, or finds the one that its token stands for.
    Begin {
        /// The client's token, if there is one.
        token: Option<Text>,
        /// The transaction's actions, 1 to 100 of them, on items that differ.
        actions: Seq<A>,
    },
    /// Decides a transaction. The first decision stands.
    Decide {
        /// The transaction's number.
        number: u64,
        /// Whether it commits.
        commit: bool,
        /// The reason of each action where it cancels.
        reasons: Seq<Reason<V, F>>,
    },
    /// Tells that each action of a decided transaction was applied or released.
    Done {
        /// The transaction's number.
        number: u64,
    },
    /// Forgets the record of a transaction that is done.
    Forget {
        /// The transaction's number.
        number: u64,
    },
    /// What became of a transaction.
    FateOf {
        /// The transaction's number.
        number: u64,
    },
    /// The record of a transaction.
    Recall {
        /// The transaction's number.
        number: u64,
    },
    /// The numbers that are begun and not done.
    Unfinished,
    /// What the catalog says.
    Ask {
        /// What is asked.
        question: Q,
    },
    /// A change of the catalog, which goes to all cells at once.
    Command {
        /// The change.
        command: D,
    },
}
