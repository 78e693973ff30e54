use crate::fate::Fate;
use crate::reason::Reason;
use crate::stamp::Stamp;
use base_types::Seq;

/// An item that a transaction holds.
#[derive(Drop)]
pub struct HeldItem<K> {
    /// Which item.
    pub key: K,
    /// The number of the transaction.
    pub number: u64,
}

/// What a cell answers. `K` says which item or which row of an index, `V` what an item or a row
/// holds, `A` is an action on one item, `F` why an action can't be evaluated, and `B` what is told
/// of the catalog, or a page of rows.
#[derive(Drop)]
pub enum Answer<K, V, A, F, B> {
    /// The item's table is gone; of a Begin, the table of one of its actions; of a page, its table
    /// or its index.
    Stale,
    /// A Get: the committed item.
    Row {
        /// The item, if there is one.
        item: Option<V>,
    },
    /// A Write was accepted.
    Written {
        /// The item before.
        old: Option<V>,
        /// The item afterwards.
        new: Option<V>,
    },
    /// A transaction holds the item, or of a Command, an item of its table.
    Held {
        /// The transaction's number.
        number: u64,
    },
    /// The action's condition is false.
    CondFalse {
        /// The item as it was found.
        old: Option<V>,
    },
    /// The action can't be evaluated on its item.
    Invalid {
        /// Why.
        fault: F,
    },
    /// An Expire: the item was there and expired, and is removed.
    Expired {
        /// The item before.
        old: V,
    },
    /// An Expire: no expired item is there, or its action doesn't remove it.
    Kept,
    /// A Prepare: the item is held for the transaction.
    Accepted,
    /// A Prepare: the item was changed at a stamp that isn't earlier.
    Late {
        /// The item's stamp, or where the item is absent, the floor of its cell.
        stamp: Stamp,
    },
    /// An Apply: the new image is in place.
    Applied,
    /// A Release: the item is let go.
    Released,
    /// The transaction doesn't hold the item, or its record is gone; of an Ack, the change isn't
    /// the outbox's first.
    Nothing,
    /// A ReadVersion.
    Version {
        /// The committed item, if there is one.
        item: Option<V>,
        /// Its version, or that of its cell's last delete.
        version: u64,
        /// The number of the transaction that holds it, if one does.
        held: Option<u64>,
    },
    /// A QueryPage or a ScanPage: the cell's part of the page.
    Part {
        /// The rows, and where to go on.
        told: B,
    },
    /// An ExpiredKeys: the keys of expired items, by the numbers of their tables, those of one table
    /// in the order of keys.
    ExpiredList {
        /// The keys.
        keys: Seq<K>,
    },
    /// A Pendings: the items of the cell that a transaction holds, each once.
    PendingList {
        /// The items, each with who holds it.
        pendings: Seq<HeldItem<K>>,
    },
    /// A PeekOut: the first change in the outbox.
    Out {
        /// Its number in the outbox.
        sequence: u64,
        /// The index that it is for.
        index: u64,
        /// The cell in which the index row lives.
        target: u32,
        /// Which row of the index.
        row_key: K,
        /// The row afterwards, or none where it is removed.
        after: Option<V>,
    },
    /// A PeekOut of an empty outbox.
    Empty,
    /// An ApplyIndex: the row was changed.
    Fed,
    /// An ApplyIndex that was carried out before, or whose index is gone.
    Already,
    /// An Ack: the change has left the outbox.
    Acked,
    /// A Begin: the token stands for a transaction with other actions.
    Mismatch {
        /// That transaction's number.
        number: u64,
    },
    /// A Begin: the token stands for a completed transaction with these actions.
    Repeat {
        /// That transaction's number.
        number: u64,
    },
    /// A Begin: the token stands for a transaction with these actions that isn't completed.
    Running {
        /// That transaction's number.
        number: u64,
    },
    /// A Begin: a number was drawn.
    Begun {
        /// The number.
        number: u64,
        /// The moment of the Begin, with the number.
        stamp: Stamp,
    },
    /// A Decide.
    Decided {
        /// The fate that stands afterwards.
        fate: Fate,
        /// Whether this Decide set it.
        first: bool,
    },
    /// A Done.
    Finished,
    /// A Forget.
    Forgotten,
    /// A FateOf.
    Is {
        /// The fate.
        fate: Fate,
    },
    /// A Recall.
    Known {
        /// The fate.
        fate: Fate,
        /// The stamp.
        stamp: Stamp,
        /// The actions.
        actions: Seq<A>,
        /// The reasons that the decision carried.
        reasons: Seq<Reason<V, F>>,
    },
    /// A Recall of a number that has no record.
    Unknown,
    /// An Unfinished.
    Numbers {
        /// The numbers, ascending.
        numbers: Seq<u64>,
    },
    /// An Ask.
    Told {
        /// What the catalog says.
        told: B,
    },
    /// A Command that changed the catalog.
    Changed {
        /// What is told of it.
        told: B,
    },
    /// A Command that was refused.
    Refused {
        /// Why.
        told: B,
    },
}
