//! What is so of the reply to any request. The function does nothing: its clauses are laws.

ghost use Rattle.std.specs.Prelude.{ℕ};
ghost use Rattle.request_calls.specs.Complete.{CancelsAreReasoned, RepliesAreComplete};

/// [Completeness]. In a legal history, the reply that a try came to is one of the tables at points inside the call: what every
/// sequential database says that has what had happened by then, be it the request's Ok or a refusal of its own. Or an entry met
/// what is no fault of the request. Of DeleteTable, UpdateTable, a single write and BatchWriteItem that is an own entry that found
/// a table gone, or what a transaction holds. Of TransactGetItems it is the same, or two own reads that found two versions of an
/// item. Of TransactWriteItems it is a Prepare of its transaction, whoever drove that, which found a table gone, what another
/// transaction holds, or a stamp that is not earlier. Of every other request nothing stands in the way.
///
/// Where a TransactWriteItems is told that it was cancelled, each reason is what a Prepare of its action was answered, with the
/// cause that was there then, and one is not `None`. A condition that was false, or what could not be evaluated, every sequential
/// database says as well that has the tables at that Prepare. Or own Looks refuse the request.
pub fn replies_are_complete()
    ensures replies { (partitions : ℕ) → RepliesAreComplete partitions }
    ensures reasons { (partitions : ℕ) → CancelsAreReasoned partitions }
{}
