/// Which rule of legal histories an entry breaks.
#[derive(Clone, Copy, PartialEq, Eq, Debug, Drop)]
pub enum BreakKind {
    /// A Begin without 1 to 100 actions on items that differ, or a Prepare or a Decide of a number
    /// that isn't begun, or with another stamp or action than its transaction's.
    NotBegun = 1,
    /// A commit before every action was accepted.
    EarlyCommit = 2,
    /// A cancel whose reasons no Prepare gave.
    CauselessCancel = 3,
    /// An Apply before the commit.
    EarlyApply = 4,
    /// A Release before the cancel.
    EarlyRelease = 5,
    /// A Done before every action was applied or released.
    EarlyDone = 6,
    /// A Forget before the Done, or by another pass than the one that began the transaction.
    EarlyForget = 7,
    /// An answer that the cell doesn't give, a message at another cell than its own, or a moment
    /// before the pass's last.
    WrongAnswer = 8,
    /// An ApplyIndex of a change that no PeekOut showed, or an Ack of one that was never sent to
    /// its index.
    IndexOrder = 9,
    /// A command at one cell, or another message over all cells.
    AllCells = 10,
}
