/// What became of a transaction.
#[derive(Clone, Copy, PartialEq, Eq, Debug, Drop)]
pub enum Fate {
    /// It was begun and not decided yet.
    Undecided,
    /// All its actions take effect together.
    Committed,
    /// None of its actions takes effect.
    Cancelled,
    /// Its record was forgotten, after it was finished.
    Gone,
}
