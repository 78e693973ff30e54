/// What cells and entries are, and which histories are legal. A history is a list of entries, the oldest first.
pub trait World {
    ghost use Rattle.std.specs.Prelude.{◌≡◌, ◌<◌, ℕ, List, [], ◌∷◌, ◌++◌, Option};
    ghost use Rattle.turnstile.specs.Histories.{Trail, IsBeginning, SeesAll};

    /// What lies behind a turn. A turn moves it out of its slot and back, so a large one should lie in a box.
    type Cell: Drop;

    /// One event.
    type Entry;

    // The number of the pass that counted the entry.
    ghost by: { Self.Entry → ℕ };

    ghost moment: { Self.Entry → ℕ };

    // The cell of the entry, or None where it is of all cells.
    ghost cell: { Self.Entry → Option ℕ };

    // Of the number of cells, a cell's number, its value, and the entries of that cell.
    ghost stands: { ℕ → ℕ → Self.Cell → List Self.Entry → Type 0 };

    // Of the number of cells and a history.
    ghost legal: { ℕ → List Self.Entry → Type 0 };

    // Of the number of cells, a history and an entry: what a pass may know before it has a turn.
    ghost may: { ℕ → List Self.Entry → Self.Entry → Type 0 };

    // Of the same: what a pass knows of the entry when it has the turn.
    ghost answers: { ℕ → List Self.Entry → Self.Entry → Type 0 };

    ghost starts: { (n : ℕ) → legal n [] };

    // What others add in between takes no leave away.
    ghost may_still: { (n : ℕ) (seen log : List Self.Entry) (e : Self.Entry) → legal n log → Trail by (by e) seen [] log → may n seen e → may n log e };

    ghost goes_on: { (n : ℕ) (log seen : List Self.Entry) (e : Self.Entry) → legal n seen → legal n log → IsBeginning seen log → SeesAll by cell n seen log e → may n log e → answers n seen e → legal n (log ++ e ∷ []) };
}

/// The entry that a call counts, which contracts alone see. The caller picks it at the call.
pub trait EntryOf<W, T> {
    ghost entry: { T };
}
