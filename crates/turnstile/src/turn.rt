ghost use Rattle.std.specs.Prelude.{◌≡◌, ◌<◌, length, slice_index_or};

use crate::world::World;

/// The turn of one cell, which lends its value. It can't be dropped: it must be left.
pub struct Turn<W: World> {
    pub(crate) cell: u32,
    pub(crate) number: u64,
    pub(crate) value: W::Cell,
    pub(crate) counted: bool,
}

impl<W: World> Turn<W> {
    ghost use Rattle.std.specs.Borrow.{sem};
    ghost use Rattle.turnstile.specs.Lending.{LendsValue};

    /// The cell's value.
    pub fn cell(&mut self) -> &mut W::Cell
        ensures* writes_back { sem 𝓛 (LendsValue W.row W.Cell.row W.Entry.row self.entry result) }
        ensures value { result.now ≡ self.old.value }
    {
        &mut self.value
    }
}

/// The turns of all cells, which lend their values. They can't be dropped: they must be left.
pub struct AllTurns<W: World> {
    pub(crate) numbers: Vec<u64>,
    pub(crate) values: Vec<W::Cell>,
    pub(crate) counted: bool,
}

impl<W: World> AllTurns<W> {
    ghost use Rattle.std.specs.Borrow.{sem};
    ghost use Rattle.turnstile.specs.LendingOne.{LendsOne};

    /// The value of the cell `i`.
    pub fn cell(&mut self, i: u32) -> &mut W::Cell
        requires { i < length self.old.values.items }
        ensures* writes_back { sem 𝓛 (LendsOne W.row W.Cell.row W.Entry.row self.entry i result) }
        ensures value { result.now ≡ slice_index_or self.old.values.items i result.now }
    {
        &mut self.values[i as usize]
    }
}
