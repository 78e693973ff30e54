/// What an action makes of an item, which may be absent. `V` is what an item holds, `F` why an
/// action can't be evaluated.
#[derive(Drop)]
pub enum Outcome<V, F> {
    /// It is carried out.
    New {
        /// The item afterwards, or none.
        item: Option<V>,
    },
    /// Its condition is false.
    Unmet,
    /// It can't be evaluated.
    Fails {
        /// Why.
        fault: F,
    },
}
