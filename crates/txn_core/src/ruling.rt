/// What the catalog says of a command that nothing stands in the way of. `B` is what is told of it.
#[derive(Drop)]
pub enum Ruling<B> {
    /// It is carried out.
    Carries {
        /// What is told.
        told: B,
    },
    /// It is refused, and changes nothing.
    Refuses {
        /// Why.
        told: B,
    },
}
