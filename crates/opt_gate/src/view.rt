use opt_core::Ending;
use std::collections::LinkedList;

/// What a pass knows, and how far it has come with its turn. It is for the proofs alone: no value of it is made.
pub struct View<K, F, R> {
    /// What the gate was made with. A pass that was joined into another one has none.
    pub key: Option<K>,
    /// The number of passes that it may become, itself counted.
    pub room: u64,
    pub knows: LinkedList<F>,
    pub ending: Option<Ending<R>>,
    /// Its own commits, with their places.
    pub own: LinkedList<(u64, F)>,
    /// How many times it asked to stop.
    pub stops: u64,
    /// The ticket that it has drawn.
    pub ticket: Option<u64>,
    /// Whether its turn has come.
    pub served: bool,
    /// At a join, what the one of the two passes knew that knew less.
    pub other: LinkedList<F>,
    pub other_ending: Option<Ending<R>>,
}
