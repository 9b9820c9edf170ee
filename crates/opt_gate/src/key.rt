use std::snapshot::Snapshot;

/// What a gate is made with: its core, and how many passes there may be.
#[derive(Drop)]
pub struct Key<C> {
    pub core: Snapshot<C>,
    pub passes: u64,
}
