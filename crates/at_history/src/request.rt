//! What owners of shared accounts ask for.

use at_ledger::Targets;

/// A pay-out that an owner of a shared account asks for. `since` is the place of the cut that the owner looked at just before:
/// how many publications the cut counts.
#[derive(Drop)]
pub struct Request {
    pub targets: Targets,
    pub since: u32,
}

/// How many requests of a slot were announced when its word was loaded.
#[derive(Drop)]
pub struct SeenRow {
    pub slot: u32,
    pub count: u32,
}
