//! What processes publish.

use at_base::{Counts, Decision};
use at_ledger::Targets;

/// What a record says was done.
#[derive(Drop)]
pub enum Entry {
    /// A pay-out from a single account of the process that publishes it. It succeeded.
    Own {
        from: u32,
        targets: Targets,
    },
    /// A round of a shared account: what was decided in it, and the targets of the request that the decision names.
    Round {
        account: u32,
        round: u32,
        decision: Decision,
        targets: Targets,
    },
}

/// A published record. Its view says of each process how many records stood in the prefix that this one was made at. All earlier
/// ones of its own process are among them.
#[derive(Drop)]
pub struct Publication {
    pub process: u32,
    pub view: Counts,
    pub entry: Entry,
}
