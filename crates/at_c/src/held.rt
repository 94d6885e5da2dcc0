//! What a handle holds.

use crate::caller::Caller;
use crate::ending::Ending;
use crate::opened::Opened;

/// What stands behind a handle.
#[derive(Drop)]
pub enum Held {
    /// Nothing yet.
    Nothing,
    /// A ledger, with the passes that weren't handed out.
    Ledger(Opened),
    /// A caller of a ledger.
    Caller(Caller),
    /// A ledger whose callers are all back.
    Ending(Ending),
}
