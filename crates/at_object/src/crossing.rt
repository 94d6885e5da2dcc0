//! What threads may share, and what may go to another thread.

use crate::closed::Closed;
use crate::ledger::Ledger;
use crate::notes::Note;
use crate::pass::Pass;

fn is_send<T: Send>() {}

fn is_sync<T: Sync>() {}

/// A ledger is shared between threads. Passes and notes are moved, and so are ledgers and closed ones.
pub(crate) fn all_cross() {
    is_sync::<Ledger>();
    is_send::<Ledger>();
    is_send::<Pass>();
    is_send::<Note>();
    is_send::<Closed>();
}
