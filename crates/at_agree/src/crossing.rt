//! What threads may share, and what may go to another thread.

use crate::council::Council;
use crate::voice::Voice;

fn is_send<T: Send>() {}

fn is_sync<T: Sync>() {}

/// A council is shared between threads, and voices are moved.
pub(crate) fn all_cross() {
    is_sync::<Council>();
    is_send::<Council>();
    is_send::<Voice>();
}
