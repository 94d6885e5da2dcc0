//! What may go to another thread.

use crate::job::Job;

fn is_send<T: Send>() {}

/// A job is moved to the thread that runs it.
pub(crate) fn all_cross() {
    is_send::<Job>();
}
