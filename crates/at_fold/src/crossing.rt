//! What may go to another thread.

use crate::totals::Totals;

fn is_send<T: Send>() {}

/// Totals are moved between threads.
pub(crate) fn all_cross() {
    is_send::<Totals>();
}
