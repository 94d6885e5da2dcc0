//! What may go to another thread.

use crate::caller::Caller;
use crate::handle::Handle;
use crate::held::Held;
use crate::opened::Opened;

fn is_send<T: Send>() {}

/// A handle is moved to another thread, with what it holds.
pub(crate) fn all_cross() {
    is_send::<Caller>();
    is_send::<Opened>();
    is_send::<Held>();
    is_send::<Handle>();
}
