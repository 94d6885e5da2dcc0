//! What may go to another thread, and what threads may share.

use crate::board::Board;
use crate::note::BoardNote;
use crate::seat::BoardSeat;

fn is_send<T: Send>() {}

fn is_sync<T: Sync>() {}

/// A board, its seats and its notes may be moved to another thread and shared. A seat that is shared makes no step, since each
/// step takes it by `&mut`.
pub(crate) fn all_cross() {
    is_send::<Board>();
    is_sync::<Board>();
    is_send::<BoardSeat>();
    is_sync::<BoardSeat>();
    is_send::<BoardNote>();
    is_sync::<BoardNote>();
}
