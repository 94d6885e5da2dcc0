//! Where a start in the making stands.

use at_machines::{Asking, CollectingRows, Looking};

/// What a start's next turn goes on with.
#[derive(Drop)]
pub(crate) enum StartStage {
    /// The look.
    Look(Looking),
    /// The stores of the request, until it is announced.
    Ask(Asking),
    /// The loads of the rows.
    Collect(CollectingRows),
}
