//! Where a turn of helping in the making stands.

use at_machines::{Deciding, Looking};

/// What the next step of a turn of helping belongs to.
#[derive(Drop)]
pub(crate) enum TurnStage {
    /// The look.
    Look(Looking),
    /// The next round at its cut, until it is decided and published.
    Decide(Deciding),
    /// Nothing: the request was settled at the look's cut.
    Found,
}
