//! Where a payment from a shared account stands.

use crate::starting::Starting;
use crate::turning::Turning;
use at_payments::Helping;

/// What the next turn of a payment from a shared account goes on with.
#[derive(Drop)]
pub(crate) enum ShareStage {
    /// The start, until the request waits.
    Start(Starting),
    /// A turn of helping by the request that waits.
    Help(Helping, Turning),
    /// Nothing: the request is settled.
    Ended,
}
