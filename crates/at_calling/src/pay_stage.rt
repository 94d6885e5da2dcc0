//! Where a payment in the making stands.

use at_machines::{Appending, Looking};

/// What a payment's next turn goes on with.
#[derive(Drop)]
pub(crate) enum PayStage {
    /// The look.
    Look(Looking),
    /// The append of the payment's record, until it is published.
    Append(Appending),
    /// Nothing: the balance didn't cover the payment.
    Short,
}
