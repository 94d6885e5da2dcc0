//! Why there is no answer.

use std::alloc::AllocError;
use thiserror::Error;

/// Why no answer came of the files.
#[derive(Clone, Copy, Debug, PartialEq, Eq, Error)]
pub enum OrdersError {
    /// The orders go through more stages than are walked.
    #[error("too many orders")]
    TooManyOrders,
    #[error("no memory")]
    NoMemory,
}

impl From<AllocError> for OrdersError {
    ghost use Rattle.std.specs.Prelude.{◌≡◌};
    ghost use Rattle.at_orders.specs.declared.error.OrdersError.TheVariants as errors;

    ghost from_gives = { λ _ e. e ≡ errors.NoMemory };

    fn from(_e: AllocError) -> OrdersError {
        OrdersError::NoMemory
    }
}
