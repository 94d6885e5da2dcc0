//! Why a payment file is refused.

use thiserror::Error;

/// The most calls of one payment file.
pub const CALLS_MAX: u32 = 16_384;

/// The cause of a payment file's first fault.
#[derive(Clone, Copy, Debug, PartialEq, Eq, Error)]
pub enum PaymentsWhy {
    /// The first field is no call's word, or the call has another number of fields.
    #[error("shape")]
    Shape,
    /// A field that has to be a number is none.
    #[error("number")]
    Number,
    /// A field names an account that the book doesn't have.
    #[error("unknown account")]
    UnknownAccount,
    /// The file goes on after the most calls that it may have.
    #[error("too many calls")]
    TooManyCalls,
    /// Its first record names another process than that of the file's place.
    #[error("process")]
    Process,
}

/// A payment file's first fault. A line is the number of a record, from 1.
#[derive(Clone, Copy, Debug, PartialEq, Eq, Error)]
#[error("line {line}: {why}")]
pub struct BadPayments {
    pub line: u32,
    pub why: PaymentsWhy,
}

/// Why no calls came of a file.
#[derive(Clone, Copy, Debug, PartialEq, Eq, Error)]
pub enum ReadPaymentsFault {
    #[error(transparent)]
    Bad(BadPayments),
    #[error("no memory")]
    NoMemory,
}
