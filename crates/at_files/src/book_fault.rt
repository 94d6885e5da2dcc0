//! Why a book file is refused.

use at_ledger::BookError;
use thiserror::Error;

/// The cause of a book file's first fault.
#[derive(Clone, Copy, Debug, PartialEq, Eq, Error)]
pub enum BookWhy {
    /// The second field of the first record is neither `1` nor `2`.
    #[error("version")]
    Version,
    /// The record isn't there, has another number of fields, or begins with another word.
    #[error("shape")]
    Shape,
    /// A field that has to be a number is none.
    #[error("number")]
    Number,
    /// The account's number isn't the next one.
    #[error("account order")]
    AccountOrder,
    /// The record has its form, and the book that it belongs to would break a limit.
    #[error(transparent)]
    Book(BookError),
    /// The bytes are no name.
    #[error("name")]
    Name,
    /// A process before it, or an account before it, has this name.
    #[error("name twice")]
    NameTwice,
    /// No process has this name.
    #[error("unknown owner")]
    UnknownOwner,
}

/// A book file's first fault. A line is the number of a record, from 1.
#[derive(Clone, Copy, Debug, PartialEq, Eq, Error)]
#[error("line {line}: {why}")]
pub struct BadBook {
    pub line: u32,
    pub why: BookWhy,
}

/// Why no book came of a file.
#[derive(Clone, Copy, Debug, PartialEq, Eq, Error)]
pub enum ReadBookFault {
    #[error(transparent)]
    Bad(BadBook),
    #[error("no memory")]
    NoMemory,
}
