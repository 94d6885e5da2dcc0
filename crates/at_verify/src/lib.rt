//! Tells whether a text is the report of a run: of calls that the sequential ledger answers so, one after another, in
//! which each process makes the calls of its file in order. Of a text that isn't, it tells the first wrong line, and the
//! line that was expected there where one was.
//!
//! Whoever printed the text need not be trusted: `verify` reads the book, the files and the text alone.
#![tactic(auto)]

mod comparing;
mod expecting;
mod place;
mod stepping;
mod verifying;

pub use crate::verifying::{TEXT_MAX, Verdict, verify};
