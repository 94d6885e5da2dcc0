//! What a node has validated that was given some logs: who has a book and the logs of a running ledger validates all of it again.
//!
//! `read_log` reads the file of a log, `follow` has a node read the logs of a book, and `follow_text` prints what it has then.
#![tactic(auto)]

mod following;
mod log_file;
mod log_words;
mod printing;

pub use crate::following::{EntryFault, EntryWhy, Followed, follow};
pub use crate::log_file::{ReadLogFault, read_log};
pub use crate::printing::follow_text;
