//! Records, receipts and closings: what a process publishes, where its calls stand, and what is left at the end.
//!
//! A closing holds the records and the receipts of each process. What a receipt has to say of a list of publications, what makes
//! a closing coherent, and the order of its journal are defined here, for the crates that make closings and for the one that reads
//! them. The receipts of a process *stand with* its seat where they account for all that the process has in what the seat has seen,
//! and the process is between calls. The closing of a closed board and of receipts that stand with its seats is coherent, so its
//! journal is one legal run, whose order keeps the time of the board's list.
//!
//! The definitions of standing read best in this order: `BetweenCalls`, `Standing`, `Left`, `InOrder`.
#![tactic(auto)]

mod append_record;
mod closed_board;
mod closing;
mod ended_words;
mod load_entry_words;
mod load_view_words;
mod receipt;
mod record;

pub use crate::append_record::{append, room};
pub use crate::closed_board::closing_of;
pub use crate::closing::Closing;
pub use crate::ended_words::ended_log;
pub use crate::load_entry_words::load_entry;
pub use crate::load_view_words::load_view;
pub use crate::receipt::{At, Receipt};
pub use crate::record::Record;
pub use at_board::Entry;
