//! The asset transfer object: a ledger that threads share, and a pass for each process that makes calls on it.
//!
//! A payment from an account of one owner takes a snapshot and publishes one record, by loads and stores alone. A payment from a
//! shared account is agreed on by its owners, with at most one exchange for each of them. A read takes a snapshot. No call waits for
//! another thread, and none but `Ledger::new` and `Ledger::close` takes memory. Whatever the threads' steps, all that a pass has seen
//! is one run of the sequential ledger, and what a closed ledger leaves is coherent: its journal is one legal run.
//!
//! The definitions read best in this order: `Passes`, what a pass has seen and which receipts stand with it; `Payments`, what a
//! payment answers and how many steps it takes; `Paid`, how it stands among the publications; `Calls`, the same of any call;
//! `Closings`; `PastCalls`, `CallCounts` and `Parted`. `BoundNumbers` has the bounds of one book as numbers.
#![tactic(auto)]

mod calls;
mod close;
mod closed;
mod crossing;
mod ledger;
mod notes;
mod parts;
mod pass;
mod past;
mod paying;
mod payments;
mod reads;

pub use crate::close::CloseRefused;
pub use crate::closed::Closed;
pub use crate::ledger::Ledger;
pub use crate::notes::{Note, learn_overview};
pub use crate::parts::{CallCount, Rest, sent_after};
pub use crate::pass::Pass;
