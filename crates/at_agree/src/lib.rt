//! Agreement by one shared account: two to eight processes each propose a value, and all get one of these values as the answer.
//!
//! A council is a ledger of its own book. Each process makes the same four calls: it pays its value into an account of its own,
//! asks for at least half of the shared account, reads what is left there, which names the process whose request came first, and
//! reads that process's value. `propose` makes these calls with one voice, and `agree` with all voices, by threads.
//!
//! The definitions read best in this order: `Council`, the book; `Plan`, the four calls and the value that is chosen; `Voices`;
//! `Agreement`.
#![tactic(auto)]

mod agreement;
mod book;
mod council;
mod crossing;
mod voice;
mod votes;

pub use crate::agreement::{Agreed, agree};
pub use crate::council::Council;
pub use crate::voice::Voice;
