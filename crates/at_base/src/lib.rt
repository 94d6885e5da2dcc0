//! Numbers as text, short lists of counts, and the packed words of decisions and record heads.
//!
//! Packing and unpacking are inverse, and unpacking refuses exactly what isn't packed. A number is read
//! exactly where its text is the canonical decimal.
#![tactic(auto)]

mod counts;
mod decision;
mod head;
mod numbers;

pub use crate::counts::{COUNTS_MAX, Counts};
pub use crate::decision::{Decision, pack_decision, unpack_decision};
pub use crate::head::{Head, pack_head, unpack_head};
pub use crate::numbers::{parse_number, push_number};
