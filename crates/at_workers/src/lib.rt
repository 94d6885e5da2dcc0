//! Jobs: the calls of each process, made by threads on one ledger.
//!
//! A job holds a pass, the calls to make with it, and their receipts, and what each call cost where it is asked to. `run_all` makes the calls of all jobs at once, each job's in
//! order. A gate is told of each call, before and after it.
#![tactic(auto)]

mod cost;
mod crossing;
mod gate;
mod job;
mod play;
mod running;

pub use crate::cost::CallCost;
pub use crate::gate::{Gate, OpenGate};
pub use crate::job::{Job, JobRefused};
pub use crate::running::run_all;
