//! The object inside a program in C: one export for each thing that a program does with a ledger.
//!
//! `bezglami_open` makes a ledger for the book that bytes spell, and `bezglami_caller` hands out the caller of the next process. A call
//! is made by a caller, in any thread, by one thread at a time. None waits for another, and none takes memory. `bezglami_return` gives a
//! caller back, and once all are back `bezglami_close` makes the report. A handle is a pointer to what only the library reads; null
//! stands for a handle that holds nothing.
#![tactic(auto)]

mod balances;
mod caller;
mod calls;
mod closing;
mod crossing;
mod ended;
mod ending;
mod exports;
mod gathered;
mod given;
mod handing;
mod handle;
mod held;
mod loose;
mod notes;
mod opened;
mod outcome;
mod shared;
mod target;
mod why;
