//! The book of accounts and the sequential ledger over it: who may debit which account, and what each
//! call answers and changes where calls come one after another.
//!
//! A `Book` is made only where every limit holds, and a refusal names the first fault. `State::step`
//! is the ledger's definition, call by call.
#![tactic(auto)]

mod account;
mod book;
mod builder;
mod call;
mod draft;
mod state;
mod targets;

pub use crate::book::Book;
pub use crate::builder::BookBuilder;
pub use crate::call::{Call, Line, Reply};
pub use crate::draft::{
    ACCOUNTS_MAX, BookError, BookFault, Draft, DraftAccount, OWN_ROOM_MAX, OWNERS_MAX,
    PROCESSES_MAX, REQUEST_ROOM_MAX, ROUNDS_MAX,
};
pub use crate::state::State;
pub use crate::targets::{TARGETS_MAX, Targets};
