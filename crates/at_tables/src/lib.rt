//! What is told of files and runs, as tables and texts. Each call makes the bytes that the definition of its text gives.
//!
//! Of the book and the files alone: `kinds`, what needs agreement, by the kind of each call and the groups of owners; `needs_text`,
//! what the owners of each account ask of it; `orders_text`, the replies of each call in some order of all calls. Of a run: `costs_text`, what each call cost beside its bounds; `ledger`, the
//! journal for hledger and ledger-cli, with an assertion for each read, so that a program that nobody here wrote adds it up;
//! `trace_text`, what each turn of a schedule did. The words of calls, kinds, steps and addresses are there for other texts too.
#![tactic(auto)]

mod addresses;
mod asking;
mod bounds;
mod call_fields;
mod costs_table;
mod counts;
mod entries;
mod groups;
mod kind;
mod kinds_table;
mod ledger_table;
mod needs_table;
mod orders_table;
mod posting;
mod sentence;
mod turns_table;

pub use crate::bounds::{most_exchanges, most_steps};
pub use crate::call_fields::{call_word, kind_word, push_call_fields};
pub use crate::costs_table::costs_text;
pub use crate::kind::{Kind, kind_of};
pub use crate::kinds_table::kinds;
pub use crate::ledger_table::ledger;
pub use crate::needs_table::needs_text;
pub use crate::orders_table::orders_text;
pub use crate::sentence::payments_sentence;
pub use crate::turns_table::{push_step_address, step_word, trace_text};
