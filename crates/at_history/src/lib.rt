//! Histories of publications: what is true of one list of records and of a board's state as plain data, without words, seats
//! or threads.
//!
//! A process publishes a record for each pay-out that succeeded and for each round of a shared account. All records of all
//! processes form one list. Of a sound state the laws say that every prefix of that list, taken as calls, is a run of the
//! sequential ledger in which each is done, and that publishing a record, announcing a request and deciding a round keep the
//! state sound.
//!
//! The definitions read best in this order. What is published: `Publications`, `Cuts`, `Entries`, `Rounds`, `Balances`,
//! `Moves`. The state of a board and its laws: `BoardState`, `HeldCells`, `Sound`. What a list alone shows: `Histories`.
//!
//! The laws for callers stand in `proofs/Laws`, and what each kind of step changes in `proofs/Steps`.
#![tactic(auto)]

mod cell;
mod publication;
mod request;

pub use crate::cell::Cell;
pub use crate::publication::{Entry, Publication};
pub use crate::request::{Request, SeenRow};
