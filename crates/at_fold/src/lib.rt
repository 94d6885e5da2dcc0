//! Sums over published records: balances, rounds and decisions of the records counted so far.
#![tactic(auto)]

mod account_totals;
mod catch_up;
mod crossing;
mod slot_totals;
mod totals;

pub use crate::totals::Totals;
