//! Reads and payments. None waits for another call.
//!
//! Each call takes a snapshot and counts the records up to its cut. A read answers the balance there. A payment from an account with
//! one owner tests the balance there, and publishes a record of its own where it is covered: its process alone debits the account,
//! so until that record stands the balance can only grow. Neither makes an exchange.
//!
//! A payment from a shared account asks first: its request is announced, and the last requests of the account's other owners are
//! collected. Then it turns. A turn takes a snapshot, and where the own request is settled at that cut, the call is answered. Else
//! the turn helps: it proposes the oldest request that is unsettled at its cut to the next round, by one exchange, and publishes the
//! round that was decided, whichever request that names. Since all owners decide the oldest request first, few others are decided
//! before the own one, and a call of k owners takes at most k turns. These are the algorithms of "The Consensus Number of a
//! Cryptocurrency" (PODC 2019), with the helping of wait-free objects.
//!
//! The definitions read best in this order: `Standing`, what a call leaves; `Looks`, what it has done before it answers;
//! `HelpingTerms` and `Helpings`, a request that waits; `HelpTurns`, what a turn does; `PaymentTurns`, how a payment turns;
//! `Settling`, where the receipts of its calls stand.
#![tactic(auto)]

mod helping;
mod looks;
mod own_payments;
mod reads;
mod rounds;
mod shared_payments;

pub use crate::helping::{HelpTurn, Helping, answer_in};
pub use crate::looks::{covers, look};
pub use crate::own_payments::pay_single;
pub use crate::reads::read_account;
pub use crate::rounds::record_of_round;
pub use crate::shared_payments::pay_shared;
