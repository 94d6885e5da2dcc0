//! The message-passing form of the accounts: the core of one process that is given broadcast messages in any order.
//!
//! Each message stands in a log. It is a transfer with the counts of all logs that its sender had validated. A node
//! validates it once it has validated as much, where its log debits the source and the balance there covers the amount.
//! Which messages are validated, and so the balances, depend on the messages alone and not on their order.
#![tactic(auto)]

mod counts;
mod credits;
mod delivered;
mod log_book;
mod message;
mod node;
mod payout;
mod progress;
mod sender;

pub use crate::counts::{LOGS_MAX, LogCounts};
pub use crate::log_book::{LogAccount, LogBook, single_log};
pub use crate::message::{MESSAGES_MAX, Message};
pub use crate::node::Node;
pub use crate::payout::{Payout, credit};
