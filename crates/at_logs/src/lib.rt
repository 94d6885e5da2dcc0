//! Payments over logs: what a node of a book reads and pays.
//!
//! Each process has a log of its own, and each shared account has one more, to which its owners append.
#![tactic(auto)]

mod backlog;
mod checking;
mod compact;
mod credits;
mod entry;
mod logs;
mod node;
mod reading;
mod restoring;
mod rooms;
mod saving;
mod spelling;
mod tail;

pub use crate::entry::{ENTRY_MESSAGES_MAX, Entry, EntryMessage};
pub use crate::logs::logs_of;
pub use crate::node::{Answer, Draft, Node, Told};
pub use crate::reading::read_entry;
pub use crate::saving::SNAPSHOT_VERSION;
pub use crate::spelling::{entry_bytes, hash_of};
pub use crate::tail::ENTRIES_MAX;
