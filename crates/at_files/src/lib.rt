//! Book files and payment files: what their bytes spell, or the first fault with its line and cause.
//!
//! `read_book` and `read_payments` accept exactly the forms, and name the first fault of every other file.
#![tactic(auto)]

mod accounts;
mod book;
mod book_fault;
mod calls;
mod csv_records;
mod deliveries;
mod fields;
mod files;
mod first_records;
mod lines;
mod location;
mod messages;
mod name_set;
mod names;
mod owners;
mod payments;
mod payments_fault;
mod record;
mod records;
mod replay_payments;
mod schedule;
mod spelled;

pub use crate::book::read_book;
pub use crate::book_fault::{BadBook, BookWhy, ReadBookFault};
pub use crate::deliveries::{
    BadOrder, DELIVERIES_MAX, Delivery, OrderWhy, ReadOrderFault, read_deliveries,
};
pub use crate::files::count_calls;
pub use crate::location::{Location, location_of};
pub use crate::messages::{BadMessages, MessagesWhy, ReadMessagesFault, read_messages};
pub use crate::names::Names;
pub use crate::payments::read_payments;
pub use crate::payments_fault::{BadPayments, CALLS_MAX, PaymentsWhy, ReadPaymentsFault};
pub use crate::replay_payments::{REPLAY_CALLS_MAX, read_replay_payments};
pub use crate::schedule::{BadSchedule, ReadScheduleFault, ScheduleWhy, TURNS_MAX, read_schedule};
pub use crate::spelled::{BadRecord, ReadFault};
