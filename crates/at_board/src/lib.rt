//! The board that processes share: one list of publications that no word holds, kept by one rule over single steps.
//!
//! Between any two steps of any threads the words stand for a sound state, and what each seat has seen is a prefix of the one list.
//! A seat keeps between all its steps that every prefix of what it has seen is a run of the sequential ledger, in which each move
//! is done and which ends with the balances of that prefix.
//!
//! The announced requests and the one cell of each round are the registers and the consensus objects that an account of several
//! owners has in "The Consensus Number of a Cryptocurrency" (PODC 2019).
//!
//! What is true of the list and of a state as plain data stands in `at_history`, whose types this crate passes on.
//!
//! The definitions read best in this order. Where the words lie, what they hold, and what they stand for: `Words`. What a seat
//! knows: `Knowledge`, with `Parts` first. How its count of steps rises: `Counting`. The rule: `Rule`. What each call asks and
//! tells: `Steps`, a file for each. How a board begins and ends: `Ends`. `Steps/Made` says of each step that a value names what it
//! tells, and `Steps/Plays` and `Steps/Meetings` tie the steps to the table. `Knowledge/Fresh` and `Knowledge/Overviews` are for the
//! crates above.
#![tactic(auto)]

mod addresses;
mod announce;
mod board;
mod board_end;
mod close;
mod counter;
mod crossing;
mod deal;
mod decide;
mod knowledge;
mod layout;
mod load_announced;
mod load_length;
mod load_record_word;
mod load_request_word;
mod loaded_record_word;
mod meet;
mod note;
mod overview;
mod plays;
mod publish;
mod rule;
mod seat;
mod step;
mod store_record_word;
mod store_request_word;
mod words;

pub use crate::board::Board;
pub use crate::board_end::BoardEnd;
pub use crate::knowledge::{Asking, Knowledge, LoadedWord, Loads, Part, SeenDecision, SeenRequest};
pub use crate::loaded_record_word::LoadedRecordWord;
pub use crate::note::BoardNote;
pub use crate::overview::Overview;
pub use crate::seat::BoardSeat;
pub use crate::step::{BoardStep, BoardWord};
pub use crate::words::{
    RECORD_WORDS, REQUEST_WORDS, entry_of, pack_targets, record_word, targets_from, unpack_targets,
};
pub use at_history::{Cell, Entry, Publication, Request, SeenRow};
