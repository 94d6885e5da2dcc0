//! Requests and their decisions: asking on a shared account, loading what all its owners have asked there, and proposing which comes
//! next.
//!
//! A request is announced once its words are stored, and never changes after that, so whoever loads its words has it whole. An
//! owner that has asked loads the announced word of each owner, and the last request that each word counts. What it may propose
//! is among these: the request that has waited longest and isn't settled. One exchange decides a round: whoever proposes to it,
//! before or after, is answered the one decision that stands.
#![tactic(auto)]

mod announce_request;
mod asked;
mod load_request_words;
mod load_rows;
mod open_request;
mod propose_round;

pub use crate::announce_request::{ask, request_word};
pub use crate::asked::{Asked, oldest};
pub use crate::load_request_words::{load_request, request_from};
pub use crate::load_rows::collect_rows;
pub use crate::open_request::OpenRequest;
pub use crate::propose_round::propose;
