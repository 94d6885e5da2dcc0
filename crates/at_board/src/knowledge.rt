//! What a seat or a note knows. These types have no values when the program runs: contracts and the rule speak of them.

use at_base::Decision;
use at_history::{Cell, Publication, Request, SeenRow};
use at_ledger::Book;
use std::collections::LinkedList;

/// What a seat or a note has seen, and the parts of the processes that it stands for.
#[derive(Drop)]
pub struct Knowledge {
    /// The book of its board.
    pub book: Book,
    /// The publications seen.
    pub seen: LinkedList<Publication>,
    /// The requests seen.
    pub requests: LinkedList<SeenRequest>,
    /// The decisions seen.
    pub decisions: LinkedList<SeenDecision>,
    /// The process of the first part. The others are of the processes after it.
    pub first: u32,
    /// One part for each of these processes: one in a seat, none in a note.
    pub parts: LinkedList<Part>,
}

/// A request that was announced on an account, by its owner's slot and its number there.
#[derive(Drop)]
pub struct SeenRequest {
    pub account: u32,
    pub slot: u32,
    pub number: u32,
    pub request: Request,
}

/// What was decided in a round of an account.
#[derive(Drop)]
pub struct SeenDecision {
    pub account: u32,
    pub round: u32,
    pub decision: Decision,
}

/// What a process has on the board beside its publications, and what it has loaded.
#[derive(Drop)]
pub struct Part {
    /// How many records it has published.
    pub published: u32,
    /// The words of its next record, 0 where none was stored.
    pub stored: LinkedList<u64>,
    /// The cell that it holds: it has won it, and hasn't published that round with the view that it proposed from.
    pub held: Option<Cell>,
    /// Its loads of each process's length.
    pub loads: LinkedList<Loads>,
    /// What it has on each account.
    pub asking: LinkedList<Asking>,
}

/// How often a length was loaded, and the number that the last load gave.
#[derive(Drop)]
pub struct Loads {
    pub times: u64,
    pub last: u32,
}

/// What a process has on one account.
#[derive(Drop)]
pub struct Asking {
    /// Its announced requests.
    pub announced: LinkedList<Request>,
    /// The words of its next request, 0 where none was stored.
    pub stored: LinkedList<u64>,
    /// How many `decide` steps it has made.
    pub decides: u64,
    /// How many rounds it had seen right after its last announcement.
    pub heard: u32,
    /// Its loads of each process's length up to its last announcement.
    pub loads: LinkedList<Loads>,
    /// The announced words that it has loaded since then, by slot.
    pub rows: LinkedList<SeenRow>,
    /// The words of requests that it has loaded since then.
    pub loaded: LinkedList<LoadedWord>,
}

/// A loaded word of an announced request, by its number there.
#[derive(Drop)]
pub struct LoadedWord {
    pub request: SeenRequest,
    pub word: u32,
}
