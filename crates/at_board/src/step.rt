//! What a step does: whether it loads, stores or exchanges, and which word.

/// A word of a board, by what it means.
#[derive(Clone, Copy, Debug, PartialEq, Eq)]
pub enum BoardWord {
    /// The length of a process's log.
    Length {
        process: u32,
    },
    /// A word of a record, by its process and its number among those of the process.
    Record {
        process: u32,
        number: u32,
        word: u32,
    },
    /// The announced word of a slot of an account.
    Announced {
        account: u32,
        slot: u32,
    },
    /// A word of a request, by its account, its slot there and its number among those of the slot.
    Request {
        account: u32,
        slot: u32,
        number: u32,
        word: u32,
    },
    /// The cell of a round of an account.
    Cell {
        account: u32,
        round: u32,
    },
}

/// A step on a word of a board.
#[derive(Clone, Copy, Debug, PartialEq, Eq)]
pub enum BoardStep {
    Load(BoardWord),
    Store(BoardWord),
    Exchange(BoardWord),
}
