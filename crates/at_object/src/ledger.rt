//! The ledger that threads share.

ghost use Rattle.std.specs.Prelude.{◌≡◌, IfOk};
ghost use Rattle.at_object.specs.Prelude.{TableId, AreNew};
ghost use Rattle.at_object.specs.Passes.{AreNewPasses};

use crate::parts::{CallCount, Rest};
use crate::pass::Pass;
use at_board::{Board, BoardSeat};
use at_fold::Totals;
use at_ledger::Book;
use std::alloc::{AllocError, Global};
use std::marker::Model;

/// The asset transfer object of a book. Threads share it by `&Ledger`, and each makes calls with passes of its own.
#[derive(Drop)]
pub struct Ledger {
    pub(crate) board: Board,
}

impl Model for Ledger {
    ghost use Rattle.at_object.specs.Prelude.{BoardTerms};

    ghost Value = { BoardTerms };

    ghost view = { λ l. l.board };
}

impl Ledger {
    /// A ledger for the book, and one pass for each process, in order. Takes the memory of all later calls but `close`.
    pub fn new(alloc: Global, book: &Book) -> Result<(Ledger, Vec<Pass>), AllocError>
        ensures book { IfOk result (λ r. r.0.book ≡ book.now) }
        ensures passes { IfOk result (λ r. AreNewPasses r.0 r.1.items) }
    {
        let (board, seats) = Board::new(alloc, book)?;
        let passes = passes_for(alloc, book, seats)?;
        Ok((Ledger { board }, passes))
    }

    /// The book that the ledger was made for.
    pub fn book(&self) -> &Book
        ensures { result.now ≡ self.now.book }
    {
        self.board.book()
    }

    /// The board that the steps of all calls are made on.
    pub fn board(&self) -> &Board
        ensures { result.now ≡ self.now }
    {
        &self.board
    }
}

/// A pass for each seat of a new board. Takes the memory of its totals.
fn passes_for(alloc: Global, book: &Book, seats: Vec<BoardSeat>) -> Result<Vec<Pass>, AllocError>
    requires { (id : TableId) × AreNew book.now id seats.items }
    ensures { IfOk result (λ passes. (id : TableId) → AreNew book.now id seats.items
        → AreNewPasses (record { id = id; book = book.now }) passes.items) }
{
    let mut passes = Vec::with_capacity(alloc, seats.len())?;
    for seat in seats {
        let totals = Totals::new(alloc, book)?;
        let rest = Rest {
            sent: 0,
            calls: CallCount::new(&seat, &totals),
            totals,
        };
        passes.push(Pass { seat, rest })?;
    }
    Ok(passes)
}
