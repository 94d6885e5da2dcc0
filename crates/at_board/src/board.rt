//! The board that threads share.

ghost use Rattle.std.specs.Prelude.{◌≡◌, ◌≤◌, IfOk};
ghost use Rattle.at_board.specs.Ends.Opening.{AreNew};
ghost use Rattle.at_board.specs.Words.Addresses.{words_max};

use crate::addresses::word_count;
use crate::deal::deal;
use crate::knowledge::Knowledge;
use crate::layout::Layout;
use crate::rule::BoardRule;
use crate::seat::BoardSeat;
use at_ledger::Book;
use atomic_table::Table;
use std::alloc::{AllocError, Global};
use std::marker::Model;
use std::snapshot::Snapshot;

/// The words that processes share, under one rule. Threads share it by `&Board`.
#[derive(Drop)]
pub struct Board {
    pub(crate) table: Table<(), Knowledge, Snapshot<Book>, BoardRule, Global>,
    pub(crate) layout: Layout,
}

impl Model for Board {
    ghost use Rattle.std.specs.Prelude.{◌≡◌};
    ghost use Rattle.at_board.specs.Prelude.{IsBook};
    ghost use Rattle.at_board.specs.Words.Addresses.{IsLayout, word_count};
    ghost use Rattle.at_board.specs.Knowledge.Seats.{BoardTerms};

    ghost Value = { BoardTerms };

    ghost view = { λ b. record { id = b.table.shared.table_id; book = b.layout.book } };

    ghost invariant = { λ b. (b.table.shared.key.value ≡ b.layout.book)
        × (b.table.shared.table_id.words ≡ word_count b.layout.book) × IsBook b.layout.book
        × IsLayout b.layout × (b.table.shared.table_id.slots ≡ 0) };
}

impl Board {
    /// A board for the book with all words 0, and one seat for each process, in order. Takes time in proportion to the words,
    /// which are 24.6 MB at most; while it is made they stand in memory twice.
    pub fn new(alloc: Global, book: &Book) -> Result<(Board, Vec<BoardSeat>), AllocError>
        ensures book { IfOk result (λ r. r.0.book ≡ book.now) }
        ensures seats { IfOk result (λ r. AreNew book.now r.0.id r.1.items) }
        ensures few { IfOk result (λ r. r.0.id.words ≤ words_max) }
    {
        book.known();
        let words = vec![in alloc; 0u64; word_count(book)]?;
        let (table, first) = Table::of_words(alloc, words.as_slice(), &Snapshot::of(book))?;
        let layout = Layout::of(alloc, book)?;
        let seats = deal(alloc, &table.shared, first, book)?;
        Ok((Board { table, layout }, seats))
    }

    /// The book that the board was made for.
    pub fn book(&self) -> &Book
        ensures { result.now ≡ self.now.book }
    {
        &self.layout.book
    }
}
