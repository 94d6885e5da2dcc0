//! What a closed board leaves.

ghost use Rattle.std.specs.Prelude.{◌≡◌, ◌<◌, length, [], slice_index, slice_index_or};
ghost use Rattle.at_board.specs.Words.Addresses.{record_word, record_width, AreLogStarts};
ghost use Rattle.at_board.specs.Ends.Closing.{records_of};

use crate::addresses::record_index;
use arrayvec::ArrayVec;
use at_ledger::Book;
use atomic_table::Closed;
use std::alloc::Global;
use std::marker::Model;

/// The words of a board that is closed, where they stood. They never change again.
pub struct BoardEnd {
    pub(crate) book: Book,
    pub(crate) log_starts: ArrayVec<u32, 16>,
    pub(crate) table: Closed<(), Global>,
}

impl Model for BoardEnd {
    ghost use Rattle.std.specs.Prelude.{◌≡◌};
    ghost use Rattle.at_board.specs.Prelude.{IsFull, slots_items, slots_len};
    ghost use Rattle.at_board.specs.Ends.Closing.{EndTerms, HasWords, end_of};
    ghost use Rattle.at_board.specs.Words.Addresses.{AreLogStarts};

    ghost Value = { EndTerms };

    ghost view = { λ e. end_of e.book (slots_items e.table.words) };

    ghost invariant = { λ e. HasWords e.book (slots_items e.table.words)
        × AreLogStarts e.book e.log_starts.items
        × IsFull e.table.words × (slots_len e.table.slots ≡ 0) };
}

impl BoardEnd {
    /// How many records a process has published.
    pub fn length(&self, p: u32) -> u32
        requires { p < self.now.book.processes }
        ensures { result ≡ length (records_of self.now p) }
    {
        self.table.word(p as usize) as u32
    }

    /// A word of a published record.
    pub fn record_word(&self, p: u32, i: u32, j: u32) -> u64
        requires process { p < self.now.book.processes }
        requires record { i < length (records_of self.now p) }
        requires word { j < record_width self.now.book }
        ensures { result ≡ slice_index (slice_index_or (records_of self.now p) i []) j }
    {
        self.table
            .word(record_index(&self.book, &self.log_starts, p, i, j))
    }
}

impl Drop for BoardEnd {
    fn drop(self) {
        let BoardEnd {
            book: _,
            log_starts: _,
            table,
        } = self;
        table.free();
    }
}
