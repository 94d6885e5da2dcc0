//! Where each word of a board stands. Beside `addresses.rt` no other module knows how the words lie; the definition is
//! `specs/Words/Addresses.antt`.

ghost use Rattle.std.specs.Prelude.{◌≡◌, ◌≤◌, IfOk, length, sum_by, take};
ghost use Rattle.at_board.specs.Words.Addresses.{IsAddress, IsLayout, announced_of, cell_of, index_of, record_word, request_word};
ghost use Rattle.at_board.specs.Prelude.{slots_of};

use crate::addresses::{log_starts, record_index, records_end, slots_before};
use crate::words::REQUEST_WORDS;
use arrayvec::ArrayVec;
use at_ledger::Book;
use std::alloc::{AllocError, Global};

/// Where the words of a board of this book stand.
#[derive(Drop)]
pub(crate) struct Layout {
    pub(crate) book: Book,
    pub(crate) log_starts: ArrayVec<u32, 16>,
    /// Where the announced words begin.
    pub(crate) slots_start: usize,
    /// How many slots stand before those of each account, and at the end how many there are.
    pub(crate) slots_before: Vec<u32>,
}

impl Layout {
    /// That of a board for the book.
    pub(crate) fn of(alloc: Global, book: &Book) -> Result<Layout, AllocError>
        ensures book { IfOk result (λ l. l.book ≡ book.now) }
        ensures layout { IfOk result IsLayout }
    {
        let copy = book.copy(alloc)?;
        Ok(Layout {
            log_starts: log_starts(book),
            slots_start: records_end(book),
            slots_before: slots_before(alloc, book)?,
            book: copy,
        })
    }

    /// Where a word of a record stands.
    pub(crate) fn record_index(&self, p: u32, i: u32, j: u32) -> usize
        requires layout { IsLayout self.now }
        requires place { IsAddress self.now.book (record_word p i j) }
        ensures index { result ≡ index_of self.now.book (record_word p i j) }
    {
        record_index(&self.book, &self.log_starts, p, i, j)
    }

    /// Where the announced word of a slot stands.
    pub(crate) fn announced_index(&self, account: u32, slot: u32) -> usize
        requires layout { IsLayout self.now }
        requires place { IsAddress self.now.book (announced_of account slot) }
        ensures index { result ≡ index_of self.now.book (announced_of account slot) }
    {
        self.book.known();
        self.slots_start + self.first_slot(account) + slot as usize
    }

    /// Where a word of a request stands.
    pub(crate) fn request_index(&self, account: u32, slot: u32, number: u32, j: u32) -> usize
        requires layout { IsLayout self.now }
        requires place { IsAddress self.now.book (request_word account slot number j) }
        ensures index { result ≡ index_of self.now.book (request_word account slot number j) }
    {
        self.book.known();
        let start = self.slots_start + self.first_slot(self.book.accounts());
        let slots = self.first_slot(account) + slot as usize;
        let requests = slots * self.book.request_room() as usize + number as usize;
        start + requests * REQUEST_WORDS as usize + j as usize
    }

    /// Where the cell of a round stands.
    pub(crate) fn cell_index(&self, account: u32, round: u32) -> usize
        requires layout { IsLayout self.now }
        requires place { IsAddress self.now.book (cell_of account round) }
        ensures index { result ≡ index_of self.now.book (cell_of account round) }
    {
        self.book.known();
        let slots = self.first_slot(self.book.accounts());
        let room = self.book.request_room() as usize;
        self.slots_start
            + slots
            + REQUEST_WORDS as usize * (slots * room)
            + self.first_slot(account) * room
            + round as usize
    }

    /// How many slots the accounts before this one have.
    fn first_slot(&self, account: u32) -> usize
        requires layout { IsLayout self.now }
        requires place { account ≤ length self.now.book.accounts }
        ensures { result ≡ sum_by slots_of (take account self.now.book.accounts) }
    {
        self.slots_before[account as usize] as usize
    }
}
