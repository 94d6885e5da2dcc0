//! Where the groups of a board's words begin, and how many words there are. The definition is `specs/Words/Addresses.antt`.

ghost use Rattle.std.specs.Prelude.{◌≡◌, ◌+◌, ◌<◌, ◌≤◌, IfOk, length, sum_by, take, ◌^◌};
ghost use Rattle.at_board.specs.Words.Addresses.{IsAddress, index_of, record_word, words_max, word_count, AreLogStarts, AreSlotsBefore};
ghost use Rattle.at_board.specs.Prelude.{slots_of};

use crate::words::{RECORD_WORDS, REQUEST_WORDS};
use arrayvec::ArrayVec;
use at_ledger::Book;
use std::alloc::{AllocError, Global};

/// The index of the first word of each log.
pub(crate) fn log_starts(book: &Book) -> ArrayVec<u32, 16>
    ensures { AreLogStarts book.now result.items }
{
    book.known();
    let mut starts = ArrayVec::new();
    let mut next = book.processes();
    for p in 0..book.processes() {
        starts.push(next);
        next += book.log_room(p) * (RECORD_WORDS + book.processes());
    }
    starts
}

/// The index of a word of a record.
pub(crate) fn record_index(book: &Book, starts: &ArrayVec<u32, 16>, p: u32, i: u32, j: u32) -> usize
    requires place { IsAddress book.now (record_word p i j) }
    requires starts { AreLogStarts book.now starts.now.items }
    ensures { result ≡ index_of book.now (record_word p i j) }
{
    book.known();
    let width = (RECORD_WORDS + book.processes()) as usize;
    starts[p as usize] as usize + i as usize * width + j as usize
}

/// For each account the slots of those before it, and at the end those of all.
pub(crate) fn slots_before(alloc: Global, book: &Book) -> Result<Vec<u32>, AllocError>
    ensures { IfOk result (λ before. AreSlotsBefore book.now before.items) }
{
    let mut before = Vec::new(alloc);
    let mut next = 0;
    for account in 0..book.accounts() {
        before.push(next)?;
        next += book.slot_count(account);
    }
    before.push(next)?;
    Ok(before)
}

/// The words of a board for the book. Beside the records each slot has an announced word, and for each of its requests the
/// request's words and the cell of a round.
pub(crate) fn word_count(book: &Book) -> usize
    ensures count { result ≡ word_count book.now }
    ensures few { result ≤ words_max }
{
    book.known();
    let numbers = book.request_room() as usize;
    let slot = 1 + (REQUEST_WORDS as usize + 1) * numbers;
    records_end(book) + slot_count(book) as usize * slot
}

/// Where the last log ends.
pub(crate) fn records_end(book: &Book) -> usize
    ensures end { result ≡ index_of book.now (record_word book.now.processes 0 0) }
    ensures few { result < 2 ^ 32 }
{
    book.known();
    let mut end = book.processes() as usize;
    for p in 0..book.processes() {
        end += book.log_room(p) as usize * (RECORD_WORDS + book.processes()) as usize;
    }
    end
}

/// The slots of all shared accounts.
fn slot_count(book: &Book) -> u32
    ensures count { result ≡ sum_by slots_of book.now.accounts }
    ensures few { result ≤ 8192 }
{
    let mut slots = 0;
    for account in 0..book.accounts() {
        slots += book.slot_count(account);
    }
    slots
}
