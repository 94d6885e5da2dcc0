//! The log of a process of a closed board.

ghost use Rattle.std.specs.Prelude.{◌≡◌, ◌<◌, ◌≤◌, List, [], length, map};
ghost use Rattle.at_log.specs.Prelude.{vec_capacity, IsBook, publications_of, IsEnd, records_of, SeatTerms};
ghost use Rattle.at_log.specs.ClosingTerms.{published_by};
ghost use Rattle.at_log.specs.Ended.{IsEndedEntry, IsEndedView};

use crate::record::Record;
use at_base::Counts;
use at_board::{BoardEnd, Entry, RECORD_WORDS, entry_of};

/// Fills a list with the records of a process of a closed board, in order. Takes no memory: the list has its room from before the
/// board was closed, so nothing fails afterwards.
pub fn ended_log(end: &BoardEnd, processes: u32, p: u32, log: &mut Vec<Record>)
    requires book { IsBook end.now.book }
    requires processes { processes ≡ end.now.book.processes }
    requires process { p < processes }
    requires empty { log.old.items ≡ [] }
    requires room { length (records_of end.now p) ≤ vec_capacity log.old }
    requires published { (seats : List SeatTerms) × IsEnd end.now seats }
    ensures { (seats : List SeatTerms) (ended : IsEnd end.now seats)
        → map (published_by p) log.new.items ≡ publications_of p ended.state.published }
{
    for i in 0..end.length(p) {
        let entry = ended_entry(end, p, i);
        let view = ended_view(end, processes, p, i);
        log.push_reserved(Record { entry, view });
    }
}

/// The entry of a record.
fn ended_entry(end: &BoardEnd, p: u32, i: u32) -> Entry
    requires process { p < end.now.book.processes }
    requires record { i < length (records_of end.now p) }
    ensures { IsEndedEntry end.now p i result }
{
    let mut words = [0u64; RECORD_WORDS as usize];
    for j in 0..RECORD_WORDS {
        words[j as usize] = end.record_word(p, i, j);
    }
    entry_of(words)
}

/// The view of a record.
fn ended_view(end: &BoardEnd, processes: u32, p: u32, i: u32) -> Counts
    requires book { IsBook end.now.book }
    requires processes { processes ≡ end.now.book.processes }
    requires process { p < processes }
    requires record { i < length (records_of end.now p) }
    requires published { (seats : List SeatTerms) × IsEnd end.now seats }
    ensures { IsEndedView end.now p i result }
{
    let mut view = Counts::zeros(processes);
    for q in 0..processes {
        let count = end.record_word(p, i, RECORD_WORDS + q);
        view.set(q, count as u32);
    }
    view
}
