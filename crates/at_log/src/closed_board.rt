//! The closing of a closed board.

ghost use Rattle.std.specs.Prelude.{◌≡◌, ℕ, ◌<◌, ◌≤◌, List, [], length, map, slice_index_or};
ghost use Rattle.at_log.specs.Prelude.{vec_capacity, IsBook, publications_of, IsEnd, records_of, SeatTerms};
ghost use Rattle.at_log.specs.ClosingTerms.{log_published};
ghost use Rattle.at_log.specs.Coherent.{Coherent};
ghost use Rattle.at_log.specs.InTime.{KeepsTime};
ghost use Rattle.at_log.specs.Standing.{AllStand, IsEndWith};

use crate::{Closing, Receipt, Record, ended_log};
use at_board::BoardEnd;

/// The closing of a closed board and of the receipts of its processes, those of process 0 first. The records are put into lists
/// that were made before the board was closed, so nothing fails afterwards. Takes no memory.
pub fn closing_of(
    end: &BoardEnd,
    mut rooms: Vec<Vec<Record>>,
    receipts: Vec<Vec<Receipt>>,
) -> Closing
    requires book { IsBook end.now.book }
    requires ended { IsEndWith end.now (map (λ v. v.items) receipts.items) }
    requires rooms { length rooms.items ≡ end.now.book.processes }
    requires empty { (p : ℕ) (d : _) → p < end.now.book.processes
        → (slice_index_or rooms.items p d).items ≡ [] }
    requires room { (p : ℕ) (d : _) → p < end.now.book.processes
        → length (records_of end.now p) ≤ vec_capacity (slice_index_or rooms.items p d) }
    requires receipts { length receipts.items ≡ end.now.book.processes }
    ensures receipts { result.receipts ≡ map (λ v. v.items) receipts.items }
    ensures count { length result.logs ≡ end.now.book.processes }
    ensures coherent { Coherent end.now.book result }
    ensures logs { (seats : List SeatTerms) (ended : IsEnd end.now seats) (p : ℕ)
        → p < end.now.book.processes
        → log_published result p ≡ publications_of p ended.state.published }
    ensures in_time { (seats : List SeatTerms) (ended : IsEnd end.now seats)
        → AllStand end.now.book seats result.receipts → KeepsTime ended.state.published result }
{
    let processes = rooms.len() as u32;
    for p in 0..processes {
        ended_log(end, processes, p, &mut rooms[p as usize]);
    }
    Closing::new(rooms, receipts)
}
