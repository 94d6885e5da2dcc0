//! Closing a ledger, when no thread shares it any more.

ghost use Rattle.std.specs.Prelude.{◌≡◌, ℕ, ◌<◌, ◌≤◌, IfErr, IfOk, [], length, map, slice_index_or, All};
ghost use Rattle.at_object.specs.Prelude.{vec_capacity, own_part, Coherent};
ghost use Rattle.at_object.specs.Closings.{AreAccountedFor, HasAllLogs, KeepsNotes};
ghost use Rattle.at_object.specs.Parted.{HasMemoryFor, IsAtRest};
ghost use Rattle.at_object.specs.Passes.{seat_of};

use crate::closed::Closed;
use crate::ledger::Ledger;
use crate::pass::Pass;
use at_board::BoardSeat;
use at_ledger::Book;
use at_log::{Receipt, Record, closing_of};
use std::alloc::{AllocError, Global};
use std::snapshot::Snapshot;

/// There was no memory to close the ledger with. The ledger, its passes and the receipts come back as they were.
#[derive(Drop)]
pub struct CloseRefused {
    pub ledger: Ledger,
    pub passes: Vec<Pass>,
    pub receipts: Vec<Vec<Receipt>>,
}

impl Ledger {
    /// Closes the ledger with all its passes, in order, and the receipts of all calls. All memory is taken first, so where there is
    /// none further calls may be made, and the ledger may be closed again.
    pub fn close(
        self,
        alloc: Global,
        passes: Vec<Pass>,
        receipts: Vec<Vec<Receipt>>,
    ) -> Result<Closed, CloseRefused>
        requires { AreAccountedFor self passes.items (map (λ v. v.items) receipts.items) }
        ensures ledger { IfOk result (λ c. c.ledger ≡ self) }
        ensures book { IfOk result (λ c. c.book ≡ self.book) }
        ensures receipts { IfOk result (λ c. c.closing.receipts
            ≡ map (λ v. v.items) receipts.items) }
        ensures passes { IfOk result (λ c. c.passes ≡ passes.items) }
        ensures logs { IfOk result (HasAllLogs passes.items) }
        ensures coherent { IfOk result (λ c. Coherent c.book c.closing) }
        ensures after_notes { IfOk result KeepsNotes }
        ensures refused { IfErr result (λ r. (r.ledger ≡ self) × (r.passes.items ≡ passes.items)
            × (r.receipts.items ≡ receipts.items)) }
    {
        let Ok(memory) = memory_for(alloc, self.book(), passes.as_slice()) else {
            return Err(CloseRefused {
                ledger: self,
                passes,
                receipts,
            });
        };
        let Memory { book, rooms, seats } = memory;
        let ledger = Snapshot::of(&self);
        let last = Snapshot::of(&passes);
        let end = self.board.close(seats_of(passes, seats));
        Ok(Closed {
            book,
            closing: closing_of(&end, rooms, receipts),
            ledger,
            passes: last,
        })
    }
}

/// What closing a ledger takes memory for: a copy of its book, the records of each process, and the seats of its passes.
#[derive(Drop)]
struct Memory {
    book: Book,
    rooms: Vec<Vec<Record>>,
    seats: Vec<BoardSeat>,
}

/// All memory of a closing. The board is closed without any.
fn memory_for(alloc: Global, book: &Book, passes: &[Pass]) -> Result<Memory, AllocError>
    ensures book { IfOk result (λ m. m.book ≡ book.now) }
    ensures count { IfOk result (λ m. length m.rooms.items ≡ length passes.now) }
    ensures empty { IfOk result (λ m. (p : ℕ) (d : _) → p < length passes.now
        → (slice_index_or m.rooms.items p d).items ≡ []) }
    ensures rooms { IfOk result (λ m. (p : ℕ) (d : _) (e : _) → p < length passes.now
        → (own_part (slice_index_or passes.now p e).knows).published
        ≤ vec_capacity (slice_index_or m.rooms.items p d)) }
    ensures seats { IfOk result (λ m. HasMemoryFor m.seats (length passes.now)) }
{
    Ok(Memory {
        book: book.copy(alloc)?,
        rooms: rooms_for(alloc, passes)?,
        seats: Vec::with_capacity(alloc, passes.len())?,
    })
}

/// An empty list for each process, with the memory of as many records as it has published.
fn rooms_for(alloc: Global, passes: &[Pass]) -> Result<Vec<Vec<Record>>, AllocError>
    ensures count { IfOk result (λ v. length v.items ≡ length passes.now) }
    ensures empty { IfOk result (λ v. (p : ℕ) (d : _) → p < length passes.now
        → (slice_index_or v.items p d).items ≡ []) }
    ensures room { IfOk result (λ v. (p : ℕ) (d : _) (e : _) → p < length passes.now
        → (own_part (slice_index_or passes.now p e).knows).published
        ≤ vec_capacity (slice_index_or v.items p d)) }
{
    let mut rooms = Vec::new(alloc);
    for pass in passes {
        rooms.push(Vec::with_capacity(alloc, pass.seat.published() as usize)?)?;
    }
    Ok(rooms)
}

/// The seats of the passes, in memory that was taken before.
fn seats_of(passes: Vec<Pass>, mut seats: Vec<BoardSeat>) -> Vec<BoardSeat>
    requires { HasMemoryFor seats (length passes.items) }
    ensures seats { result.items ≡ map seat_of passes.items }
    ensures at_rest { All IsAtRest result.items }
{
    for pass in passes {
        let (seat, _) = pass.into_parts();
        seat.known();
        seats.push_reserved(seat);
    }
    seats
}
