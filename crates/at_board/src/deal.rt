//! The first seat of a board, dealt as one seat for each process.

ghost use Rattle.std.specs.Prelude.{◌≡◌, ◌<◌, IfOk, length, [], replicate};
ghost use Rattle.at_board.specs.Ends.Opening.{AreNew};
ghost use Rattle.at_board.specs.Words.Addresses.{word_count};
ghost use Rattle.at_board.specs.Knowledge.Parts.{starting_knowledge};

use crate::addresses::word_count;
use crate::counter::StepCounts;
use crate::knowledge::Knowledge;
use crate::plays::Deal;
use crate::rule::BoardRule;
use crate::seat::BoardSeat;
use at_ledger::Book;
use atomic_table::{Seat, Shared};
use std::alloc::{AllocError, Global};
use std::snapshot::Snapshot;

/// One seat for each process, in order.
pub(crate) fn deal(
    alloc: Global,
    shared: &Shared<(), Knowledge, Snapshot<Book>, BoardRule>,
    first: Seat<(), Knowledge>,
    book: &Book,
) -> Result<Vec<BoardSeat>, AllocError>
    requires table { (first.table_id ≡ shared.now.table_id) × (shared.now.key.value ≡ book.now)
        × (shared.now.table_id.words ≡ word_count book.now) }
    requires first { first.me ≡ (starting_knowledge book.now, []) }
    ensures { IfOk result (λ seats. AreNew book.now shared.now.table_id seats.items) }
{
    book.known();
    let last = book.processes() - 1;
    let mut seats = Vec::new(alloc);
    let mut rest = first;
    for process in 0..last {
        let others = shared.split_seat::<Deal>(&mut rest);
        seats.push(BoardSeat {
            seat: rest,
            process,
            published: 0,
            announced: no_requests(alloc, book)?,
            made: StepCounts::none(),
        })?;
        rest = others;
    }
    seats.push(BoardSeat {
        seat: rest,
        process: last,
        published: 0,
        announced: no_requests(alloc, book)?,
        made: StepCounts::none(),
    })?;
    Ok(seats)
}

/// No request on any account: a zero for each.
fn no_requests(alloc: Global, book: &Book) -> Result<Vec<u32>, AllocError>
    ensures { IfOk result (λ counts. counts.items ≡ replicate (length book.now.accounts) 0) }
{
    Ok(vec![in alloc; 0u32; book.accounts() as usize]?)
}
