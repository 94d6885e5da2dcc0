//! What the owners of an account have asked last.

ghost use Rattle.std.specs.Prelude.{◌≡◌, ◌+◌, ◌-◌, ◌*◌, ◌<◌, ◌≤◌, length};
ghost use Rattle.at_requests.specs.Prelude.{raised, HasLoadedRows, SeesRequest, IsOf, REQUEST_WORDS, slots_of, account_of};
ghost use Rattle.at_requests.specs.Asks.{HasAsked};
ghost use Rattle.at_requests.specs.OpenRequests.{request_of};
ghost use Rattle.at_requests.specs.Rows.{AreCandidates, CollectsRows, LoadsRow, row_steps};

use crate::asked::Asked;
use crate::load_request_words::load_request;
use crate::open_request::OpenRequest;
use at_board::{Board, BoardSeat};

/// The last requests of all owners of an account on which the seat's process has asked: its own, and of each other owner the last
/// one that its announced word counts. Loads each announced word once, in the order of the slots. Takes no memory.
pub fn collect_rows(board: &Board, seat: &mut BoardSeat, account: u32, own: &OpenRequest) -> Asked
    requires board { IsOf seat.old board.now }
    requires own { HasAsked board.now.book seat.old.knows account own.now }
    ensures collected { HasLoadedRows board.now.book seat.new.knows account own.now.slot }
    ensures rows { CollectsRows board.now.book seat.old.knows seat.new.knows account own.now
        result }
    ensures candidates { AreCandidates seat.old.knows seat.new.knows account own.now.slot
        result }
    ensures own { HasAsked board.now.book seat.new.knows account own.now }
    ensures board { IsOf seat.new board.now }
    ensures steps { seat.new.steps
        ≡ raised seat.old.steps (slots_of (account_of board.now.book account)
        + REQUEST_WORDS * (length result - 1)) }
    ensures few { length result ≤ slots_of (account_of board.now.book account) }
    ensures most { seat.new.steps ≤ seat.old.steps + (slots_of (account_of board.now.book account)
        + REQUEST_WORDS * (slots_of (account_of board.now.book account) - 1)) }
    ensures exchanges { seat.new.exchanges ≡ seat.old.exchanges }
{
    board.book().known();
    seat.known();
    let mut asked = Asked::empty();
    for slot in 0..board.book().slot_count(account) {
        let found = load_row(board, seat, account, slot, own);
        asked.add(found);
    }
    asked
}

/// One owner's row: its announced word, and of another owner than the caller the last request that the word counts.
fn load_row(
    board: &Board,
    seat: &mut BoardSeat,
    account: u32,
    slot: u32,
    own: &OpenRequest,
) -> Option<OpenRequest>
    requires board { IsOf seat.old board.now }
    requires account { account < length board.now.book.accounts }
    requires slot { slot < slots_of (account_of board.now.book account) }
    requires own { SeesRequest seat.old.knows account own.now.slot own.now.number
        (request_of own.now) }
    ensures row { LoadsRow seat.old.knows seat.new.knows account slot own.now result }
    ensures board { IsOf seat.new board.now }
    ensures steps { seat.new.steps ≡ raised seat.old.steps (row_steps own.now.slot slot result) }
    ensures exchanges { seat.new.exchanges ≡ seat.old.exchanges }
{
    seat.known();
    // Right here: what the word counts is announced and never changes. The owner may announce more right after; a proposal need
    // not weigh those, which were announced after the seat's own request.
    let count = board.load_announced(seat, account, slot);
    if slot == own.slot {
        return Some(own.copy());
    }
    if count == 0 {
        return None;
    }
    let number = count - 1;
    let last = load_request(board, seat, account, slot, number);
    Some(last)
}
