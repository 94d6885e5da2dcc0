//! A load of an announced request.

ghost use Rattle.std.specs.Prelude.{◌≡◌, ◌+◌, ◌^◌, ◌<◌, slice_index};
ghost use Rattle.at_requests.specs.Prelude.{raised, IsOf, KnowsOf, request_words, ArePacked, accounts_of, REQUEST_WORDS, Request};
ghost use Rattle.at_requests.specs.Asks.{opened};
ghost use Rattle.at_requests.specs.Loads.{LoadsRequest};

use crate::open_request::OpenRequest;
use at_board::{Board, BoardSeat, REQUEST_WORDS, targets_from};

/// A request that the seat has seen, or that a decision names which it has seen, whole as it was announced, in a step for each
/// of its words. Takes no memory.
pub fn load_request(
    board: &Board,
    seat: &mut BoardSeat,
    account: u32,
    slot: u32,
    number: u32,
) -> OpenRequest
    requires board { IsOf seat.old board.now }
    requires request { KnowsOf seat.old.knows account slot number }
    ensures loaded { LoadsRequest board.now.book seat.old.knows seat.new.knows
        account slot number result }
    ensures board { IsOf seat.new board.now }
    ensures steps { seat.new.steps ≡ raised seat.old.steps REQUEST_WORDS }
    ensures exchanges { seat.new.exchanges ≡ seat.old.exchanges }
{
    board.book().known();
    seat.known();
    let mut words = [0u64; REQUEST_WORDS as usize];
    for j in 0..REQUEST_WORDS {
        // Right here: an announced request never changes, so the words are those of one request, however far apart the loads.
        words[j as usize] = board.load_request_word(seat, account, slot, number, j);
    }
    request_from(slot, number, words)
}

/// The request of these words, by its slot and its number. For words that no request has, the answer is some request.
pub fn request_from(slot: u32, number: u32, words: [u64; REQUEST_WORDS as usize]) -> OpenRequest
    requires since { slice_index words 5 < 2 ^ 32 }
    ensures request { (r : Request) → ArePacked (accounts_of r.targets) → words ≡ request_words r
        → result ≡ opened slot number r.targets r.since }
    ensures slot { result.slot ≡ slot }
    ensures number { result.number ≡ number }
{
    OpenRequest {
        slot,
        number,
        targets: targets_from(words[0], [words[1], words[2], words[3], words[4]]),
        since: words[5] as u32,
    }
}
