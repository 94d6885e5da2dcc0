//! Asking: a request is stored and announced.

ghost use Rattle.std.specs.Prelude.{◌≡◌, ℕ, ◌+◌, ◌^◌, ◌<◌, length, slice_index};
ghost use Rattle.at_requests.specs.Prelude.{raised, asking_on, own_part, IsOf, Announces, request_words, REQUEST_WORDS, HasSlot, AreTargetsOn, target_at};
ghost use Rattle.at_requests.specs.Asks.{HasAsked, HasLoadedNothing, MayAskFor, asked_for, opened};

use at_board::{Board, BoardSeat, REQUEST_WORDS, pack_targets};
use at_ledger::Targets;

/// Stores the words of a request and announces it, in a step for each word and one more. The answer is its number among those
/// of its slot. Takes no memory.
pub fn ask(board: &Board, seat: &mut BoardSeat, account: u32, targets: &Targets, since: u32) -> u32
    requires board { IsOf seat.old board.now }
    requires request { (slot : ℕ) × MayAskFor board.now.book seat.old.knows account slot
        (asked_for targets.now since) }
    ensures announced { (slot : ℕ) → HasSlot board.now.book seat.old.knows.first account slot
        → Announces board.now.book seat.old.knows seat.new.knows account slot
        (asked_for targets.now since) }
    ensures number { result
        ≡ length (asking_on (own_part seat.old.knows) account).announced }
    ensures own { (slot : ℕ) → HasSlot board.now.book seat.old.knows.first account slot
        → HasAsked board.now.book seat.new.knows account
        (opened slot result targets.now since) }
    ensures nothing { HasLoadedNothing seat.new.knows account }
    ensures board { IsOf seat.new board.now }
    ensures steps { seat.new.steps ≡ raised seat.old.steps (REQUEST_WORDS + 1) }
    ensures exchanges { seat.new.exchanges ≡ seat.old.exchanges }
{
    board.book().known();
    seat.known();
    let number = board.announced(seat, account);
    for j in 0..REQUEST_WORDS {
        let word = request_word(targets, since, j);
        // Right here: no other seat reads the words of a request that isn't announced, whatever others do meanwhile.
        board.store_request_word(seat, account, j, word);
    }
    // Right here: all words stand. Others may have published and decided since the cut of `since`; what was settled there
    // stays so.
    board.announce(seat, account);
    number
}

/// A word of a request: its targets, four amounts, and its `since`.
pub fn request_word(targets: &Targets, since: u32, j: u32) -> u64
    requires targets { AreTargetsOn (2 ^ 10) targets.now }
    requires word { j < REQUEST_WORDS }
    ensures { result ≡ slice_index (request_words (asked_for targets.now since)) j }
{
    match j {
        0 => pack_targets(targets),
        5 => u64::from(since),
        _ => amount_or_zero(targets, j - 1),
    }
}

/// The amount for a target, or 0 past the last.
fn amount_or_zero(targets: &Targets, i: u32) -> u64
    ensures { result ≡ (target_at targets.now i).1 }
{
    if i < targets.len() {
        targets.amount(i)
    } else {
        0
    }
}
