//! Pay-outs from single accounts.

ghost use Rattle.std.specs.Prelude.{◌≡◌, ◌+◌, ◌*◌, ◌<◌, ◌≤◌, List, [], ◌∷◌, length, slice_index, sum, Some};
ghost use Rattle.at_payments.specs.Prelude.{own_part, IsOf, RECORD_WORDS, HasCounted, prefix_of, owns_of, AreTargetsOn, payout_of, Call, IsPlaced, owns_in, Receipt, IsSnapshot, snapshot_steps};
ghost use Rattle.at_payments.specs.Standing.{IsOnlyOwner, StandsAfterCut, StandsAtCut, StandsAtOwn, cut_behind, newly_counted, payment_reply};

use crate::looks::{covers, look};
use at_board::{Board, BoardSeat, Entry};
use at_fold::Totals;
use at_ledger::{Reply, Targets};
use at_log::{At, Record, append};

/// Moves each amount to its target from an account that the seat's process owns alone, all of them if the balance at the cut of
/// a snapshot covers their sum, and else none: the reply, and where the call stands. Takes no memory.
pub fn pay_single(
    board: &Board,
    seat: &mut BoardSeat,
    totals: &mut Totals,
    from: u32,
    targets: &Targets,
) -> (Reply, At)
    requires seat { IsOf seat.old board.now }
    requires totals { HasCounted totals.old board.now.book seat.old.knows.seen }
    requires from { from < length board.now.book.accounts }
    requires targets { AreTargetsOn (length board.now.book.accounts) targets.now }
    requires owner { IsOnlyOwner board.now.book seat.old.knows.first from }
    requires room { owns_of seat.old.knows.first seat.old.knows.seen < board.now.book.own_room }
    ensures reply { result.0 ≡ payment_reply board.now.book
        (prefix_of (cut_behind seat.new.knows result.1) seat.new.knows.seen)
        from targets.now }
    ensures placed { (call : Call) → payout_of call ≡ Some (from, targets.now) →
        (earlier : List Receipt) →
        owns_in earlier ≡ owns_of seat.old.knows.first seat.old.knows.seen →
        IsPlaced board.now.book seat.old.knows.first seat.new.knows.seen earlier
        (record { call = call; reply = result.0; at = result.1 }) }
    ensures after_cut { (call : Call) → StandsAfterCut seat.new.knows
        (record { call = call; reply = result.0; at = result.1 }) }
    ensures snapshot { IsSnapshot board.now.book seat.old.knows seat.new.knows
        (cut_behind seat.new.knows result.1) }
    ensures short { result.0 ≡ Reply.Short →
        StandsAtCut board.now.book seat.old.knows seat.new.knows result.1 }
    ensures done { result.0 ≡ Reply.Done →
        StandsAtOwn board.now.book seat.old.knows seat.new.knows from targets.now result.1 }
    ensures more { sum totals.old.upto + (own_part seat.new.knows).published
        ≤ sum totals.new.upto + (own_part seat.old.knows).published }
    ensures counted { HasCounted totals.new board.now.book seat.new.knows.seen }
    ensures own_counted { slice_index totals.new.upto seat.new.knows.first
        ≡ (own_part seat.new.knows).published }
    ensures board { IsOf seat.new board.now }
    ensures steps { seat.new.steps ≤ seat.old.steps + snapshot_steps board.now.book.processes
        + (RECORD_WORDS + board.now.book.processes + 1)
        + RECORD_WORDS * newly_counted seat.old.knows seat.new.knows totals.old totals.new }
    ensures steps_short { result.0 ≡ Reply.Short →
        seat.new.steps ≤ seat.old.steps + snapshot_steps board.now.book.processes
        + RECORD_WORDS * newly_counted seat.old.knows seat.new.knows totals.old totals.new }
    ensures risen { seat.old.steps ≤ seat.new.steps }
    ensures exchanges { seat.new.exchanges ≡ seat.old.exchanges }
{
    seat.known();
    // There are one to four targets, as their type keeps.
    let _count = targets.len();
    let view = look(board, seat, totals);
    if !covers(totals, from, targets) {
        return (Reply::Short, At::Cut(view));
    }
    let number = seat.published();
    let entry = Entry::Own {
        from,
        targets: targets.copy(),
    };
    let record = Record { entry, view };
    // The cut stays one, and what it covers stays covered, whatever others publish before this record.
    append(board, seat, &record);
    totals.count_own(seat, &record.entry);
    (Reply::Done, At::Own(number))
}
