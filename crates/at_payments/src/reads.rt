//! Reads.

ghost use Rattle.std.specs.Prelude.{◌≡◌, ◌+◌, ◌*◌, ◌<◌, ◌≤◌, List, length, slice_index, sum};
ghost use Rattle.at_payments.specs.Prelude.{own_part, IsOf, RECORD_WORDS, HasCounted, balance_after, prefix_of, IsPlaced, Receipt, IsSnapshot, snapshot_steps};
ghost use Rattle.at_payments.specs.Standing.{StandsAfterCut, StandsAtCut, cut_behind, newly_counted};

use crate::looks::look;
use at_board::{Board, BoardSeat};
use at_fold::Totals;
use at_ledger::{Call, Reply};
use at_log::{At, Receipt};

/// The balance of an account at the cut of a snapshot. Nothing is published, and no memory is taken.
pub fn read_account(
    board: &Board,
    seat: &mut BoardSeat,
    totals: &mut Totals,
    account: u32,
) -> Receipt
    requires seat { IsOf seat.old board.now }
    requires totals { HasCounted totals.old board.now.book seat.old.knows.seen }
    requires account { account < length board.now.book.accounts }
    ensures call { result.call ≡ Call.Read account }
    ensures reply { result.reply ≡ Reply.Balance (balance_after board.now.book
        (prefix_of (cut_behind seat.new.knows result.at) seat.new.knows.seen) account) }
    ensures placed { (earlier : List Receipt) →
        IsPlaced board.now.book seat.old.knows.first seat.new.knows.seen earlier result }
    ensures after_cut { StandsAfterCut seat.new.knows result }
    ensures snapshot { IsSnapshot board.now.book seat.old.knows seat.new.knows
        (cut_behind seat.new.knows result.at) }
    ensures at_cut { StandsAtCut board.now.book seat.old.knows seat.new.knows result.at }
    ensures more { sum totals.old.upto + (own_part seat.new.knows).published
        ≤ sum totals.new.upto + (own_part seat.old.knows).published }
    ensures counted { HasCounted totals.new board.now.book seat.new.knows.seen }
    ensures own_counted { slice_index totals.new.upto seat.new.knows.first
        ≡ (own_part seat.new.knows).published }
    ensures board { IsOf seat.new board.now }
    ensures steps { seat.new.steps ≤ seat.old.steps + snapshot_steps board.now.book.processes
        + RECORD_WORDS * newly_counted seat.old.knows seat.new.knows totals.old totals.new }
    ensures risen { seat.old.steps ≤ seat.new.steps }
    ensures exchanges { seat.new.exchanges ≡ seat.old.exchanges }
{
    seat.known();
    let cut = look(board, seat, totals);
    let balance = totals.balance(account);
    Receipt {
        call: Call::Read { account },
        reply: Reply::Balance(balance),
        at: At::Cut(cut),
    }
}
