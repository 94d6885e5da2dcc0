//! Pay-outs from shared accounts.

ghost use Rattle.std.specs.Prelude.{◌≡◌, ◌≢◌, ℕ, ◌+◌, ◌*◌, ◌≤◌, List, length, slice_index, sum, None};
ghost use Rattle.at_payments.specs.Prelude.{raised, asking_on, own_part, IsOf, MayStoreRequest, RECORD_WORDS, HasCounted, IsPrefix, slots_of, account_of, AreTargetsOn, IsPlaced, asks_in, Receipt, snapshot_steps};
ghost use Rattle.at_payments.specs.Helpings.{HasAllSettled, decides_made, decides_on};
ghost use Rattle.at_payments.specs.PaymentTurns.{SettlesInTurns};
ghost use Rattle.at_payments.specs.Settling.{AsksOnce, OnReceipts, StandsAfter, StandsAfterSnapshot, StandsInRound, asking_steps, round_steps};
ghost use Rattle.at_payments.specs.Standing.{newly_counted};

use crate::helping::{HelpTurn, Helping};
use at_board::{Board, BoardSeat};
use at_fold::Totals;
use at_ledger::{Reply, Targets};
use at_log::At;

/// Moves each amount to its target from an account that the seat's process shares, all of them if the account covers their sum when
/// the request's turn comes, and else none: the reply, and where the call stands. Asks, and turns until the request is settled.
/// Short uses one request of room too. The call may publish rounds in which others' requests are decided. Takes no memory.
pub fn pay_shared(
    board: &Board,
    seat: &mut BoardSeat,
    totals: &mut Totals,
    account: u32,
    targets: &Targets,
) -> (Reply, At)
    requires seat { IsOf seat.old board.now }
    requires totals { HasCounted totals.old board.now.book seat.old.knows.seen }
    requires targets { AreTargetsOn (length board.now.book.accounts) targets.now }
    requires asks { (slot : ℕ) × MayStoreRequest board.now.book seat.old.knows account slot }
    requires settled { HasAllSettled board.now.book seat.old.knows account }
    requires free { (own_part seat.old.knows).held ≡ None }
    ensures in_round { StandsInRound result }
    ensures placed { OnReceipts account targets.now result (λ r. (earlier : List Receipt)
        → asks_in account earlier ≡ length (asking_on (own_part seat.old.knows) account).announced
        → IsPlaced board.now.book seat.new.knows.first seat.new.knows.seen earlier r) }
    ensures after_start { OnReceipts account targets.now result
        (StandsAfter (length seat.old.knows.seen) seat.new.knows) }
    ensures after_snapshot { OnReceipts account targets.now result
        (StandsAfterSnapshot board.now.book seat.old.knows seat.new.knows account) }
    ensures asked { AsksOnce board.now.book seat.old.knows seat.new.knows account }
    ensures turns { SettlesInTurns board.now.book seat.old.knows seat.new.knows account
        targets.now }
    ensures free { (own_part seat.new.knows).held ≡ None }
    ensures begins { IsPrefix seat.old.knows.seen seat.new.knows.seen }
    ensures process { seat.new.knows.first ≡ seat.old.knows.first }
    ensures decides_elsewhere { (a : ℕ) → a ≢ account
        → decides_on seat.new.knows a ≡ decides_on seat.old.knows a }
    ensures more { sum totals.old.upto + (own_part seat.new.knows).published
        ≤ sum totals.new.upto + (own_part seat.old.knows).published }
    ensures counted { HasCounted totals.new board.now.book seat.new.knows.seen }
    ensures own_counted { slice_index totals.new.upto seat.new.knows.first
        ≡ (own_part seat.new.knows).published }
    ensures board { IsOf seat.new board.now }
    ensures decides { decides_made account seat.old.knows seat.new.knows
        ≤ slots_of (account_of board.now.book account) }
    ensures steps { seat.new.steps ≤ seat.old.steps + snapshot_steps board.now.book.processes
        + asking_steps (slots_of (account_of board.now.book account))
        + slots_of (account_of board.now.book account)
        * (snapshot_steps board.now.book.processes + round_steps board.now.book.processes)
        + RECORD_WORDS * newly_counted seat.old.knows seat.new.knows totals.old totals.new }
    ensures risen { seat.old.steps ≤ seat.new.steps }
    ensures exchanges { seat.new.exchanges
        ≡ raised seat.old.exchanges (decides_made account seat.old.knows seat.new.knows) }
{
    seat.known();
    let mut helping = Helping::start(board, seat, totals, account, targets);
    seat.known();
    loop {
        // Each turn that answers more has published one round that was decided before the request, and they are few.
        if let HelpTurn::Settled(answer) = helping.turn(board, seat, totals) {
            return answer;
        }
    }
}
