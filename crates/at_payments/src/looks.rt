//! What each call does first, and the test of its balance.

ghost use Rattle.std.specs.Prelude.{◌≡◌, ◌↔◌, ◌+◌, ◌-◌, ◌*◌, ◌≤◌, List, sum, true};
ghost use Rattle.at_payments.specs.Prelude.{IsOf, RECORD_WORDS, CountsAccount, CountsCut, HasCounted, balance_after, prefix_of, Publication, BookTerms, amount_of, snapshot_steps};
ghost use Rattle.at_payments.specs.Looks.{HasLooked};

use at_base::Counts;
use at_board::{Board, BoardSeat};
use at_fold::Totals;
use at_ledger::Targets;
use at_snapshot::snapshot;

/// Takes a snapshot, and has the totals count what it counts: what every payment does first, on shared accounts too. Takes no
/// memory.
pub fn look(board: &Board, seat: &mut BoardSeat, totals: &mut Totals) -> Counts
    requires seat { IsOf seat.old board.now }
    requires totals { HasCounted totals.old board.now.book seat.old.knows.seen }
    ensures looked { HasLooked board.now.book seat.old.knows seat.new.knows totals.old totals.new
        result }
    ensures board { IsOf seat.new board.now }
    ensures steps { seat.new.steps ≤ seat.old.steps + snapshot_steps board.now.book.processes
        + RECORD_WORDS * (sum result - sum totals.old.upto) }
    ensures risen { seat.old.steps ≤ seat.new.steps }
    ensures exchanges { seat.new.exchanges ≡ seat.old.exchanges }
{
    let cut = snapshot(board, seat);
    totals.catch_up(board, seat, &cut);
    cut
}

/// Does the balance at the cut that the totals have counted cover the amounts of these targets?
pub fn covers(totals: &Totals, account: u32, targets: &Targets) -> bool
    requires { (b : BookTerms) × (seen : List Publication) × CountsAccount totals.now b seen account
        × CountsCut totals.now b seen }
    ensures { (b : BookTerms) (seen : List Publication) → CountsAccount totals.now b seen account
        → CountsCut totals.now b seen → (result ≡ true)
        ↔ (amount_of targets.now ≤ balance_after b (prefix_of totals.now.upto seen) account) }
{
    targets.sum() <= u128::from(totals.balance(account))
}
