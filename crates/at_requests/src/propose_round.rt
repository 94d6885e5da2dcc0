//! Proposals to the cell of a round.

ghost use Rattle.std.specs.Prelude.{◌≡◌, ◌+◌};
ghost use Rattle.at_requests.specs.Prelude.{raised, SeesDecision, IsOf, MayPropose, Request};
ghost use Rattle.at_requests.specs.Decided.{DecidesAs};

use at_base::{Decision, pack_decision, unpack_decision};
use at_board::{Board, BoardSeat};

/// Proposes a decision for a round of an account, in one step, which is an exchange. The answer is the decision of that round: the
/// proposal where it was undecided. It never changes. Takes no memory.
pub fn propose(
    board: &Board,
    seat: &mut BoardSeat,
    account: u32,
    round: u32,
    proposal: &Decision,
) -> Decision
    requires board { IsOf seat.old board.now }
    requires proposal { (r : Request)
        × MayPropose board.now.book seat.old.knows account round proposal.now r }
    ensures decided { DecidesAs board.now.book seat.old.knows seat.new.knows account round
        proposal.now result }
    ensures seen { SeesDecision seat.new.knows account round result }
    ensures board { IsOf seat.new board.now }
    ensures steps { seat.new.steps ≡ raised seat.old.steps 1 }
    ensures exchanges { seat.new.exchanges ≡ raised seat.old.exchanges 1 }
{
    let word = pack_decision(proposal);
    // Right here: the exchange stores only where the round is undecided. Where another seat has decided it before, whatever that
    // was, its word stands and is the answer.
    let decided = board.decide(seat, account, round, word);
    unpack_decision(decided).unwrap()
}
