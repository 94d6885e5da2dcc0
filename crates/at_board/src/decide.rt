//! A step: which request of a shared account is decided next.

ghost use Rattle.std.specs.Prelude.{◌≡◌, ◌+◌, ◌<◌};
ghost use Rattle.at_board.specs.Counting.{raised};
ghost use Rattle.at_board.specs.Knowledge.Seats.{IsKept, IsOf};
ghost use Rattle.at_board.specs.Steps.Decide.{DecidesBy, IsProposal, word_after};

use crate::board::Board;
use crate::plays::Decide;
use crate::seat::BoardSeat;

impl Board {
    /// Proposes a decision, by its word, for a round of an account, by one compare-exchange in one step. The answer is the word
    /// that the round is decided by: the proposal, unless another stood there. A seat that found none holds the cell. It gives
    /// it up by publishing the round with the very view that it proposed from; until then it can't propose, and the board
    /// can't be closed. Nothing asks that this view count all records of the seat's own process; where it doesn't, the cell is
    /// never given up.
    pub fn decide(&self, seat: &mut BoardSeat, account: u32, round: u32, proposal: u64) -> u64
        requires board { IsOf seat.old self.now }
        requires proposal { IsProposal self.now.book seat.old.knows account round proposal }
        ensures decided { DecidesBy self.now.book seat.old.knows seat.new.knows account round
            proposal result }
        ensures seat { IsKept seat.new.knows }
        ensures board { seat.new.board ≡ seat.old.board }
        ensures steps { seat.new.steps ≡ raised seat.old.steps 1 }
        ensures exchanges { seat.new.exchanges ≡ raised seat.old.exchanges 1 }
    {
        seat.known();
        let index = self.layout.cell_index(account, round);
        seat.made.count_exchange();
        // Right here: the exchange stores only where it finds 0. Others may have decided this round before; then their word stands,
        // and is the answer. Where none has, this round is the next one, and the proposal keeps the laws at its place, since
        // the list up to there never changes.
        let found = self
            .table
            .shared
            .compare_exchange::<Decide>(&mut seat.seat, index, 0, proposal);
        decided_word(found, proposal)
    }
}

/// The word of a cell after an exchange from 0 that found this.
fn decided_word(found: u64, proposal: u64) -> u64
    ensures { result ≡ word_after found proposal }
{
    if found == 0 { proposal } else { found }
}
