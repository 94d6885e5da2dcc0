//! A step: a load of how many requests an owner has announced.

ghost use Rattle.std.specs.Prelude.{◌≡◌, ◌+◌, ◌<◌, length};
ghost use Rattle.at_board.specs.Counting.{raised};
ghost use Rattle.at_board.specs.Knowledge.Seats.{IsKept, IsOf};
ghost use Rattle.at_board.specs.Prelude.{account_of, slots_of};
ghost use Rattle.at_board.specs.Steps.LoadAnnounced.{LoadsAnnounced};

use crate::board::Board;
use crate::plays::LoadAnnounced;
use crate::seat::BoardSeat;

impl Board {
    /// Loads how many requests the owner at a slot of a shared account has announced, in one step.
    pub fn load_announced(&self, seat: &mut BoardSeat, account: u32, slot: u32) -> u32
        requires board { IsOf seat.old self.now }
        requires account { account < length self.now.book.accounts }
        requires slot { slot < slots_of (account_of self.now.book account) }
        ensures told { LoadsAnnounced self.now.book seat.old.knows seat.new.knows
            account slot result }
        ensures seat { IsKept seat.new.knows }
        ensures board { seat.new.board ≡ seat.old.board }
        ensures steps { seat.new.steps ≡ raised seat.old.steps 1 }
        ensures exchanges { seat.new.exchanges ≡ seat.old.exchanges }
    {
        let index = self.layout.announced_index(account, slot);
        seat.made.count_step();
        // Right here: each request that the word counts was whole before it was counted, and never changes. The owner may have
        // announced more before than this seat knew of, and may announce more at once after.
        let count = self
            .table
            .shared
            .load::<LoadAnnounced>(&mut seat.seat, index);
        count as u32
    }
}
