//! A step: announcing a request.

ghost use Rattle.std.specs.Prelude.{◌≡◌, ◌+◌, ◌<◌, ℕ, length};
ghost use Rattle.at_board.specs.Counting.{raised};
ghost use Rattle.at_board.specs.Knowledge.Seats.{IsKept, IsOf};
ghost use Rattle.at_board.specs.Prelude.{HasSlot, Request};
ghost use Rattle.at_board.specs.Steps.Announce.{MayAnnounce, Announces};
ghost use Rattle.at_board.specs.Knowledge.Parts.{asking_on, own_part};

use crate::board::Board;
use crate::plays::Announce;
use crate::seat::BoardSeat;

impl Board {
    /// How many requests the seat's process has announced on an account that it shares. It makes no step.
    pub fn announced(&self, seat: &BoardSeat, account: u32) -> u32
        requires board { IsOf seat.now self.now }
        requires slot { (slot : ℕ) × HasSlot self.now.book seat.now.knows.first account slot }
        ensures { result ≡ length (asking_on (own_part seat.now.knows) account).announced }
    {
        seat.announced(account)
    }

    /// Announces the next request of the seat's process on an account, in one step: one atomic store of its announced word. The
    /// words of the request are stored before.
    pub fn announce(&self, seat: &mut BoardSeat, account: u32)
        requires board { IsOf seat.old self.now }
        requires request { (slot : ℕ) × (r : Request)
            × MayAnnounce self.now.book seat.old.knows account slot r }
        ensures announced { (slot : ℕ) (r : Request)
            → MayAnnounce self.now.book seat.old.knows account slot r
            → Announces self.now.book seat.old.knows seat.new.knows account slot r }
        ensures seat { IsKept seat.new.knows }
        ensures board { seat.new.board ≡ seat.old.board }
        ensures steps { seat.new.steps ≡ raised seat.old.steps 1 }
        ensures exchanges { seat.new.exchanges ≡ seat.old.exchanges }
    {
        let own = self.own_slot(account, seat.process());
        let count = self.announced(seat, account) + 1;
        let word = self.layout.announced_index(account, own);
        seat.made.count_step();
        // Right here: this one store makes the request one of the row, and its words stand. Before, others may have published,
        // announced and decided; all that this process asked earlier is settled, and stays so.
        self.table
            .shared
            .store::<Announce>(&mut seat.seat, word, u64::from(count));
        let index = account as usize;
        seat.announced[index] = count;
    }

    /// The slot of a process on an account that it shares.
    pub(crate) fn own_slot(&self, account: u32, process: u32) -> u32
        requires { (slot : ℕ) × HasSlot self.now.book process account slot }
        ensures slot { HasSlot self.now.book process account result }
    {
        self.layout.book.slot_of(account, process).unwrap()
    }
}
