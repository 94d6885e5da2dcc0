//! Overviews: what the seats of one caller have seen, put together in no step.

ghost use Rattle.std.specs.Prelude.{◌≡◌, ◌+◌, ◌<◌, []};
ghost use Rattle.at_board.specs.Knowledge.Overviews.{IsOverviewOf, LearnsOverview, TakesIn};
ghost use Rattle.at_board.specs.Knowledge.Seats.{IsKept, IsOf};

use crate::board::Board;
use crate::knowledge::Knowledge;
use crate::meet::meet;
use crate::note::BoardNote;
use crate::plays::{Learn, SeenAlone};
use crate::seat::BoardSeat;
use atomic_table::Seat;
use std::marker::{Model, PhantomData};

/// What the seats of one caller have seen, put together. It is no seat and makes no step: its caller has all these seats, and it
/// stays on the thread that made it, so no thread hears of another by it. It takes no memory.
#[derive(Drop)]
pub struct Overview {
    pub(crate) seat: Seat<(), Knowledge>,
    /// A raw pointer may not cross threads, so an overview may not either.
    pub(crate) stays: PhantomData<*const ()>,
}

impl Model for Overview {
    ghost use Rattle.std.specs.Prelude.{◌≡◌, []};
    ghost use Rattle.at_board.specs.Knowledge.Overviews.{IsOverview, OverviewTerms};

    ghost Value = { OverviewTerms };

    ghost view = { λ o. record { board = o.seat.table_id; book = o.seat.me.0.book; seen = o.seat.me.0.seen } };

    ghost invariant = { λ o. (o.seat.me.1 ≡ []) × IsOverview o.seat.me.0 };
}

impl Board {
    /// What the seat has seen, as an overview. It is no step.
    pub fn overview(&self, seat: &mut BoardSeat) -> Overview
        requires board { IsOf seat.old self.now }
        ensures seen { result.seen ≡ seat.old.knows.seen }
        ensures board { IsOverviewOf result self.now }
        ensures same { seat.new ≡ seat.old }
    {
        // Right here: what the seat has seen never changes, so a copy of it is right at every later moment. No word changes.
        Overview {
            seat: self.table.shared.split_seat::<SeenAlone>(&mut seat.seat),
            stays: PhantomData,
        }
    }

    /// Takes in what one more seat has seen. It is no step.
    pub fn add_to_overview(&self, overview: &mut Overview, seat: &mut BoardSeat)
        requires overview { IsOverviewOf overview.old self.now }
        requires seat { IsOf seat.old self.now }
        ensures added { TakesIn self.now.book overview.old.seen seat.old.knows overview.new.seen }
        ensures overview { IsOverviewOf overview.new self.now }
        ensures same { seat.new ≡ seat.old }
    {
        let shared = &self.table.shared;
        // Right here: both lists are prefixes of the one list, so the longer one has both. The seat has seen all of its own
        // process, so the longer one has no more of it.
        meet(shared, &mut overview.seat, &mut seat.seat);
        let seen = shared.split_seat::<SeenAlone>(&mut seat.seat);
        shared.join_seat::<Learn>(&mut overview.seat, seen);
    }

    /// The seat takes in all that the overview has. It is no step.
    pub fn learn_overview(&self, seat: &mut BoardSeat, overview: &mut Overview)
        requires board { IsOf seat.old self.now }
        requires overview { IsOverviewOf overview.old self.now }
        ensures learned { LearnsOverview self.now.book seat.old.knows overview.old.seen seat.new.knows }
        ensures seat { IsKept seat.new.knows }
        ensures board { seat.new.board ≡ seat.old.board }
        ensures steps { seat.new.steps ≡ seat.old.steps }
        ensures exchanges { seat.new.exchanges ≡ seat.old.exchanges }
        ensures same { overview.new ≡ overview.old }
    {
        // Right here: what the overview has never changes, so a copy of it is right at every later moment. No word changes.
        let note = BoardNote {
            seat: self
                .table
                .shared
                .split_seat::<SeenAlone>(&mut overview.seat),
        };
        self.take_in(seat, note);
    }
}
