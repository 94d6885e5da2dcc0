//! Notes: what one seat has seen, handed to another in two steps.

ghost use Rattle.std.specs.Prelude.{◌≡◌, ◌+◌, ◌<◌, []};
ghost use Rattle.at_board.specs.Counting.{exchanged, raised};
ghost use Rattle.at_board.specs.Knowledge.Seats.{IsKept, IsOf};
ghost use Rattle.at_board.specs.Steps.Learn.{Learns};
ghost use Rattle.at_board.specs.Steps.Note.{noted};

use crate::board::Board;
use crate::knowledge::Knowledge;
use crate::meet::meet;
use crate::plays::{Learn, Note};
use crate::seat::BoardSeat;
use atomic_table::Seat;
use std::marker::Model;

/// What a seat had seen when the note was made, to be handed to another seat. It takes no memory.
#[derive(Drop)]
pub struct BoardNote {
    pub(crate) seat: Seat<(), Knowledge>,
}

impl Model for BoardNote {
    ghost use Rattle.std.specs.Prelude.{◌≡◌, []};
    ghost use Rattle.at_board.specs.Steps.Note.{IsNote};
    ghost use Rattle.at_board.specs.Knowledge.Seats.{SeatTerms};

    ghost Value = { SeatTerms };

    ghost view = { λ n. record { board = n.seat.table_id; knows = n.seat.me.0; steps = 0; exchanges = 0 } };

    ghost invariant = { λ n. (n.seat.me.1 ≡ []) × IsNote n.seat.me.0 };
}

impl Board {
    /// A copy of what the seat has seen, for another seat, in one step. It counts as an exchange, since it hands over what no
    /// word says.
    pub fn note(&self, seat: &mut BoardSeat) -> BoardNote
        requires board { IsOf seat.old self.now }
        ensures same { seat.new ≡ exchanged seat.old 1 }
        ensures board { result.board ≡ seat.old.board }
        ensures noted { result.knows ≡ noted seat.old.knows }
    {
        seat.made.count_exchange();
        self.make_note(seat)
    }

    /// Takes in a note, in one step, which counts as an exchange. The seat has then seen the longer of the two lists, of which
    /// both are prefixes.
    pub fn learn(&self, seat: &mut BoardSeat, note: BoardNote)
        requires board { IsOf seat.old self.now }
        requires note { IsOf note self.now }
        ensures learned { Learns self.now.book seat.old.knows note.knows seat.new.knows }
        ensures seat { IsKept seat.new.knows }
        ensures board { seat.new.board ≡ seat.old.board }
        ensures steps { seat.new.steps ≡ raised seat.old.steps 1 }
        ensures exchanges { seat.new.exchanges ≡ raised seat.old.exchanges 1 }
    {
        seat.made.count_exchange();
        self.take_in(seat, note);
    }

    /// The copy alone. Whether it counts as an exchange, its callers decide.
    fn make_note(&self, seat: &mut BoardSeat) -> BoardNote
        requires board { IsOf seat.old self.now }
        ensures same { seat.new ≡ seat.old }
        ensures board { result.board ≡ seat.old.board }
        ensures noted { result.knows ≡ noted seat.old.knows }
    {
        // Right here: what the seat has seen never changes, so a copy of it is right at every later moment. No word changes.
        BoardNote {
            seat: self.table.shared.split_seat::<Note>(&mut seat.seat),
        }
    }

    /// The taking in alone. Whether it counts as an exchange, its callers decide.
    pub(crate) fn take_in(&self, seat: &mut BoardSeat, note: BoardNote)
        requires board { IsOf seat.old self.now }
        requires note { IsOf note self.now }
        ensures learned { Learns self.now.book seat.old.knows note.knows seat.new.knows }
        ensures seat { IsKept seat.new.knows }
        ensures board { seat.new.board ≡ seat.old.board }
        ensures steps { seat.new.steps ≡ seat.old.steps }
        ensures exchanges { seat.new.exchanges ≡ seat.old.exchanges }
    {
        let shared = &self.table.shared;
        let BoardNote { seat: mut told } = note;
        // Right here: both lists are prefixes of the one list, whoever has published before, so the longer one has both.
        meet(shared, &mut seat.seat, &mut told);
        shared.join_seat::<Learn>(&mut seat.seat, told);
    }
}
