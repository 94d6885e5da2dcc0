//! Notes and overviews: what one pass has seen, handed to another, and what the passes of one caller have seen.

ghost use Rattle.std.specs.Prelude.{◌≡◌, ℕ, ◌+◌, List};
ghost use Rattle.at_object.specs.Prelude.{raised, IsOverviewOf, LearnsOverview, IsOf, AreRuns, IsPrefix, longer, Receipt, decides_on};
ghost use Rattle.at_object.specs.Parted.{IsOfOnePass, pass_of};
ghost use Rattle.at_object.specs.Passes.{IsPassOf, Stands, asked_by, sent_by};

use crate::ledger::Ledger;
use crate::parts::Rest;
use crate::pass::Pass;
use at_board::{Board, BoardNote, BoardSeat, Overview};
use std::marker::Model;

/// What a pass had seen when the note was made, to be handed to another pass. It takes no memory.
#[derive(Drop)]
pub struct Note {
    note: BoardNote,
}

impl Model for Note {
    ghost use Rattle.at_object.specs.Prelude.{SeatTerms};

    ghost Value = { SeatTerms };

    ghost view = { λ n. n.note };
}

impl Ledger {
    /// A note of what the pass has seen, for another pass. It counts as an exchange, since it hands over what no word says. Takes no
    /// memory.
    pub fn note(&self, pass: &mut Pass) -> Note
        requires pass { IsPassOf pass.old self.now }
        ensures note { IsOf result self.now }
        ensures process { result.knows.first ≡ pass.old.knows.first }
        ensures seen { result.knows.seen ≡ pass.old.knows.seen }
        ensures same { pass.new ≡ record pass.old {
          steps = raised pass.old.steps 1;
          exchanges = raised pass.old.exchanges 1;
        } }
    {
        Note {
            note: self.board.note(&mut pass.seat),
        }
    }

    /// Takes in a note, so that the pass's later calls come after all that the note has seen. It counts as an exchange. Takes no
    /// memory.
    pub fn learn(&self, pass: &mut Pass, note: Note)
        requires pass { IsPassOf pass.old self.now }
        requires note { IsOf note self.now }
        ensures learned { pass.new.knows.seen ≡ longer pass.old.knows.seen note.knows.seen }
        ensures begins { IsPrefix pass.old.knows.seen pass.new.knows.seen }
        ensures told { IsPrefix note.knows.seen pass.new.knows.seen }
        ensures stands { (receipts : List Receipt) → Stands pass.old receipts
            → Stands pass.new receipts }
        ensures runs { AreRuns self.now.book pass.new.knows.seen }
        ensures pass { IsPassOf pass.new self.now }
        ensures process { pass.new.knows.first ≡ pass.old.knows.first }
        ensures calls { pass.new.calls ≡ pass.old.calls }
        ensures past { pass.new.past ≡ pass.old.past }
        ensures sent { sent_by pass.new ≡ sent_by pass.old }
        ensures asked { (a : ℕ) → asked_by pass.new a ≡ asked_by pass.old a }
        ensures counted { pass.new.counted ≡ pass.old.counted }
        ensures steps { pass.new.steps ≡ raised pass.old.steps 1 }
        ensures exchanges { pass.new.exchanges ≡ raised pass.old.exchanges 1 }
    {
        pass.seat.known();
        self.board.learn(&mut pass.seat, note.note);
    }
}

/// Takes in all that an overview has, for a pass that was taken apart, between two calls, so that its later calls come after all of
/// it. It is no step. Takes no memory.
pub fn learn_overview(board: &Board, seat: &mut BoardSeat, rest: &Rest, overview: &mut Overview)
    requires board { IsOf seat.old board.now }
    requires overview { IsOverviewOf overview.old board.now }
    requires pass { IsOfOnePass seat.old rest.now }
    ensures learned { LearnsOverview board.now.book seat.old.knows overview.old.seen seat.new.knows }
    ensures stands { (receipts : List Receipt) → Stands (pass_of seat.old rest.now) receipts
        → Stands (pass_of seat.new rest.now) receipts }
    ensures pass { IsOfOnePass seat.new rest.now }
    ensures board { IsOf seat.new board.now }
    ensures sent { sent_by (pass_of seat.new rest.now) ≡ sent_by (pass_of seat.old rest.now) }
    ensures asked { (a : ℕ) → asked_by (pass_of seat.new rest.now) a
        ≡ asked_by (pass_of seat.old rest.now) a }
    ensures decides { (a : ℕ) → decides_on seat.new.knows a ≡ decides_on seat.old.knows a }
    ensures steps { seat.new.steps ≡ seat.old.steps }
    ensures exchanges { seat.new.exchanges ≡ seat.old.exchanges }
    ensures same { overview.new ≡ overview.old }
{
    seat.known();
    board.learn_overview(seat, overview);
}
