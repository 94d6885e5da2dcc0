//! An append, a store a turn.

ghost use Rattle.std.specs.Prelude.{◌≡◌, ◌+◌, ◌<◌, ◌≤◌, ◌↔◌, IsTrue};
ghost use Rattle.at_machines.specs.Prelude.{raised, IsOf, Publishes, record_width, MayAppend, IsLast};
ghost use Rattle.at_machines.specs.Appending.{StoresNextWord, append_step, appending_after, publication_of, starting_appending};

use at_board::{Board, BoardSeat, BoardStep, BoardWord, Entry, RECORD_WORDS, record_word};
use at_log::Record;
use std::marker::Model;
use std::snapshot::Snapshot;

/// An append in the making: a store of each word of the record, by rising number, and then the store that publishes it.
#[derive(Drop)]
pub struct Appending {
    rec: Record,
    stored: u32,
    /// The seat at the start, for contracts alone.
    start: Snapshot<BoardSeat>,
    /// The seat after the last turn.
    mark: Snapshot<BoardSeat>,
}

impl Model for Appending {
    ghost use Rattle.at_machines.specs.Appending.{AppendingTerms};

    ghost Value = { AppendingTerms };

    ghost use Rattle.at_machines.specs.Kept.{IsAppendingSo, appending_of};

    ghost view = { appending_of };

    ghost invariant = { λ a. IsAppendingSo (appending_of a) };
}

impl Appending {
    /// Starts an append of a record, in no step.
    pub fn start(seat: &BoardSeat, rec: Record) -> Appending
        requires { MayAppend seat.now.knows.book seat.now.knows rec }
        ensures { result ≡ starting_appending seat.now.knows rec }
    {
        seat.known();
        Appending {
            rec,
            stored: 0,
            start: Snapshot::of(seat),
            mark: Snapshot::of(seat),
        }
    }

    /// The entry of the record.
    pub fn entry(&self) -> &Entry
        ensures { result.now ≡ self.now.rec.entry }
    {
        &self.rec.entry
    }

    /// The step that the next turn makes, if some store is left.
    pub fn next(&self, board: &Board, seat: &BoardSeat) -> Option<BoardStep>
        requires board { IsOf seat.now board.now }
        requires mark { seat.now.knows ≡ self.now.mark }
        ensures { result ≡ append_step board.now.book self.now }
    {
        board.book().known();
        let width = RECORD_WORDS + board.book().processes();
        if self.stored == width + 1 {
            return None;
        }
        let process = seat.process();
        Some(BoardStep::Store(if self.stored == width {
            BoardWord::Length { process }
        } else {
            BoardWord::Record {
                process,
                number: seat.published(),
                word: self.stored,
            }
        }))
    }

    /// Stores the next word of the record, in one step, and publishes it once all are stored. Whether this turn has published it.
    pub fn turn(&mut self, board: &Board, seat: &mut BoardSeat) -> bool
        requires board { IsOf seat.old board.now }
        requires mark { seat.old.knows ≡ self.old.mark }
        requires left { self.old.stored ≤ record_width board.now.book }
        ensures after { self.new ≡ appending_after self.old seat.new.knows }
        ensures word { self.old.stored < record_width board.now.book
            → StoresNextWord self.old seat.new.knows }
        ensures ends { IsTrue result ↔ (self.old.stored ≡ record_width board.now.book) }
        ensures publishes { IsTrue result → Publishes board.now.book self.old.mark seat.new.knows
            (publication_of self.old) }
        ensures published { IsTrue result → Publishes board.now.book self.old.start seat.new.knows
            (publication_of self.old) }
        ensures last { IsTrue result → IsLast self.old.start seat.new.knows
            (publication_of self.old) }
        ensures board { IsOf seat.new board.now }
        ensures steps { seat.new.steps ≡ raised seat.old.steps 1 }
        ensures exchanges { seat.new.exchanges ≡ seat.old.exchanges }
    {
        board.book().known();
        seat.known();
        if self.stored < RECORD_WORDS + board.book().processes() {
            let word = record_word(&self.rec.entry, &self.rec.view, self.stored);
            board.store_record_word(seat, self.stored, word);
            self.stored += 1;
            self.mark = Snapshot::of(seat);
            false
        } else {
            board.publish(seat);
            self.stored += 1;
            self.mark = Snapshot::of(seat);
            true
        }
    }
}
