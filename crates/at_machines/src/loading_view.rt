//! A load of a record's view, a word a turn.

ghost use Rattle.std.specs.Prelude.{◌≡◌, ◌+◌, ◌<◌, ◌↔◌, IfSome, IsSome};
ghost use Rattle.at_machines.specs.Prelude.{stepped, SeesRecord, IsKept, IsOf, MayLoadWord, RECORD_WORDS, IsViewOf};
ghost use Rattle.at_machines.specs.Loading.{loading_after, starting_loading, view_step};

use arrayvec::ArrayVec;
use at_base::Counts;
use at_board::{Board, BoardSeat, BoardStep, BoardWord, LoadedRecordWord, RECORD_WORDS};
use std::marker::Model;
use std::snapshot::Snapshot;

/// A load of a view in the making: a load of each of its words, by rising number. It keeps the words as they were loaded until the
/// view is whole.
#[derive(Drop)]
pub struct LoadingView {
    process: u32,
    number: u32,
    /// How many words a view has.
    processes: u32,
    words: ArrayVec<LoadedRecordWord, 16>,
    /// The seat, for contracts alone. These loads leave it as it is.
    seat: Snapshot<BoardSeat>,
}

impl Model for LoadingView {
    ghost use Rattle.std.specs.Prelude.{◌≡◌};
    ghost use Rattle.at_machines.specs.Prelude.{RECORD_WORDS};
    ghost use Rattle.at_machines.specs.Loading.{LoadingTerms};

    ghost Value = { LoadingTerms };

    ghost use Rattle.at_machines.specs.Kept.{IsLoadingSo, loading_view_of};

    ghost view = { loading_view_of };

    ghost invariant = { λ l. (l.processes ≡ l.seat.value.knows.book.processes)
        × IsLoadingSo (loading_view_of l) RECORD_WORDS };
}

impl LoadingView {
    /// Starts a load of the view of record `i` of process `p`, in no step.
    pub fn start(board: &Board, seat: &BoardSeat, p: u32, i: u32) -> LoadingView
        requires board { IsOf seat.now board.now }
        requires record { SeesRecord seat.now.knows p i }
        ensures { result ≡ starting_loading seat.now.knows p i }
    {
        board.book().known();
        LoadingView {
            process: p,
            number: i,
            processes: board.book().processes(),
            words: ArrayVec::new(),
            seat: Snapshot::of(seat),
        }
    }

    /// The step that the next turn makes, if some word is left.
    pub fn next(&self) -> Option<BoardStep>
        ensures { result ≡ view_step self.now }
    {
        let loaded = self.words.len() as u32;
        if loaded == self.processes {
            return None;
        }
        Some(BoardStep::Load(BoardWord::Record {
            process: self.process,
            number: self.number,
            word: RECORD_WORDS + loaded,
        }))
    }

    /// Loads the next word of the view, in one step. After the last one it answers the view.
    pub fn turn(&mut self, board: &Board, seat: &mut BoardSeat) -> Option<Counts>
        requires board { IsOf seat.old board.now }
        requires mark { seat.old.knows ≡ self.old.knows }
        requires left { self.old.loaded < board.now.book.processes }
        ensures after { self.new ≡ loading_after self.old (RECORD_WORDS + self.old.loaded) }
        ensures ends { IsSome result ↔ (self.new.loaded ≡ board.now.book.processes) }
        ensures view { IfSome result (λ view. IsViewOf self.old.knows self.old.process
            self.old.number view) }
        ensures record { MayLoadWord board.now.book seat.old.knows self.old.process self.old.number
            (RECORD_WORDS + self.old.loaded) }
        ensures same { seat.new ≡ stepped seat.old 1 }
    {
        board.book().known();
        seat.known();
        let (p, i, q) = (self.process, self.number, self.words.len() as u32);
        let word = board.load_record_word(seat, p, i, RECORD_WORDS + q);
        self.words.push(word);
        if q + 1 < self.processes {
            return None;
        }
        Some(self.view())
    }

    /// The view that the words are of, which are all loaded.
    fn view(&self) -> Counts
        requires whole { self.now.loaded ≡ self.now.knows.book.processes }
        requires seat { IsKept self.now.knows }
        ensures { IsViewOf self.now.knows self.now.process self.now.number result }
    {
        let mut view = Counts::zeros(self.processes);
        for q in 0..self.processes {
            view.set(q, self.words[q as usize].value() as u32);
        }
        view
    }
}
