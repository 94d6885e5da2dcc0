//! A load of a record's entry, a word a turn.

ghost use Rattle.std.specs.Prelude.{◌≡◌, ◌+◌, ◌<◌, ◌↔◌, IfSome, IsSome};
ghost use Rattle.at_machines.specs.Prelude.{stepped, SeesForms, SeesRecord, IsOf, MayLoadWord, RECORD_WORDS, IsEntryOf};
ghost use Rattle.at_machines.specs.Loading.{entry_step, loading_after, starting_loading};

use arrayvec::ArrayVec;
use at_board::{
    Board, BoardSeat, BoardStep, BoardWord, Entry, LoadedRecordWord, RECORD_WORDS, entry_of,
};
use std::marker::Model;
use std::snapshot::Snapshot;

/// The words of an entry.
const ENTRY_WORDS: usize = RECORD_WORDS as usize;

/// A load of an entry in the making: a load of each of its words, by rising number. It keeps the words as they were loaded until
/// the entry is whole, so a word that was not loaded is not told, whatever is known of it.
#[derive(Drop)]
pub struct LoadingEntry {
    process: u32,
    number: u32,
    words: ArrayVec<LoadedRecordWord, ENTRY_WORDS>,
    /// The seat, for contracts alone. These loads leave it as it is.
    seat: Snapshot<BoardSeat>,
}

impl Model for LoadingEntry {
    ghost use Rattle.at_machines.specs.Loading.{LoadingTerms};

    ghost Value = { LoadingTerms };

    ghost use Rattle.at_machines.specs.Kept.{IsLoadingSo, loading_entry_of};

    ghost view = { loading_entry_of };

    ghost invariant = { λ l. IsLoadingSo (loading_entry_of l) 0 };
}

impl LoadingEntry {
    /// Starts a load of the entry of record `i` of process `p`, in no step.
    pub fn start(seat: &BoardSeat, p: u32, i: u32) -> LoadingEntry
        requires { SeesRecord seat.now.knows p i }
        ensures { result ≡ starting_loading seat.now.knows p i }
    {
        LoadingEntry {
            process: p,
            number: i,
            words: ArrayVec::new(),
            seat: Snapshot::of(seat),
        }
    }

    /// The step that the next turn makes, if some word is left.
    pub fn next(&self) -> Option<BoardStep>
        ensures { result ≡ entry_step self.now }
    {
        let loaded = self.words.len();
        if loaded == ENTRY_WORDS {
            return None;
        }
        Some(BoardStep::Load(BoardWord::Record {
            process: self.process,
            number: self.number,
            word: loaded as u32,
        }))
    }

    /// Loads the next word of the entry, in one step. After the last one it answers the entry.
    pub fn turn(&mut self, board: &Board, seat: &mut BoardSeat) -> Option<Entry>
        requires board { IsOf seat.old board.now }
        requires mark { seat.old.knows ≡ self.old.knows }
        requires left { self.old.loaded < RECORD_WORDS }
        ensures after { self.new ≡ loading_after self.old self.old.loaded }
        ensures ends { IsSome result ↔ (self.new.loaded ≡ RECORD_WORDS) }
        ensures entry { IfSome result (λ entry. IsEntryOf self.old.knows self.old.process
            self.old.number entry) }
        ensures record { MayLoadWord board.now.book seat.old.knows self.old.process self.old.number
            self.old.loaded }
        ensures same { seat.new ≡ stepped seat.old 1 }
    {
        board.book().known();
        seat.known();
        let (p, i, j) = (self.process, self.number, self.words.len());
        let word = board.load_record_word(seat, p, i, j as u32);
        self.words.push(word);
        if self.words.len() < ENTRY_WORDS {
            return None;
        }
        Some(self.entry())
    }

    /// The entry that the words are of, which are all loaded.
    fn entry(&self) -> Entry
        requires whole { self.now.loaded ≡ RECORD_WORDS }
        requires forms { SeesForms self.now.knows }
        ensures { IsEntryOf self.now.knows self.now.process self.now.number result }
    {
        let mut values = [0; ENTRY_WORDS];
        for j in 0..ENTRY_WORDS {
            values[j] = self.words[j].value();
        }
        entry_of(values)
    }
}
