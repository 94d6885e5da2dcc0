//! A load of an announced request, a word a turn.

ghost use Rattle.std.specs.Prelude.{◌≡◌, ◌+◌, ◌<◌, ◌↔◌, IfSome, IsSome};
ghost use Rattle.at_machines.specs.Prelude.{raised, IsOf, KnowsOf, REQUEST_WORDS, LoadsRequest};
ghost use Rattle.at_machines.specs.LoadingRequest.{LoadsNextRequestWord, request_after, request_step, starting_request};

use at_board::{Board, BoardSeat, BoardStep, BoardWord, REQUEST_WORDS};
use at_requests::{OpenRequest, request_from};
use std::marker::Model;
use std::snapshot::Snapshot;

/// A load of an announced request in the making: a load of each of its words, by rising number.
#[derive(Drop)]
pub struct LoadingRequest {
    account: u32,
    slot: u32,
    number: u32,
    words: [u64; REQUEST_WORDS as usize],
    loaded: u32,
    /// The seat at the start, for contracts alone.
    start: Snapshot<BoardSeat>,
    /// The seat after the last turn.
    mark: Snapshot<BoardSeat>,
}

impl Model for LoadingRequest {
    ghost use Rattle.std.specs.Prelude.{◌≡◌, length};
    ghost use Rattle.at_machines.specs.Prelude.{REQUEST_WORDS};
    ghost use Rattle.at_machines.specs.LoadingRequest.{LoadingRequestTerms};

    ghost Value = { LoadingRequestTerms };

    ghost use Rattle.at_machines.specs.KeptRequests.{IsLoadingRequestSo, loading_request_of};

    ghost view = { loading_request_of };

    ghost invariant = { λ l. (length l.words ≡ REQUEST_WORDS)
        × IsLoadingRequestSo (loading_request_of l) l.words };
}

impl LoadingRequest {
    /// Starts a load of a request that the seat has seen, or that a decision names which it has seen, in no step.
    pub fn start(seat: &BoardSeat, account: u32, slot: u32, number: u32) -> LoadingRequest
        requires { KnowsOf seat.now.knows account slot number }
        ensures { result ≡ starting_request seat.now.knows account slot number }
    {
        seat.known();
        LoadingRequest {
            account,
            slot,
            number,
            words: [0; REQUEST_WORDS as usize],
            loaded: 0,
            start: Snapshot::of(seat),
            mark: Snapshot::of(seat),
        }
    }

    /// The step that the next turn makes, if some word is left.
    pub fn next(&self) -> Option<BoardStep>
        ensures { result ≡ request_step self.now }
    {
        if self.loaded == REQUEST_WORDS {
            return None;
        }
        Some(BoardStep::Load(BoardWord::Request {
            account: self.account,
            slot: self.slot,
            number: self.number,
            word: self.loaded,
        }))
    }

    /// Loads the next word of the request, in one step. After the last one it answers the request, whole as it was announced.
    pub fn turn(&mut self, board: &Board, seat: &mut BoardSeat) -> Option<OpenRequest>
        requires board { IsOf seat.old board.now }
        requires mark { seat.old.knows ≡ self.old.mark }
        requires left { self.old.loaded < REQUEST_WORDS }
        ensures after { self.new ≡ request_after self.old seat.new.knows }
        ensures load { LoadsNextRequestWord board.now.book self.old seat.new.knows }
        ensures ends { IsSome result ↔ (self.new.loaded ≡ REQUEST_WORDS) }
        ensures request { IfSome result (LoadsRequest board.now.book self.old.start seat.new.knows
            self.old.account self.old.slot self.old.number) }
        ensures board { IsOf seat.new board.now }
        ensures steps { seat.new.steps ≡ raised seat.old.steps 1 }
        ensures exchanges { seat.new.exchanges ≡ seat.old.exchanges }
    {
        let (a, s, i, j) = (self.account, self.slot, self.number, self.loaded);
        self.words[j as usize] = board.load_request_word(seat, a, s, i, j);
        self.loaded += 1;
        self.mark = Snapshot::of(seat);
        if self.loaded < REQUEST_WORDS {
            return None;
        }
        Some(request_from(s, i, self.words))
    }
}
