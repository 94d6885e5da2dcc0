//! Asking, a store a turn.

ghost use Rattle.std.specs.Prelude.{◌≡◌, ℕ, ◌+◌, ◌<◌, ◌≤◌, ◌↔◌, length, IfSome, IsSome};
ghost use Rattle.at_machines.specs.Prelude.{raised, asking_on, own_part, IsOf, Announces, REQUEST_WORDS, HasSlot, HasAsked, HasLoadedNothing, MayAskFor, asked_for, opened};
ghost use Rattle.at_machines.specs.Asking.{AnnouncesAsked, StoresNextRequestWord, ask_step, asking_after, request_asked, starting_to_ask};

use at_board::{Board, BoardSeat, BoardStep, BoardWord, REQUEST_WORDS};
use at_ledger::Targets;
use at_requests::{OpenRequest, request_word};
use std::marker::Model;
use std::snapshot::Snapshot;

/// Asking in the making: a store of each word of the request, by rising number, and then the store that announces it.
#[derive(Drop)]
pub struct Asking {
    account: u32,
    targets: Targets,
    since: u32,
    stored: u32,
    /// The seat at the start, for contracts alone.
    start: Snapshot<BoardSeat>,
    /// The seat after the last turn.
    mark: Snapshot<BoardSeat>,
}

impl Model for Asking {
    ghost use Rattle.at_machines.specs.Asking.{AskingTerms};

    ghost Value = { AskingTerms };

    ghost use Rattle.at_machines.specs.KeptAsking.{IsAskingSo, asking_of};

    ghost view = { asking_of };

    ghost invariant = { λ a. IsAskingSo (asking_of a) };
}

impl Asking {
    /// Starts asking for these targets with this `since`, in no step.
    pub fn start(seat: &BoardSeat, account: u32, targets: Targets, since: u32) -> Asking
        requires { (slot : ℕ) × MayAskFor seat.now.knows.book seat.now.knows account slot
            (asked_for targets since) }
        ensures { result ≡ starting_to_ask seat.now.knows account targets since }
    {
        seat.known();
        Asking {
            account,
            targets,
            since,
            stored: 0,
            start: Snapshot::of(seat),
            mark: Snapshot::of(seat),
        }
    }

    /// The request, where it was announced with this number in this slot.
    pub fn opened(&self, slot: u32, number: u32) -> OpenRequest
        ensures { result ≡ opened slot number self.now.targets self.now.since }
    {
        OpenRequest {
            slot,
            number,
            targets: self.targets.copy(),
            since: self.since,
        }
    }

    /// The step that the next turn makes, if some store is left.
    pub fn next(&self, board: &Board, seat: &BoardSeat) -> Option<BoardStep>
        requires board { IsOf seat.now board.now }
        requires mark { seat.now.knows ≡ self.now.mark }
        ensures { result ≡ ask_step board.now.book self.now }
    {
        let account = self.account;
        let slot = board.book().slot_of(account, seat.process())?;
        if self.stored == REQUEST_WORDS + 1 {
            return None;
        }
        Some(BoardStep::Store(if self.stored == REQUEST_WORDS {
            BoardWord::Announced { account, slot }
        } else {
            BoardWord::Request {
                account,
                slot,
                number: seat.announced(account),
                word: self.stored,
            }
        }))
    }

    /// Stores the next word of the request, in one step, and announces it once all are stored. That turn answers its number among
    /// those of its slot.
    pub fn turn(&mut self, board: &Board, seat: &mut BoardSeat) -> Option<u32>
        requires board { IsOf seat.old board.now }
        requires mark { seat.old.knows ≡ self.old.mark }
        requires left { self.old.stored ≤ REQUEST_WORDS }
        ensures after { self.new ≡ asking_after self.old seat.new.knows }
        ensures word { self.old.stored < REQUEST_WORDS
            → StoresNextRequestWord board.now.book self.old seat.new.knows }
        ensures ends { IsSome result ↔ (self.old.stored ≡ REQUEST_WORDS) }
        ensures announces { IfSome result (λ number. AnnouncesAsked board.now.book self.old
            seat.new.knows) }
        ensures announced { IfSome result (λ number. (slot : ℕ)
            → HasSlot board.now.book self.old.start.first self.old.account slot
            → Announces board.now.book self.old.start seat.new.knows self.old.account slot
            (request_asked self.old)) }
        ensures number { IfSome result (λ number. number
            ≡ length (asking_on (own_part self.old.start) self.old.account).announced) }
        ensures own { IfSome result (λ number. (slot : ℕ)
            → HasSlot board.now.book self.old.start.first self.old.account slot
            → HasAsked board.now.book seat.new.knows self.old.account
            (opened slot number self.old.targets self.old.since)) }
        ensures nothing { IfSome result (λ number. HasLoadedNothing seat.new.knows
            self.old.account) }
        ensures board { IsOf seat.new board.now }
        ensures steps { seat.new.steps ≡ raised seat.old.steps 1 }
        ensures exchanges { seat.new.exchanges ≡ seat.old.exchanges }
    {
        if self.stored < REQUEST_WORDS {
            let word = request_word(&self.targets, self.since, self.stored);
            board.store_request_word(seat, self.account, self.stored, word);
            self.stored += 1;
            self.mark = Snapshot::of(seat);
            None
        } else {
            let number = board.announced(seat, self.account);
            board.announce(seat, self.account);
            self.stored += 1;
            self.mark = Snapshot::of(seat);
            Some(number)
        }
    }
}
