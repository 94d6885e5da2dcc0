//! A process that makes its calls one after another, a step a turn.

ghost use Rattle.std.specs.Prelude.{◌≡◌, ◌^◌, ◌<◌, ◌==◌, [], IfSome, IsSome, None, length};
ghost use Rattle.at_stepper.specs.Prelude.{IsPrefix, IsOverviewOf, TakesIn, IsOf, first_step, refusal_in, IsCallOn, calls_of, HasMemoryFor, IsOfOnePass, pass_of, IsPassOf, Stands, past_receipts, seat_of};
ghost use Rattle.at_stepper.specs.Callers.{HasLearned, IsFile, IsNewCaller, IsNextOf, IsTurned, calls_left_of, own_seen};
ghost use Rattle.at_stepper.specs.KeptCallers.{StartsNext, TakesTurn};

use crate::turned::Turned;
use at_board::{Board, BoardSeat, BoardStep, Overview};
use at_calling::Calling;
use at_ledger::Call;
use at_log::{At, Receipt};
use at_machines::become_next;
use at_object::{Pass, Rest, learn_overview};
use std::marker::Model;

/// What a caller begins with: the pass of its process, and the memory for the receipts of its calls.
#[derive(Drop)]
pub(crate) struct Start {
    pub(crate) pass: Pass,
    pub(crate) receipts: Vec<Receipt>,
}

/// The call in the making, and none between two calls. What holds it has a call where it drops it, and not the drop of each stage, so
/// that its proof is short.
struct Making {
    calling: Option<Calling>,
}

impl Drop for Making {
    fn drop(self) {
        let Making { calling: _ } = self;
    }
}

/// The calls of one process, made one after another, a step a turn. It has the memory for the receipts of all calls.
#[derive(Drop)]
pub(crate) struct Caller {
    seat: BoardSeat,
    rest: Rest,
    calls: Vec<Call>,
    receipts: Vec<Receipt>,
    making: Making,
}

impl Model for Caller {
    ghost use Rattle.at_stepper.specs.Prelude.{vec_capacity};
    ghost use Rattle.at_stepper.specs.Callers.{CallerTerms};
    ghost use Rattle.at_stepper.specs.KeptCallers.{IsCallerOf, caller_of};

    ghost Value = { CallerTerms };

    ghost view = { λ c. caller_of c.seat c.rest c.calls.items c.receipts.items c.making.calling };

    ghost invariant = { λ c. IsCallerOf c.seat c.rest c.calls.items c.receipts.items c.making.calling
        (vec_capacity c.receipts) };
}

impl Caller {
    /// The caller of a process that has made no call yet.
    pub(crate) fn new(start: Start, calls: Vec<Call>) -> Caller
        requires stands { Stands start.pass [] }
        requires unmade { start.pass.past ≡ [] }
        requires file { IsFile (length start.pass.knows.book.accounts) calls.items }
        requires room { HasMemoryFor start.receipts (length calls.items) }
        ensures { IsNewCaller start.pass calls.items result }
    {
        let Start { pass, receipts } = start;
        let (seat, rest) = pass.into_parts();
        Caller {
            seat,
            rest,
            calls,
            receipts,
            making: Making { calling: None },
        }
    }

    /// Whether all calls are answered.
    pub(crate) fn is_idle(&self) -> bool
        ensures { result ≡ (calls_left_of self.now == 0) }
    {
        self.receipts.len() == self.calls.len()
    }

    /// The step that the next turn makes. Where no call is in the making it is the first one of the next call, which doesn't depend on what
    /// the seat sees as that begins.
    pub(crate) fn next(&self, board: &Board) -> Option<BoardStep>
        requires board { IsOf self.now.seat board.now }
        requires left { 0 < calls_left_of self.now }
        ensures { IsNextOf board.now.book self.now result }
    {
        match &self.making.calling {
            Some(calling) => calling.next(board, &self.seat),
            None => {
                let call = self.calls[self.receipts.len()].copy();
                step_of_first_turn(board, &self.seat, &self.rest, call)
            }
        }
    }

    /// Makes the next turn. Where no call is in the making, the next one begins with it, once the seat has seen all that the overview has.
    pub(crate) fn next_turn(&mut self, board: &Board, overview: &mut Overview) -> Turned
        requires board { IsOf self.old.seat board.now }
        requires overview { IsOverviewOf overview.old board.now }
        requires seen { IsPrefix self.old.seat.knows.seen overview.old.seen }
        requires between { self.old.stage ≡ None → seat_of self.old.pass ≡ self.old.seat }
        requires left { 0 < calls_left_of self.old }
        ensures turned { IsTurned board.now.book overview.old.seen result self.old self.new }
        ensures process { self.new.seat.knows.first ≡ self.old.seat.knows.first }
        ensures stands { Stands self.new.pass self.new.receipts }
        ensures between { self.new.stage ≡ None → seat_of self.new.pass ≡ self.new.seat }
        ensures pass { IsPassOf self.old.pass board.now → IsPassOf self.new.pass board.now }
        ensures board { IsOf self.new.seat board.now }
        ensures same { overview.new ≡ overview.old }
    {
        if self.making.calling.is_some() {
            return self.turn(board, overview);
        }
        self.learn(board, overview);
        self.begin(board);
        self.turn(board, overview)
    }

    /// Has an overview take in what the seat has seen. It is no step.
    pub(crate) fn show(&mut self, board: &Board, overview: &mut Overview)
        requires board { IsOf self.old.seat board.now }
        requires overview { IsOverviewOf overview.old board.now }
        ensures added { TakesIn board.now.book overview.old.seen self.old.seat.knows overview.new.seen }
        ensures overview { IsOverviewOf overview.new board.now }
        ensures same { self.new ≡ self.old }
    {
        board.add_to_overview(overview, &mut self.seat);
    }

    /// What the seat has seen, as an overview. It is no step.
    pub(crate) fn overview(&mut self, board: &Board) -> Overview
        requires board { IsOf self.old.seat board.now }
        ensures seen { result.seen ≡ self.old.seat.knows.seen }
        ensures board { IsOverviewOf result board.now }
        ensures same { self.new ≡ self.old }
    {
        board.overview(&mut self.seat)
    }

    /// How many records the process has published.
    pub(crate) fn published(&self) -> u32
        ensures { result ≡ own_seen self.now }
    {
        self.seat.known();
        self.seat.published()
    }

    /// Takes in all that an overview has, between two calls. It is no step.
    fn learn(&mut self, board: &Board, overview: &mut Overview)
        requires board { IsOf self.old.seat board.now }
        requires overview { IsOverviewOf overview.old board.now }
        requires seen { IsPrefix self.old.seat.knows.seen overview.old.seen }
        requires between { self.old.stage ≡ None }
        ensures learned { HasLearned self.old self.new }
        ensures own { own_seen self.new ≡ own_seen self.old }
        ensures process { self.new.seat.knows.first ≡ self.old.seat.knows.first }
        ensures seen { self.new.pass.knows.seen ≡ overview.old.seen }
        ensures board { IsOf self.new.seat board.now }
        ensures same { overview.new ≡ overview.old }
    {
        learn_overview(board, &mut self.seat, &self.rest, overview);
    }

    /// Begins the next call, in no step. It is made as the pass says.
    fn begin(&mut self, board: &Board)
        requires board { IsOf self.old.seat board.now }
        requires between { self.old.stage ≡ None }
        requires left { 0 < calls_left_of self.old }
        ensures { StartsNext board.now.book self.old self.new }
    {
        self.seat.known();
        let call = self.calls[self.receipts.len()].copy();
        let calling = Some(Calling::start(board, &self.seat, &self.rest, call));
        become_next(&mut self.making, Making { calling });
    }

    /// Makes the next step of the call in the making. Where this ends the call, its receipt is kept and answered.
    fn turn(&mut self, board: &Board, overview: &mut Overview) -> Turned
        requires board { IsOf self.old.seat board.now }
        requires overview { IsOverviewOf overview.old board.now }
        requires in_making { IsSome self.old.stage }
        ensures turned { IfSome self.old.stage
            (TakesTurn board.now.book overview.old.seen self.old self.new result) }
        ensures process { self.new.seat.knows.first ≡ self.old.seat.knows.first }
        ensures pass { IsPassOf self.old.pass board.now → IsPassOf self.new.pass board.now }
        ensures board { IsOf self.new.seat board.now }
        ensures same { overview.new ≡ overview.old }
    {
        self.seat.known();
        let Some(calling) = &mut self.making.calling else {
            // A call is in the making.
            unreachable!()
        };
        let made = calling.turn(board, &mut self.seat, overview, &mut self.rest);
        self.seat.known();
        let Some(receipt) = made else {
            return Turned::Step;
        };
        let answer = copy_of(&receipt);
        self.receipts.push_reserved(receipt);
        become_next(&mut self.making, Making { calling: None });
        Turned::Answer(answer)
    }

    /// The pass and the receipts, where all calls are answered.
    pub(crate) fn split(self) -> (Pass, Vec<Receipt>)
        requires { calls_left_of self ≡ 0 }
        ensures pass { result.0 ≡ self.pass }
        ensures receipts { result.1.items ≡ self.receipts }
        ensures between { seat_of self.pass ≡ self.seat }
        ensures stands { Stands self.pass self.receipts }
        ensures past { past_receipts self.pass ≡ self.receipts }
        ensures made { calls_of self.receipts ≡ self.calls }
        ensures few { length self.receipts < 2 ^ 32 }
    {
        let Caller {
            seat,
            rest,
            calls: _,
            receipts,
            making: _,
        } = self;
        (Pass::from_parts(seat, rest), receipts)
    }
}

/// The step of a call's first turn. The call itself is not begun.
fn step_of_first_turn(board: &Board, seat: &BoardSeat, rest: &Rest, call: Call) -> Option<BoardStep>
    requires board { IsOf seat.now board.now }
    requires pass { IsOfOnePass seat.now rest.now }
    requires call { IsCallOn (length board.now.book.accounts) call }
    ensures { result ≡ first_step (refusal_in board.now.book (pass_of seat.now rest.now) call) }
{
    let calling = Calling::start(board, seat, rest, call);
    calling.next(board, seat)
}

/// The same receipt. Takes no memory.
fn copy_of(receipt: &Receipt) -> Receipt
    ensures { result ≡ receipt.now }
{
    Receipt {
        call: receipt.call.copy(),
        reply: receipt.reply,
        at: copy_of_place(&receipt.at),
    }
}

/// The same place. Takes no memory.
fn copy_of_place(at: &At) -> At
    ensures { result ≡ at.now }
{
    match at {
        At::Cut(counts) => At::Cut(counts.copy()),
        At::Own(number) => At::Own(*number),
        At::Round { round, place } => At::Round {
            round: *round,
            place: *place,
        },
        At::Previous => At::Previous,
    }
}
