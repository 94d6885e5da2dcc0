//! Seats of a board.

ghost use Rattle.std.specs.Prelude.{◌≡◌, ◌<◌, [], length};

use crate::counter::StepCounts;
use crate::knowledge::Knowledge;
use atomic_table::Seat;
use std::marker::Model;

/// The right of one process to make steps on a board, with what it has seen. One thread uses it at a time. A board is closed
/// with all its seats, so where one is dropped the board can't be closed.
#[derive(Drop)]
pub struct BoardSeat {
    pub(crate) seat: Seat<(), Knowledge>,
    pub(crate) process: u32,
    pub(crate) published: u32,
    /// How many requests the process has announced on each account.
    pub(crate) announced: Vec<u32>,
    pub(crate) made: StepCounts,
}

impl Model for BoardSeat {
    ghost use Rattle.std.specs.Prelude.{◌≡◌, []};
    ghost use Rattle.at_board.specs.Knowledge.Seats.{HasCounts};
    ghost use Rattle.at_board.specs.Knowledge.Seats.{IsSeat, SeatTerms};

    ghost Value = { SeatTerms };

    ghost view = { λ s. record {
      board = s.seat.table_id;
      knows = s.seat.me.0;
      steps = s.made.steps;
      exchanges = s.made.exchanges;
    } };

    ghost invariant = { λ s. (s.seat.me.1 ≡ []) × IsSeat s.seat.me.0 s.process s.published
        × HasCounts s.seat.me.0 s.announced.items };
}

impl BoardSeat {
    ghost use Rattle.at_board.specs.Knowledge.Seats.{IsSeat};
    ghost use Rattle.at_board.specs.Knowledge.Parts.{asking_on, own_part};
    ghost use Rattle.at_board.specs.Knowledge.Records.{SeesForms};
    ghost use Rattle.at_board.specs.Steps.Publish.{FitsNext};

    /// The process that the seat belongs to. The call makes no step. It tells a proof what the seat's type keeps.
    pub fn process(&self) -> u32
        ensures process { result ≡ self.now.knows.first }
        ensures seat { IsSeat self.now.knows result (own_part self.now.knows).published }
    {
        self.process
    }

    /// Tells a proof what the seat's type keeps between all steps. It makes no step, and does nothing when it runs.
    pub fn known(&self)
        ensures seat { IsSeat self.now.knows self.now.knows.first
            (own_part self.now.knows).published }
        ensures records { SeesForms self.now.knows }
        ensures next { FitsNext self.now.knows }
    {
        let _ = &self.process;
    }

    /// How many records the process has published. The call makes no step.
    pub fn published(&self) -> u32
        ensures { result ≡ (own_part self.now.knows).published }
    {
        self.published
    }

    /// How many steps the seat has made: atomic loads, stores and compare-exchanges of words, and notes made and taken in. At the
    /// largest number it stays. The call makes no step.
    pub fn steps(&self) -> u64
        ensures { result ≡ self.now.steps }
    {
        self.made.steps
    }

    /// How many of its steps were exchanges: compare-exchanges of a word, and notes made and taken in. At the largest number it stays.
    /// The call makes no step.
    pub fn exchanges(&self) -> u64
        ensures { result ≡ self.now.exchanges }
    {
        self.made.exchanges
    }

    /// How many requests the process has announced on an account. The call makes no step.
    pub fn announced(&self, account: u32) -> u32
        requires { account < length self.now.knows.book.accounts }
        ensures { result ≡ length (asking_on (own_part self.now.knows) account).announced }
    {
        self.announced[account as usize]
    }

    /// The seat of the table.
    pub(crate) fn into_seat(self) -> Seat<(), Knowledge>
        ensures table { result.table_id ≡ self.board }
        ensures empty { result.me.1 ≡ [] }
        ensures knows { result.me.0 ≡ self.knows }
        ensures one_part { length self.knows.parts ≡ 1 }
    {
        let BoardSeat {
            seat,
            process: _,
            published: _,
            announced: _,
            made: _,
        } = self;
        seat
    }
}
