//! What an export answers, and what it leaves of a call.

ghost use Rattle.std.specs.Prelude.{◌≡◌};
ghost use Rattle.at_c.specs.Exports.{answer_with, outcome_number};

use at_ledger::Reply;

/// What came of an export.
#[derive(Clone, Copy, PartialEq, Eq)]
pub enum Outcome {
    /// It was done.
    Done,
    /// The handle holds no ledger or no caller, as the export wants one.
    WrongHandle,
    /// The handle that is to be filled holds something.
    InUse,
    /// There was no memory.
    NoMemory,
    /// The bytes spell no book.
    BadBook,
    /// All callers were handed out.
    NoCaller,
    /// The call names an account that isn't there.
    NoAccount,
    /// There is no room for the receipt of the call.
    NoRoom,
    /// It is no pay-out that has so many targets.
    NoPayOut,
    /// A caller wasn't given back.
    CallersOut,
    /// The book has no process of that number.
    NoProcess,
    /// The process has left no note.
    NoNote,
    /// Another thread just reaches for the same.
    Busy,
}

impl Outcome {
    /// The number of the outcome in C.
    pub(crate) fn number(self) -> u32
        ensures { result ≡ outcome_number self }
    {
        match self {
            Outcome::Done => 0,
            Outcome::WrongHandle => 1,
            Outcome::InUse => 2,
            Outcome::NoMemory => 3,
            Outcome::BadBook => 4,
            Outcome::NoCaller => 5,
            Outcome::NoAccount => 6,
            Outcome::NoRoom => 7,
            Outcome::NoPayOut => 8,
            Outcome::CallersOut => 9,
            Outcome::NoProcess => 10,
            Outcome::NoNote => 11,
            Outcome::Busy => 12,
        }
    }
}

/// What a call answered in C: the number of its reply, the balance that a read found and else 0, and how many steps and exchanges it
/// made.
#[repr(C)]
#[derive(Clone, Copy)]
pub struct Answer {
    pub reply: u32,
    pub balance: u64,
    pub steps: u64,
    pub exchanges: u64,
}

impl Answer {
    /// The answer of a call with this reply, and with so many steps and exchanges.
    pub(crate) fn of(reply: Reply, steps: u64, exchanges: u64) -> Answer
        ensures { result ≡ answer_with reply steps exchanges }
    {
        let (reply, balance) = match reply {
            Reply::Done => (0, 0),
            Reply::Short => (1, 0),
            Reply::NotOwner => (2, 0),
            Reply::Full => (3, 0),
            Reply::Balance(balance) => (4, balance),
        };
        Answer {
            reply,
            balance,
            steps,
            exchanges,
        }
    }
}
