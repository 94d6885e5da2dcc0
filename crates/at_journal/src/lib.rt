//! The journal of a coherent closing: its calls in one legal order.
//!
//! `journal` answers every receipt of the closing once, as a line, and the lines are a run of the ledger. `journal_calls` answers
//! their order alone. Both need the closing alone, and take time in proportion to the number of its records and receipts.
//!
//! The definitions read best in this order: `Calls` and `Linearizable`, which the clauses name; `Held`, `Order`, `Positions`,
//! `Ordered`, how the lines come about.
#![tactic(auto)]

mod by_threads;
mod calls;
mod cuts;
mod keyed;
mod lines;
mod named_cuts;
mod order;
mod positions;

ghost use Rattle.std.specs.Prelude.{◌≡◌, ℕ, ◌^◌, ◌<◌, length, All, IfOk};
ghost use Rattle.at_journal.specs.Prelude.{Legal, Whole, last_state, balance_of, balance_after, Coherent, journal_lines, journal_order};
ghost use Rattle.at_journal.specs.Calls.{calls_in};
ghost use Rattle.at_journal.specs.Linearizable.{AreTimed, CallTimes, IsLinearizable};

pub use crate::by_threads::journal_calls_by_threads;
pub use crate::calls::journal_calls;
pub use crate::keyed::CallAt;
use crate::lines::lines;
use at_ledger::{Book, Line};
use at_log::Closing;
use std::alloc::{AllocError, Global};

/// The receipts of a closing as lines, in one order in which the ledger answers each call as it was answered.
///
/// Each line stands where its receipt stands among the publications: a read at its cut, a success behind its own record or
/// the first record of its round, and a reply without a place with the call before it. Lines that stand at one place come
/// by process, and those of a process in the order of its calls.
pub fn journal(alloc: Global, book: &Book, closing: &Closing) -> Result<Vec<Line>, AllocError>
    requires coherent { Coherent book.now closing.now }
    requires few { All (λ receipts. length receipts < 2 ^ 32) closing.now.receipts }
    ensures lines { IfOk result (λ lines. lines.items ≡ journal_lines closing.now) }
    ensures whole { IfOk result (λ lines. Whole (calls_in closing.now) lines.items) }
    ensures legal { IfOk result (λ lines. Legal book.now lines.items) }
    ensures balances { IfOk result (λ lines. (a : ℕ) → a < length book.now.accounts
        → balance_of (last_state book.now lines.items) a
        ≡ balance_after book.now (journal_order closing.now) a) }
    ensures linearizable { IfOk result (λ lines. (times : CallTimes) → AreTimed closing.now times
        → IsLinearizable book.now (calls_in closing.now) times lines.items) }
{
    book.known();
    let calls = journal_calls(alloc, book, closing)?;
    lines(alloc, closing, calls.as_slice())
}
