//! The state after the lines of a run.

ghost use Rattle.std.specs.Prelude.{◌≡◌, length, All, IfOk};
ghost use Rattle.at_report.specs.Prelude.{IsLineOn, last_state};

use crate::line_at::Journal;
use at_ledger::{Book, State};
use std::alloc::{AllocError, Global};

/// Makes the calls of the lines again, from the openings.
pub fn replay<J: Journal>(alloc: Global, book: &Book, journal: &J) -> Result<State, AllocError>
    requires { All (IsLineOn book.now.processes (length book.now.accounts)) (J.lines journal.now) }
    ensures last { IfOk result (λ s. s ≡ last_state book.now (J.lines journal.now)) }
    ensures book { IfOk result (λ s. s.book ≡ book.now) }
{
    let mut state = State::new(alloc, book)?;
    for i in 0..journal.len() {
        let line = journal.line(i);
        let _ = state.step(line.process, line.call);
    }
    Ok(state)
}
