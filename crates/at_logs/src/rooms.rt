//! Room for the credits that messages will bring.

ghost use Rattle.std.specs.Prelude.{◌≡◌, ℕ, ◌+◌, ◌<◌, ◌≤◌, All, OnOk, [], drop, length, slice_index, sum_by};
ghost use Rattle.at_logs.specs.Prelude.{IsMessageOn};
ghost use Rattle.at_logs.specs.Compact.{backlog_of, kept_of, named_among, needed, room_of, state_of};

use crate::backlog::Backlog;
use crate::compact::make_room_to;
use at_broadcast::{LogBook, LogCounts};
use std::alloc::AllocError;

/// Makes room for the credits of a log's messages from a position on. Where memory runs out some of it is made.
fn make_room_from(
    backlogs: &mut [Backlog],
    book: &LogBook,
    p: u32,
    from: usize,
) -> Result<(), AllocError>
    requires log_in { p < book.now.logs }
    requires sized { length backlogs.old ≡ book.now.logs }
    requires known { All (IsMessageOn book.now.logs (length book.now.accounts)) (backlog_of (kept_of backlogs.old) p).messages }
    ensures kept { kept_of backlogs.new ≡ kept_of backlogs.old }
    ensures more { (q : ℕ) → room_of backlogs.old q ≤ room_of backlogs.new q }
    ensures ok { OnOk result ((q : ℕ) → q < book.now.logs
        → room_of backlogs.old q + sum_by (λ m. named_among book.now q m.targets) (drop from (backlog_of (kept_of backlogs.old) p).messages)
        ≤ room_of backlogs.new q) }
{
    for i in from..backlogs[p as usize].len() {
        let targets = backlogs[p as usize].targets(i);
        make_room_to(backlogs, book, &targets)?;
    }
    Ok(())
}

/// Makes room for the credits of all messages that wait. Where memory runs out some of it is made.
pub(crate) fn make_room_waiting(
    backlogs: &mut [Backlog],
    book: &LogBook,
    validated: &LogCounts,
    told: &LogCounts,
) -> Result<(), AllocError>
    requires sized { length backlogs.old ≡ book.now.logs }
    requires counted { length validated.now ≡ book.now.logs }
    requires told_counted { length told.now ≡ book.now.logs }
    requires told { (p : ℕ) → p < book.now.logs → slice_index told.now p ≤ slice_index validated.now p }
    requires known { (p : ℕ) → p < book.now.logs
        → All (IsMessageOn book.now.logs (length book.now.accounts)) (backlog_of (kept_of backlogs.old) p).messages }
    ensures kept { kept_of backlogs.new ≡ kept_of backlogs.old }
    ensures ok { OnOk result ((q : ℕ) → q < book.now.logs
        → needed (state_of book.now validated.now told.now [] [] backlogs.old) q ≤ room_of backlogs.new q) }
{
    for p in 0..book.logs() {
        let from = (validated.get(p) - told.get(p)) as usize;
        make_room_from(backlogs, book, p, from)?;
    }
    Ok(())
}
