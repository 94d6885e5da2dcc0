//! All that the program does.

ghost use Rattle.std.specs.Prelude.{◌≡◌, ◌≢◌, ◌↔◌, ◌≤◌, true, None, option_map};
ghost use Rattle.at_commands.specs.Outcome.{found, outcome};
ghost use Rattle.at_commands.specs.Table.{Leaves, LeavesNoLedger, ReadsNothing};
ghost use Rattle.at_commands.specs.Words.{asked_shown, wanted_of, words_of};
ghost use Rattle.at_commands.specs.Refused.{TookLines};
ghost use Rattle.at_io.specs.Faults.{Rose};
ghost use Rattle.at_io.specs.Shelf.{SameFiles};

use at_commands::{Asked, answer, asked_by, tell};
use at_io::{Shelf, Sink};
use at_object::Closed;
use at_report::{Status, UsageFault};
use at_workers::Gate;
use std::alloc::Global;
use std::thread::Threads;

/// Writes the lines of a refusal of what was asked, and nothing where all is done.
fn tell_unless_done<E: Sink>(err: &mut E, asked: &Option<Asked<'_>>, status: &Status)
    ensures later { E.faults err.old ≤ E.faults err.new }
    ensures as_told { E.tells err.new ≡ E.tells err.old }
    ensures silent { status.now ≡ Status.Done → err.new ≡ err.old }
    ensures told { status.now ≢ Status.Done → E.tells err.old ≡ true
        → TookLines (option_map asked_shown asked.now) status.now (E.faults err.old)
        (E.faults err.new) (E.taken err.old) (E.taken err.new) }
{
    if *status != Status::Done {
        tell(err, asked, status);
    }
}

/// Does all that the program does: reads the files that the words name, one after another, or makes the calls that
/// they ask for, and writes the command's text to `out`, or the lines of the first refusal to `err`. The whole text is
/// made before the first write. `words` are those after the program's name. `run`, `make`, `costs` and `ledger` make the calls of all
/// processes at once on one ledger, by a thread for each process where threads can be had; the gate is told of each call.
/// `agree` makes those of a council so, and no gate is told. Under `Done` and a write fault they leave that ledger, closed,
/// in `kept`. `replay`, `trace` and `show` make the calls a step at a time, by the turns of a schedule, on this thread. The work grows
/// with the bytes of the files, or with the calls that are made; for `kinds` by a logarithm of the accounts more, for `needs` with the
/// accounts for each process, for `orders` with the stages that the orders go through, for `trace` with the turns, and for `show` with the turns times the processes.
pub fn serve<R: Threads + Sync, F: Shelf, O: Sink, E: Sink, G: Gate + Sync>(
    rt: &R,
    alloc: Global,
    words: &[String],
    shelf: &mut F,
    out: &mut O,
    err: &mut E,
    gate: &G,
    kept: &mut Option<Closed>,
) -> Status
    requires { kept.old ≡ None }
    ensures files { SameFiles (F.tells shelf.old) (F.tells shelf.new) (F.file shelf.old)
        (F.file shelf.new) }
    ensures later { (F.faults shelf.old ≤ F.faults shelf.new)
        × (O.faults out.old ≤ O.faults out.new) × (E.faults err.old ≤ E.faults err.new) }
    ensures as_told { (O.tells out.new ≡ O.tells out.old) × (E.tells err.new ≡ E.tells err.old) }

    // The words are refused exactly where they have the form of no command.
    ensures words { (result ≡ Status.Usage UsageFault.Words)
        ↔ (wanted_of (words_of words.now) ≡ None) }

    // The theorem: what the words' command leaves. Its field `written` says that what was written is the text that the command promises
    // (`promised`) of what was loaded, which is what the files' bytes spell where the shelf tells them. For `run` that is the report of a
    // journal that is one legal run of the calls, however the threads' steps fell (`ReportsRun`).
    ensures answered { Leaves (wanted_of (words_of words.now))
        (found F.tells F.file F.faults shelf.old shelf.new)
        (outcome O.tells O.taken O.faults out.old out.new kept.new result) }

    // Words that name no file leave the shelf as it was, and those whose text is of no closed ledger leave none.
    ensures unread { ReadsNothing (wanted_of (words_of words.now)) → shelf.new ≡ shelf.old }
    ensures no_ledger { LeavesNoLedger (wanted_of (words_of words.now)) → kept.new ≡ None }

    // What faults were counted, and what a refusal leaves.
    ensures done_kept { result ≡ Status.Done
        → (F.faults shelf.new ≡ F.faults shelf.old) × (O.faults out.new ≡ O.faults out.old) }
    ensures write_fault { result ≡ Status.WriteFault
        → Rose (O.faults out.old) (O.faults out.new) × (F.faults shelf.new ≡ F.faults shelf.old) }
    ensures untouched { result ≢ Status.Done → result ≢ Status.WriteFault
        → (out.new ≡ out.old) × (kept.new ≡ None) }

    // What was said of a refusal.
    ensures silent { result ≡ Status.Done → err.new ≡ err.old }
    ensures told { result ≢ Status.Done → E.tells err.old ≡ true
        → TookLines (wanted_of (words_of words.now)) result (E.faults err.old)
        (E.faults err.new) (E.taken err.old) (E.taken err.new) }
{
    let asked = asked_by(words);
    let status = answer(rt, alloc, &asked, shelf, out, gate, kept);
    tell_unless_done(err, &asked, &status);
    status
}
