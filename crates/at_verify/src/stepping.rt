//! The line of the journal that can come next.

ghost use Rattle.std.specs.Prelude.{◌≡◌, ℕ, ◌<◌, ◌≤◌, All, IfSome, Some, length, sum_by};
ghost use Rattle.at_verify.specs.Prelude.{step, Line, IsPlayable, contents_of, AreNamesOf, process_name, IsFirstWord, IsWord, AreWithinFiles, IsNextOfProcess, with_made};

use at_base::Counts;
use at_files::Names;
use at_ledger::{Book, Call, Line, State};
use at_report::process_of;

/// The next line of the process that the text names first, if it has a call left. The call is made, and counted.
pub(crate) fn next_line(
    book: &Book,
    names: &Names,
    files: &[Vec<Call>],
    state: &mut State,
    made: &mut Counts,
    text: &[u8],
) -> Option<Line>
    requires names { AreNamesOf book.now names.now }
    requires processes { length files.now ≡ book.now.processes }
    requires files { All (IsPlayable (length book.now.accounts)) (contents_of files.now) }
    requires book { state.old.book ≡ book.now }
    requires made { AreWithinFiles (contents_of files.now) made.old }
    ensures next { IfSome result (λ l. IsNextOfProcess (contents_of files.now) state.old made.old l) }
    ensures state { IfSome result (λ l. state.new ≡ (step state.old l.process l.call).ledger) }
    ensures made { IfSome result (λ l. made.new ≡ with_made made.old l.process) }
    ensures only { (l : Line) → IsNextOfProcess (contents_of files.now) state.old made.old l
        → IsFirstWord (process_name names.now l.process) text.now → result ≡ Some l }
    ensures words { (p : ℕ) → p < length files.now → IsWord (process_name names.now p) }
    ensures book { state.new.book ≡ book.now }
{
    let process = process_of(book, names, text)?;
    let before = made.get(process);
    let call = files[process as usize].get(before as usize)?;
    let reply = state.step(process, call);
    made.set(process, before + 1);
    Some(Line {
        process,
        number: before + 1,
        call: call.copy(),
        reply,
    })
}
