//! The lines of a refusal, with the word of the file that is refused.

ghost use Rattle.std.specs.Prelude.{◌≡◌, ◌≢◌, ◌≤◌, true, option_map, slice_index_or};
ghost use Rattle.at_commands.specs.Refused.{TookLines, file_word, word_numbered, word_refused};
ghost use Rattle.at_commands.specs.Words.{asked_shown, words_of};

use crate::asked::Asked;
use crate::words::USAGE;
use at_io::{Sink, put_all};
use at_report::{Status, fault_text};

/// The word of this process's file, and of the further file where there are fewer processes.
fn process_word<'a>(files: &'a [String], further: &'a str, process: u32) -> &'a str
    ensures { result.now ≡ slice_index_or (words_of files.now) process further.now }
{
    match files.get(process as usize) {
        Some(word) => word.as_str(),
        None => further,
    }
}

/// The word of the file with this number.
fn word_numbered<'a>(book: &'a str, files: &'a [String], further: &'a str, file: u32) -> &'a str
    ensures { result.now ≡ word_numbered book.now (words_of files.now) further.now file }
{
    if file == 0 {
        book
    } else {
        process_word(files, further, file - 1)
    }
}

/// The word of the file that is refused so.
fn word_refused<'a>(
    book: &'a str,
    files: &'a [String],
    further: &'a str,
    status: &Status,
) -> &'a str
    ensures { result.now ≡ word_refused book.now (words_of files.now) further.now status.now }
{
    match status {
        Status::BadBook { .. } | Status::Usage(_) => book,
        Status::BadPayments { process, .. } | Status::BadMessages { process, .. } => {
            process_word(files, further, *process)
        }
        Status::ReadFault { file } | Status::TooLong { file } => {
            word_numbered(book, files, further, *file)
        }
        _ => further,
    }
}

/// The same among the words that ask for this.
fn file_word<'a>(asked: &Option<Asked<'a>>, status: &Status) -> &'a str
    ensures { result.now ≡ file_word (option_map asked_shown asked.now) status.now }
{
    match asked {
        Some(Asked::Files { form, .. }) => word_refused(form.book, form.files, "", status),
        Some(Asked::Further { form, .. }) => {
            word_refused(form.book, form.files, form.further, status)
        }
        _ => "",
    }
}

/// Writes the lines of a refusal of what was asked. A fault of the sink changes nothing: there is nobody left to tell.
pub fn tell<E: Sink>(err: &mut E, asked: &Option<Asked<'_>>, status: &Status)
    requires { status.now ≢ Status.Done }
    ensures later { E.faults err.old ≤ E.faults err.new }
    ensures as_told { E.tells err.new ≡ E.tells err.old }
    ensures told { E.tells err.old ≡ true
        → TookLines (option_map asked_shown asked.now) status.now (E.faults err.old)
        (E.faults err.new) (E.taken err.old) (E.taken err.new) }
{
    let text = fault_text(USAGE, file_word(asked, status), status);
    let _ = put_all(err, text.as_slice());
}
