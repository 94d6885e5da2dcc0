//! The table of the calls, and the journal.

ghost use Rattle.std.specs.Prelude.{◌≡◌, ◌<◌, [], ◌∷◌, ◌++◌, All, OnOk, decimal, length};
ghost use Rattle.at_pages.specs.Prelude.{IsCallOn, IsLineOn, IsPlayable, contents_of, AreNamesOf, call_fields, reply_field};
ghost use Rattle.at_pages.specs.Bars.{spanned_call};
ghost use Rattle.at_pages.specs.Tables.{bound_cells, bound_cells_of, bound_words, call_cells, cells_text, count_cells, item_text, items_text, row_text, rows_text};

use crate::bars::push_reply;
use crate::files::file_of;
use crate::parts::push_size;
use crate::spans::Span;
use at_files::Names;
use at_ledger::{Book, Call, Line, Reply};
use at_report::push_line;
use at_tables::{call_word, kind_of, kind_word, most_exchanges, most_steps};
use std::alloc::AllocError;

/// Adds a cell of a word.
fn push_cell(out: &mut Vec<u8>, word: &[u8]) -> Result<(), AllocError>
    ensures { OnOk result (out.new.items ≡ out.old.items ++ cells_text (word.now ∷ [])) }
{
    out.extend_from_slice(b"<td>")?;
    out.extend_from_slice(word)?;
    out.extend_from_slice(b"</td>")
}

/// Adds a cell of a number.
fn push_number_cell(out: &mut Vec<u8>, n: u128) -> Result<(), AllocError>
    ensures { OnOk result (out.new.items ≡ out.old.items ++ cells_text (decimal n ∷ [])) }
{
    out.extend_from_slice(b"<td>")?;
    push_size(out, n)?;
    out.extend_from_slice(b"</td>")
}

/// Adds a cell of a reply.
fn push_reply_cell(out: &mut Vec<u8>, reply: Option<Reply>) -> Result<(), AllocError>
    ensures { OnOk result (out.new.items ≡ out.old.items ++ cells_text (reply_field reply ∷ [])) }
{
    out.extend_from_slice(b"<td>")?;
    push_reply(out, reply)?;
    out.extend_from_slice(b"</td>")
}

/// Adds the cells of a call: what is called, the account that it names first, and its kind.
fn push_fields(
    out: &mut Vec<u8>,
    book: &Book,
    names: &Names,
    process: u32,
    call: &Call,
) -> Result<(), AllocError>
    requires names { length names.now.accounts ≡ length book.now.accounts }
    requires call { IsCallOn (length book.now.accounts) call.now }
    ensures { OnOk result (out.new.items
        ≡ out.old.items ++ cells_text (call_fields book.now names.now process call.now)) }
{
    push_cell(out, call_word(call))?;
    push_cell(out, names.account(call.first_account()))?;
    push_cell(out, kind_word(kind_of(book, process, call)))?;
    Ok(())
}

/// Adds the cells of the call of these turns, if the files have it.
fn push_call_cells(
    out: &mut Vec<u8>,
    book: &Book,
    names: &Names,
    files: &[Vec<Call>],
    span: &Span,
) -> Result<(), AllocError>
    requires names { length names.now.accounts ≡ length book.now.accounts }
    requires process { span.now.process < length files.now }
    requires files { All (IsPlayable (length book.now.accounts)) (contents_of files.now) }
    ensures { OnOk result (out.new.items ≡ out.old.items ++ cells_text
        (call_cells book.now names.now span.now.process (spanned_call (contents_of files.now) span.now))) }
{
    let file = file_of(files, span.process);
    let number = span.number;
    if number < file.len() {
        push_fields(out, book, names, span.process, &file[number])
    } else {
        Ok(())
    }
}

/// Adds the cells of what was counted of the call.
fn push_count_cells(out: &mut Vec<u8>, span: &Span) -> Result<(), AllocError>
    ensures { OnOk result (out.new.items ≡ out.old.items ++ cells_text (count_cells span.now)) }
{
    push_number_cell(out, span.steps as u128)?;
    push_number_cell(out, span.exchanges as u128)?;
    push_number_cell(out, span.new_records as u128)?;
    Ok(())
}

/// Adds the cells of the most that a call may cost.
fn push_bounds(
    out: &mut Vec<u8>,
    book: &Book,
    call: &Call,
    new_records: usize,
    reply: Reply,
) -> Result<(), AllocError>
    requires { IsCallOn (length book.now.accounts) call.now }
    ensures { OnOk result (out.new.items
        ≡ out.old.items ++ cells_text (bound_words book.now call.now new_records reply)) }
{
    push_number_cell(out, most_steps(book, call, reply, new_records as u64))?;
    push_number_cell(out, u128::from(most_exchanges(book, call, reply)))?;
    Ok(())
}

/// The same, if it was answered.
fn push_bounds_if(
    out: &mut Vec<u8>,
    book: &Book,
    call: &Call,
    new_records: usize,
    reply: Option<Reply>,
) -> Result<(), AllocError>
    requires { IsCallOn (length book.now.accounts) call.now }
    ensures { OnOk result (out.new.items
        ≡ out.old.items ++ cells_text (bound_cells_of book.now call.now new_records reply)) }
{
    match reply {
        None => Ok(()),
        Some(reply) => push_bounds(out, book, call, new_records, reply),
    }
}

/// The same of the call of these turns, if the files have it.
fn push_bound_cells(
    out: &mut Vec<u8>,
    book: &Book,
    files: &[Vec<Call>],
    span: &Span,
) -> Result<(), AllocError>
    requires process { span.now.process < length files.now }
    requires files { All (IsPlayable (length book.now.accounts)) (contents_of files.now) }
    ensures { OnOk result (out.new.items ≡ out.old.items ++ cells_text (bound_cells book.now
        (spanned_call (contents_of files.now) span.now) span.now.new_records span.now.reply)) }
{
    let file = file_of(files, span.process);
    let number = span.number;
    if number < file.len() {
        push_bounds_if(out, book, &file[number], span.new_records, span.reply)
    } else {
        Ok(())
    }
}

/// Adds the row of a call.
fn push_row(
    out: &mut Vec<u8>,
    book: &Book,
    names: &Names,
    files: &[Vec<Call>],
    span: &Span,
) -> Result<(), AllocError>
    requires names { AreNamesOf book.now names.now }
    requires count { length files.now ≡ book.now.processes }
    requires process { span.now.process < length files.now }
    requires files { All (IsPlayable (length book.now.accounts)) (contents_of files.now) }
    ensures { OnOk result (out.new.items
        ≡ out.old.items ++ row_text book.now names.now (contents_of files.now) span.now) }
{
    out.extend_from_slice(b"<tr>")?;
    push_cell(out, names.process(span.process))?;
    push_number_cell(out, span.number as u128 + 1)?;
    push_call_cells(out, book, names, files, span)?;
    push_reply_cell(out, span.reply)?;
    push_count_cells(out, span)?;
    push_bound_cells(out, book, files, span)?;
    out.extend_from_slice(b"</tr>\n")?;
    Ok(())
}

/// Adds the rows of all calls.
pub(crate) fn push_rows(
    out: &mut Vec<u8>,
    book: &Book,
    names: &Names,
    files: &[Vec<Call>],
    spans: &[Span],
) -> Result<(), AllocError>
    requires names { AreNamesOf book.now names.now }
    requires count { length files.now ≡ book.now.processes }
    requires process { All (λ s. s.process < length files.now) spans.now }
    requires files { All (IsPlayable (length book.now.accounts)) (contents_of files.now) }
    ensures { OnOk result (out.new.items
        ≡ out.old.items ++ rows_text book.now names.now (contents_of files.now) spans.now) }
{
    for span in spans {
        push_row(out, book, names, files, span)?;
    }
    Ok(())
}

/// Adds a line of the journal.
fn push_item(out: &mut Vec<u8>, names: &Names, line: &Line) -> Result<(), AllocError>
    requires { IsLineOn (length names.now.processes) (length names.now.accounts) line.now }
    ensures { OnOk result (out.new.items ≡ out.old.items ++ item_text names.now line.now) }
{
    out.extend_from_slice(b"<li>")?;
    push_line(out, names, line)?;
    out.extend_from_slice(b"</li>\n")
}

/// Adds the lines of the journal.
pub(crate) fn push_items(out: &mut Vec<u8>, names: &Names, lines: &[Line]) -> Result<(), AllocError>
    requires { All (IsLineOn (length names.now.processes) (length names.now.accounts)) lines.now }
    ensures { OnOk result (out.new.items ≡ out.old.items ++ items_text names.now lines.now) }
{
    for line in lines {
        push_item(out, names, line)?;
    }
    Ok(())
}
