//! The report of a run, and the lines of a check, of a verified report and of an agreement.

ghost use Rattle.std.specs.Prelude.{◌≡◌, ◌^◌, ◌<◌, ◌++◌, List, length, All, IfOk, OnOk, OnErr};
ghost use Rattle.at_report.specs.Prelude.{StartsWith, IsLineOn, last_state, Line, AreNamesOf};
ghost use Rattle.at_report.specs.Lines.{line_text, lines_text};
ghost use Rattle.at_report.specs.Report.{IsPrinted, agreed_line, audit_lines, balance_lines, checked_line, heading_words, printed_journal, report_text, verified_line};

use crate::line_at::Journal;
use crate::lines::{all_or_nothing, push_line_at, push_number, push_numbered};
use crate::replaying::replay;
use at_files::Names;
use at_ledger::{Book, Line, State};
use std::alloc::{AllocError, Global};

/// Adds the name and the balance of each account.
fn push_balances(
    out: &mut Vec<u8>,
    book: &Book,
    names: &Names,
    state: &State,
) -> Result<(), AllocError>
    requires book { state.now.book ≡ book.now }
    requires names { length names.now.accounts ≡ length book.now.accounts }
    ensures text { OnOk result
        (out.new.items ≡ out.old.items ++ lines_text (balance_lines names.now state.now)) }
    ensures begun { OnErr result (StartsWith out.new.items out.old.items) }
{
    for account in 0..book.accounts() {
        push_numbered(out, names.account(account), state.balance(account))?;
    }
    Ok(())
}

/// Adds how many accounts there are, the balance of each, and their total.
fn push_audit_lines(
    out: &mut Vec<u8>,
    book: &Book,
    names: &Names,
    state: &State,
) -> Result<(), AllocError>
    requires book { state.now.book ≡ book.now }
    requires names { length names.now.accounts ≡ length book.now.accounts }
    ensures text { OnOk result
        (out.new.items ≡ out.old.items ++ lines_text (audit_lines names.now state.now)) }
    ensures begun { OnErr result (StartsWith out.new.items out.old.items) }
{
    push_numbered(out, b"balances", u64::from(book.accounts()))?;
    push_balances(out, book, names, state)?;
    push_numbered(out, b"total", state.total())
}

/// Adds the end of a report: how many accounts there are, the balance of each, and their total.
pub fn push_audit(
    out: &mut Vec<u8>,
    book: &Book,
    names: &Names,
    state: &State,
) -> Result<(), AllocError>
    requires book { state.now.book ≡ book.now }
    requires names { length names.now.accounts ≡ length book.now.accounts }
    ensures text { OnOk result
        (out.new.items ≡ out.old.items ++ lines_text (audit_lines names.now state.now)) }
    ensures kept { OnErr result (out.new.items ≡ out.old.items) }
{
    let length = out.len();
    let added = push_audit_lines(out, book, names, state);
    all_or_nothing(out, length, added)
}

/// Adds the end of a report of these lines: what is left after all of them.
pub(crate) fn push_end<J: Journal>(
    alloc: Global,
    out: &mut Vec<u8>,
    book: &Book,
    names: &Names,
    journal: &J,
) -> Result<(), AllocError>
    requires names { length names.now.accounts ≡ length book.now.accounts }
    requires lines { All (IsLineOn book.now.processes (length book.now.accounts))
        (J.lines journal.now) }
    ensures { OnOk result
        (out.new.items ≡ out.old.items ++ lines_text
        (audit_lines names.now (last_state book.now (J.lines journal.now)))) }
{
    let state = replay(alloc, book, journal)?;
    push_audit(out, book, names, &state)
}

/// Adds the first line of a report: how many lines its journal has.
pub fn push_heading(out: &mut Vec<u8>, lines: u64) -> Result<(), AllocError>
    ensures text { OnOk result (out.new.items ≡ out.old.items ++ line_text (heading_words lines)) }
    ensures kept { OnErr result (out.new.items ≡ out.old.items) }
{
    let length = out.len();
    let added = push_numbered(out, b"journal", lines);
    all_or_nothing(out, length, added)
}

/// Adds how many lines there are, and then each of them.
fn push_journal<J: Journal>(out: &mut Vec<u8>, names: &Names, journal: &J) -> Result<(), AllocError>
    requires { All (IsLineOn (length names.now.processes) (length names.now.accounts))
        (J.lines journal.now) }
    ensures { OnOk result
        (out.new.items ≡ out.old.items ++ lines_text
        (printed_journal names.now (J.lines journal.now))) }
{
    push_heading(out, journal.len() as u64)?;
    for i in 0..journal.len() {
        push_line_at(out, names, &journal.line(i))?;
    }
    Ok(())
}

/// The bytes of the report.
fn write_report<J: Journal>(
    alloc: Global,
    book: &Book,
    names: &Names,
    journal: &J,
) -> Result<Vec<u8>, AllocError>
    requires names { AreNamesOf book.now names.now }
    requires lines { All (IsLineOn book.now.processes (length book.now.accounts))
        (J.lines journal.now) }
    ensures { IfOk result
        (λ text. text.items ≡ report_text book.now names.now (J.lines journal.now)) }
{
    let mut out = Vec::new(alloc);
    push_journal(&mut out, names, journal)?;
    push_end(alloc, &mut out, book, names, journal)?;
    Ok(out)
}

/// The report of a list of lines: the journal, and the balances and the total after all its lines. `names` are the book's. No other
/// list of lines has this report. The text takes some 40 bytes for each line, and the work grows with lines and accounts alone.
pub fn report(
    alloc: Global,
    book: &Book,
    names: &Names,
    lines: &[Line],
) -> Result<Vec<u8>, AllocError>
    requires names { AreNamesOf book.now names.now }
    requires lines { All (IsLineOn book.now.processes (length book.now.accounts)) lines.now }
    ensures text { IfOk result (λ text. text.items ≡ report_text book.now names.now lines.now) }
    ensures spells { IfOk result (λ text. (others : List Line) → length others < 2 ^ 64
        → All (IsPrinted book.now) lines.now → All (IsPrinted book.now) others
        → text.items ≡ report_text book.now names.now others → lines.now ≡ others) }
{
    let _known = book.accounts();
    let _known = lines.len();
    let text = write_report(alloc, book, names, &lines)?;
    Ok(text)
}

/// The line of a check: how many processes and accounts the book has, and how many calls its files have together.
pub fn checked_text(alloc: Global, book: &Book, calls: u32) -> Result<Vec<u8>, AllocError>
    ensures { IfOk result (λ text. text.items ≡ checked_line book.now calls) }
{
    let mut out = Vec::from_slice(alloc, b"checked")?;
    push_number(&mut out, u64::from(book.processes()))?;
    push_number(&mut out, u64::from(book.accounts()))?;
    push_number(&mut out, u64::from(calls))?;
    out.push(b'\n')?;
    Ok(out)
}

/// The line of a report that was verified: how many lines its journal has.
pub fn verified_text(alloc: Global, lines: u32) -> Result<Vec<u8>, AllocError>
    ensures { IfOk result (λ text. text.items ≡ verified_line lines) }
{
    let mut out = Vec::from_slice(alloc, b"verified")?;
    push_number(&mut out, u64::from(lines))?;
    out.push(b'\n')?;
    Ok(out)
}

/// The line of an agreement: how many values were proposed, and the one that all agreed on.
pub fn agreed_text(alloc: Global, count: u32, value: u64) -> Result<Vec<u8>, AllocError>
    ensures { IfOk result (λ text. text.items ≡ agreed_line count value) }
{
    let mut out = Vec::from_slice(alloc, b"agreed")?;
    push_number(&mut out, u64::from(count))?;
    push_number(&mut out, value)?;
    out.push(b'\n')?;
    Ok(out)
}
