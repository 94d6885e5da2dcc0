//! The report of a run, made by several threads.

ghost use Rattle.at_report.specs.Prelude.{IsSync, IsLineOn, last_state, Line, AreNamesOf};
ghost use Rattle.std.specs.Prelude.{◌≡◌, ◌^◌, ◌<◌, ◌≤◌, List, length, All, IfOk};
ghost use Rattle.at_report.specs.Lines.{line_text, lines_text};
ghost use Rattle.at_report.specs.Pieces.{LeadsOn};
ghost use Rattle.at_report.specs.Report.{IsPrinted, audit_lines, heading_words, report_text};

use crate::line_at::Journal;
use crate::lines::push_line_at;
use crate::pieces::Pieces;
use crate::run_report::{push_end, push_heading};
use at_files::Names;
use at_ledger::Book;
use std::alloc::{AllocError, Global};
use std::thread::{Threads, join};

/// How many bytes a line has, with few exceptions. Room that nothing comes to lie in costs nothing, since no byte of it is touched.
const LINE_ROOM: usize = 48;

/// The lines from one number up to another.
fn some_lines<J: Journal>(
    alloc: Global,
    names: &Names,
    journal: &J,
    from: usize,
    to: usize,
) -> Result<Vec<u8>, AllocError>
    requires lines { All (IsLineOn (length names.now.processes) (length names.now.accounts))
        (J.lines journal.now) }
    requires order { from ≤ to }
    requires within { to ≤ length (J.lines journal.now) }
    ensures { IfOk result (λ text. LeadsOn names.now (J.lines journal.now) from to text.items) }
{
    let mut out = Vec::with_capacity(alloc, (to - from).saturating_mul(LINE_ROOM))?;
    for i in from..to {
        push_line_at(&mut out, names, &journal.line(i))?;
    }
    Ok(out)
}

/// The lines from one number up to another, in two halves by two threads.
fn halves<R: Threads + Sync, J: Journal + Sync>(
    rt: &R,
    alloc: Global,
    names: &Names,
    journal: &J,
    from: usize,
    to: usize,
) -> Result<Pieces, AllocError>
    requires lines { All (IsLineOn (length names.now.processes) (length names.now.accounts))
        (J.lines journal.now) }
    requires order { from ≤ to }
    requires within { to ≤ length (J.lines journal.now) }
    ensures { IfOk result (λ text. LeadsOn names.now (J.lines journal.now) from to text) }
{
    let middle = from + (to - from) / 2;
    let (first, second) = join(
        rt,
        move || some_lines(alloc, names, journal, from, middle),
        move || some_lines(alloc, names, journal, middle, to),
    );
    let mut pieces = Pieces::one(alloc, first?)?;
    pieces.push(second?)?;
    Ok(pieces)
}

/// All lines, in four quarters by four threads.
fn quarters<R: Threads + Sync, J: Journal + Sync>(
    rt: &R,
    alloc: Global,
    names: &Names,
    journal: &J,
) -> Result<Pieces, AllocError>
    requires { All (IsLineOn (length names.now.processes) (length names.now.accounts))
        (J.lines journal.now) }
    ensures { IfOk result
        (λ text. LeadsOn names.now (J.lines journal.now) 0 (length (J.lines journal.now)) text) }
{
    let count = journal.len();
    let middle = count / 2;
    let (first, second) = join(
        rt,
        move || -> Result<Pieces, AllocError>
            requires { IsSync R.row × IsSync J.row × All
                (IsLineOn (length names.now.processes) (length names.now.accounts))
                (J.lines journal.now) × (middle ≤ length (J.lines journal.now)) }
            ensures { IfOk result
                (λ text. LeadsOn names.entry.now (J.lines journal.entry.now) 0 middle text) }
        { halves(rt, alloc, names, journal, 0, middle) },
        move || -> Result<Pieces, AllocError>
            requires { IsSync R.row × IsSync J.row × All
                (IsLineOn (length names.now.processes) (length names.now.accounts))
                (J.lines journal.now) × (middle ≤ count) × (count ≤ length (J.lines journal.now)) }
            ensures { IfOk result
                (λ text. LeadsOn names.entry.now (J.lines journal.entry.now) middle count text) }
        { halves(rt, alloc, names, journal, middle, count) },
    );
    let mut pieces = first?;
    pieces.append(second?)?;
    Ok(pieces)
}

/// The first line of a report of so many lines.
fn heading(alloc: Global, count: usize) -> Result<Vec<u8>, AllocError>
    ensures { IfOk result (λ text. text.items ≡ line_text (heading_words count)) }
{
    let mut out = Vec::new(alloc);
    push_heading(&mut out, count as u64)?;
    Ok(out)
}

/// The end of a report of these lines.
fn end<J: Journal>(
    alloc: Global,
    book: &Book,
    names: &Names,
    journal: &J,
) -> Result<Vec<u8>, AllocError>
    requires names { length names.now.accounts ≡ length book.now.accounts }
    requires lines { All (IsLineOn book.now.processes (length book.now.accounts))
        (J.lines journal.now) }
    ensures { IfOk result (λ text. text.items
        ≡ lines_text (audit_lines names.now (last_state book.now (J.lines journal.now)))) }
{
    let mut out = Vec::new(alloc);
    push_end(alloc, &mut out, book, names, journal)?;
    Ok(out)
}

/// The report in pieces. Its end is made beside its lines.
fn report_in_pieces<R: Threads + Sync, J: Journal + Sync>(
    rt: &R,
    alloc: Global,
    book: &Book,
    names: &Names,
    journal: &J,
) -> Result<Pieces, AllocError>
    requires names { AreNamesOf book.now names.now }
    requires lines { All (IsLineOn book.now.processes (length book.now.accounts))
        (J.lines journal.now) }
    ensures { IfOk result
        (λ text. text ≡ report_text book.now names.now (J.lines journal.now)) }
{
    let (ending, lines) = join(
        rt,
        move || end(alloc, book, names, journal),
        move || -> Result<Pieces, AllocError>
            requires { IsSync R.row × IsSync J.row × All
                (IsLineOn (length names.now.processes) (length names.now.accounts))
                (J.lines journal.now) }
            ensures { IfOk result
                (λ text. LeadsOn names.entry.now (J.lines journal.entry.now) 0
                (length (J.lines journal.entry.now)) text) }
        { quarters(rt, alloc, names, journal) },
    );
    let mut pieces = Pieces::one(alloc, heading(alloc, journal.len())?)?;
    pieces.append(lines?)?;
    pieces.push(ending?)?;
    Ok(pieces)
}

/// The report of lines that stand elsewhere: the journal, and the balances and the total after all its lines. `names` are
/// the book's. No other list of lines has this report. The text takes some 40 bytes for each line, and the work grows with
/// lines and accounts alone. Four threads make the lines and a fifth the balances, where threads can be had.
pub fn journal_report<R: Threads + Sync, J: Journal + Sync>(
    rt: &R,
    alloc: Global,
    book: &Book,
    names: &Names,
    journal: &J,
) -> Result<Pieces, AllocError>
    requires names { AreNamesOf book.now names.now }
    requires lines { All (IsLineOn book.now.processes (length book.now.accounts))
        (J.lines journal.now) }
    ensures text { IfOk result
        (λ text. text ≡ report_text book.now names.now (J.lines journal.now)) }
    ensures spells { IfOk result (λ text. (others : List Line) → length others < 2 ^ 64
        → All (IsPrinted book.now) (J.lines journal.now) → All (IsPrinted book.now) others
        → text ≡ report_text book.now names.now others → J.lines journal.now ≡ others) }
{
    let _known = book.accounts();
    let _known = journal.len();
    let text = report_in_pieces(rt, alloc, book, names, journal)?;
    Ok(text)
}
