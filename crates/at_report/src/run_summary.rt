//! The summary of a run.

ghost use Rattle.std.specs.Prelude.{◌≡◌, ◌∷◌, [], length, All, IfOk, codes, decimal};
ghost use Rattle.at_report.specs.Prelude.{IsLineOn};
ghost use Rattle.at_report.specs.Lines.{line_text, lines_text};
ghost use Rattle.at_report.specs.Summary.{done_in, is_done_reply, is_read, made_lines, read_in, summary_text};

use crate::lines::{push_number, push_numbered};
use crate::run_report::push_end;
use at_files::Names;
use at_ledger::{Book, Call, Line, Reply};
use std::alloc::{AllocError, Global};

fn is_done_reply(reply: Reply) -> bool
    ensures { result ≡ is_done_reply reply }
{
    match reply {
        Reply::Done => true,
        Reply::Short | Reply::NotOwner | Reply::Full | Reply::Balance(_) => false,
    }
}

fn is_read(call: &Call) -> bool
    ensures { result ≡ is_read call.now }
{
    match call {
        Call::Read { .. } => true,
        Call::Transfer { .. } | Call::Pay { .. } => false,
    }
}

/// How many lines have the reply `Done`.
fn done_in(lines: &[Line]) -> u64
    ensures { result ≡ done_in lines.now }
{
    lines
        .iter()
        .filter(|line| is_done_reply(line.reply))
        .count() as u64
}

/// How many lines are reads.
fn read_in(lines: &[Line]) -> u64
    ensures { result ≡ read_in lines.now }
{
    lines.iter().filter(|line| is_read(&line.call)).count() as u64
}

/// The line that says what was made.
fn made_line(alloc: Global, first: u64, processes: u32, calls: u32) -> Result<Vec<u8>, AllocError>
    ensures { IfOk result
        (λ text. text.items ≡ line_text
        (codes "made" ∷ decimal first ∷ decimal processes ∷ decimal calls ∷ [])) }
{
    let mut out = Vec::from_slice(alloc, b"made")?;
    push_number(&mut out, first)?;
    push_number(&mut out, u64::from(processes))?;
    push_number(&mut out, u64::from(calls))?;
    out.push(b'\n')?;
    Ok(out)
}

/// What was made of these lines, how many of them succeeded, and how many are reads.
fn made_lines(
    alloc: Global,
    lines: &[Line],
    first: u64,
    processes: u32,
    calls: u32,
) -> Result<Vec<u8>, AllocError>
    ensures { IfOk result
        (λ text. text.items ≡ lines_text
        (made_lines first processes calls (done_in lines.now) (read_in lines.now))) }
{
    let mut out = made_line(alloc, first, processes, calls)?;
    push_numbered(&mut out, b"done", done_in(lines))?;
    push_numbered(&mut out, b"read", read_in(lines))?;
    Ok(out)
}

/// The summary of a list of lines that were made from the number `first`, with `calls` calls for each process: how
/// many of them succeeded and how many are reads, and the balances and the total after all of them. The text grows
/// with the accounts alone, and the work with lines and accounts.
pub fn summary(
    alloc: Global,
    book: &Book,
    lines: &[Line],
    first: u64,
    calls: u32,
) -> Result<Vec<u8>, AllocError>
    requires { All (IsLineOn book.now.processes (length book.now.accounts)) lines.now }
    ensures { IfOk result (λ text. text.items ≡ summary_text book.now lines.now first calls) }
{
    let mut out = made_lines(alloc, lines, first, book.processes(), calls)?;
    let names = Names::plain(alloc, book)?;
    push_end(alloc, &mut out, book, &names, &lines)?;
    Ok(out)
}
