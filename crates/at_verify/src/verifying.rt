//! Whether a text is the report of a run.

ghost use Rattle.std.specs.Prelude.{◌≡◌, ◌≤◌, ℕ, All, IfOk, IfSome, Ok, Option, Some, None, [], drop, length, replicate, sum_by};
ghost use Rattle.at_verify.specs.Prelude.{opening_state, IsPlayable, contents_of, AreNamesOf, AreWithinFiles, ReportLine};
ghost use Rattle.at_verify.specs.Right.{IsExpected, IsFirstWrong, IsReport, IsReportOf, IsUnmatched, newlines};
ghost use Rattle.at_verify.specs.Walk.{GoesOnWith, IsUnmatchedAt, PartsAt};
ghost use Rattle.at_verify.specs.declared.place.Place.{Place};

use crate::comparing::{common, difference, newlines};
use crate::expecting::expected_line;
use crate::place::Place;
use crate::stepping::next_line;
use at_base::Counts;
use at_files::{Names, count_calls};
use at_ledger::{Book, Call, State};
use at_report::{ReportLine, push_audit, push_heading, push_line};
use std::alloc::{AllocError, Global};

/// The most bytes of a text that is verified.
pub const TEXT_MAX: usize = 8_388_608;

/// What is said of a text.
#[derive(Clone, Copy, Debug, PartialEq, Eq)]
pub enum Verdict {
    /// It is the report of a run of the files.
    Yes,
    /// It isn't, and this is its first wrong line, counted from 1. Where the text ends and every report goes on, that
    /// is the line after its last one. `expected` is a line with which some report goes on in its place. There is none
    /// where the reports end before that line, and where the line names no process first that has a call left.
    No {
        line: u32,
        expected: Option<ReportLine>,
    },
}

/// Where no report goes on as the text does, or nothing where the text is a report. No call is made yet, and `expected`
/// takes each line that can come next. At the end it has what a report goes on with where the text parts from it.
fn walk(
    book: &Book,
    names: &Names,
    files: &[Vec<Call>],
    state: &mut State,
    made: &mut Counts,
    expected: &mut Vec<u8>,
    text: &[u8],
) -> Result<Option<Place>, AllocError>
    requires names { AreNamesOf book.now names.now }
    requires processes { length files.now ≡ book.now.processes }
    requires files { All (IsPlayable (length book.now.accounts)) (contents_of files.now) }
    requires state { state.old ≡ opening_state book.now }
    requires made { made.old ≡ replicate book.now.processes 0 }
    requires expected { expected.old.items ≡ [] }
    ensures report { result ≡ Ok None → IsReport book.now names.now (contents_of files.now) text.now }
    ensures parts { (p : Place) → result ≡ Ok (Some p)
        → PartsAt book.now names.now (contents_of files.now) text.now p.at }
    ensures rest { (p : Place) → result ≡ Ok (Some p) → p.rest ≤ length expected.new.items }
    ensures goes_on { (p : Place) → result ≡ Ok (Some p)
        → GoesOnWith book.now names.now (contents_of files.now) text.now p.at
        (drop p.rest expected.new.items) }
    ensures unmatched { (p : Place) → result ≡ Ok (Some p)
        → newlines (drop p.rest expected.new.items) ≡ 0
        → IsUnmatchedAt book.now names.now (contents_of files.now) text.now p.at }
{
    book.known();
    let calls = count_calls(files);
    push_heading(expected, u64::from(calls))?;
    let mut at = common(text, expected.as_slice());
    if at < expected.len() {
        return Ok(Some(Place { at, rest: at }));
    }
    for _turn in 0..calls {
        let Some(line) = next_line(book, names, files, state, made, &text[at..]) else {
            expected.clear();
            return Ok(Some(Place { at, rest: 0 }));
        };
        expected.clear();
        push_line(expected, names, &line)?;
        let same = common(&text[at..], expected.as_slice());
        at += same;
        if same < expected.len() {
            return Ok(Some(Place { at, rest: same }));
        }
    }
    expected.clear();
    push_audit(expected, book, names, state)?;
    match difference(&text[at..], expected.as_slice()) {
        Some(same) => Ok(Some(Place {
            at: at + same,
            rest: same,
        })),
        None => Ok(None),
    }
}

/// The same from a new ledger.
fn parting(
    alloc: Global,
    book: &Book,
    names: &Names,
    files: &[Vec<Call>],
    expected: &mut Vec<u8>,
    text: &[u8],
) -> Result<Option<Place>, AllocError>
    requires names { AreNamesOf book.now names.now }
    requires processes { length files.now ≡ book.now.processes }
    requires files { All (IsPlayable (length book.now.accounts)) (contents_of files.now) }
    requires expected { expected.old.items ≡ [] }
    ensures report { result ≡ Ok None → IsReport book.now names.now (contents_of files.now) text.now }
    ensures parts { (p : Place) → result ≡ Ok (Some p)
        → PartsAt book.now names.now (contents_of files.now) text.now p.at }
    ensures rest { (p : Place) → result ≡ Ok (Some p) → p.rest ≤ length expected.new.items }
    ensures goes_on { (p : Place) → result ≡ Ok (Some p)
        → GoesOnWith book.now names.now (contents_of files.now) text.now p.at
        (drop p.rest expected.new.items) }
    ensures unmatched { (p : Place) → result ≡ Ok (Some p)
        → newlines (drop p.rest expected.new.items) ≡ 0
        → IsUnmatchedAt book.now names.now (contents_of files.now) text.now p.at }
{
    let mut state = State::new(alloc, book)?;
    let mut made = Counts::zeros(book.processes());
    walk(book, names, files, &mut state, &mut made, expected, text)
}

/// Whether the text is the report of a run of the files, and if it isn't its first wrong line and what was expected there. `names` are the book's,
/// and there is a file for each process. The work grows with the bytes and the calls alone, and the memory with the
/// book.
pub fn verify(
    alloc: Global,
    book: &Book,
    names: &Names,
    files: &[Vec<Call>],
    text: &[u8],
) -> Result<Verdict, AllocError>
    requires names { AreNamesOf book.now names.now }
    requires processes { length files.now ≡ book.now.processes }
    requires files { All (IsPlayable (length book.now.accounts)) (contents_of files.now) }
    requires size { length text.now ≤ TEXT_MAX }
    ensures sound { result ≡ Ok Verdict.Yes
        → IsReport book.now names.now (contents_of files.now) text.now }
    ensures lines { result ≡ Ok Verdict.Yes
        → IsReportOf book.now names.now (contents_of files.now) (sum_by length (contents_of files.now))
        text.now }
    ensures complete { IsReport book.now names.now (contents_of files.now) text.now → (line : ℕ)
        → (e : Option ReportLine) → result ≡ Ok (Verdict.No line e) → ⊥ }
    ensures first { (line : ℕ) → (e : Option ReportLine) → result ≡ Ok (Verdict.No line e)
        → IsFirstWrong book.now names.now (contents_of files.now) text.now line }
    ensures expected { (line : ℕ) → (e : Option ReportLine) → result ≡ Ok (Verdict.No line e)
        → IfSome e (IsExpected book.now names.now (contents_of files.now) text.now line) }
    ensures unmatched { (line : ℕ) → result ≡ Ok (Verdict.No line None)
        → IsUnmatched book.now names.now (contents_of files.now) text.now line }
    ensures heading { result ≡ Ok (Verdict.No 1 None) → ⊥ }
{
    let mut expected = Vec::new(alloc);
    let parts = parting(alloc, book, names, files, &mut expected, text)?;
    match parts {
        None => Ok(Verdict::Yes),
        Some(place) => Ok(Verdict::No {
            line: newlines(&text[..place.at]) + 1,
            expected: expected_line(&text[..place.at], &expected.as_slice()[place.rest..]),
        }),
    }
}
