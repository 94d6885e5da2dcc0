//! The page of a run.

ghost use Rattle.std.specs.Prelude.{◌≡◌, ◌<◌, ◌++◌, All, IfOk, OnOk, length};
ghost use Rattle.at_pages.specs.Prelude.{IsLineOn, IsPlayable, contents_of, AreNamesOf};
ghost use Rattle.at_pages.specs.PageText.{page_text, picture_text, size_text};
ghost use Rattle.at_pages.specs.Spans.{all_spans};

use crate::arrows::push_arrows;
use crate::bars::{push_bars, push_lanes};
use crate::curves::push_curves;
use crate::marks::push_marks;
use crate::parts::{
    CALLS, END, HEAD, JOURNAL, KEY, PICTURE, SHAPES, picture_height, picture_width, push_size,
};
use crate::spans::{Span, all_spans};
use crate::tables::{push_items, push_rows};
use at_files::Names;
use at_ledger::{Book, Call};
use at_stepper::{Replayed, TurnMade};
use at_tables::payments_sentence;
use std::alloc::{AllocError, Global};

/// Adds the picture's size.
fn push_picture_size(out: &mut Vec<u8>, turns: usize, processes: u32) -> Result<(), AllocError>
    ensures { OnOk result (out.new.items ≡ out.old.items ++ size_text turns processes) }
{
    out.extend_from_slice(b" width='")?;
    push_size(out, picture_width(turns))?;
    out.extend_from_slice(b"' height='")?;
    push_size(out, picture_height(processes))?;
    out.extend_from_slice(b"'")
}

/// Adds the picture of the turns, in which these are the calls.
fn push_picture(
    alloc: Global,
    out: &mut Vec<u8>,
    book: &Book,
    names: &Names,
    files: &[Vec<Call>],
    turns: &[TurnMade],
    spans: &[Span],
) -> Result<(), AllocError>
    requires names { AreNamesOf book.now names.now }
    requires count { length files.now ≡ book.now.processes }
    requires files { All (IsPlayable (length book.now.accounts)) (contents_of files.now) }
    requires process { All (λ s. s.process < length files.now) spans.now }
    requires spans { spans.now ≡ all_spans turns.now book.now.processes }
    ensures { OnOk result (out.new.items
        ≡ out.old.items ++ picture_text book.now names.now (contents_of files.now) turns.now) }
{
    out.extend_from_slice(b"<svg")?;
    push_picture_size(out, turns.len(), book.processes())?;
    out.extend_from_slice(SHAPES)?;
    push_lanes(out, names, turns.len(), book.processes())?;
    push_bars(alloc, out, names, files, turns.len(), spans)?;
    push_curves(alloc, out, book, turns)?;
    push_arrows(alloc, out, book, names, turns)?;
    push_marks(out, book, names, turns)?;
    Ok(())
}

/// The page of a run of the files: a sentence about its payments, the picture of its turns, the table of its calls, and its journal. The
/// work grows with the calls, and with the turns times the processes.
pub fn page_text(
    alloc: Global,
    book: &Book,
    names: &Names,
    files: &[Vec<Call>],
    replayed: &Replayed,
) -> Result<Vec<u8>, AllocError>
    requires names { AreNamesOf book.now names.now }
    requires count { length files.now ≡ book.now.processes }
    requires files { All (IsPlayable (length book.now.accounts)) (contents_of files.now) }
    requires lines { All (IsLineOn book.now.processes (length book.now.accounts)) replayed.now.lines.items }
    ensures { IfOk result (λ text. text.items
        ≡ page_text book.now names.now (contents_of files.now) replayed.now) }
{
    let turns = replayed.turns.as_slice();
    let spans = all_spans(alloc, turns, book.processes())?;
    let sentence = payments_sentence(alloc, book, names, files)?;
    let mut text = Vec::new(alloc);
    text.extend_from_slice(HEAD)?;
    text.extend_from_slice(sentence.as_slice())?;
    text.extend_from_slice(PICTURE)?;
    push_picture(
        alloc,
        &mut text,
        book,
        names,
        files,
        turns,
        spans.as_slice(),
    )?;
    text.extend_from_slice(KEY)?;
    text.extend_from_slice(CALLS)?;
    push_rows(&mut text, book, names, files, spans.as_slice())?;
    text.extend_from_slice(JOURNAL)?;
    push_items(&mut text, names, replayed.lines.as_slice())?;
    text.extend_from_slice(END)?;
    Ok(text)
}
