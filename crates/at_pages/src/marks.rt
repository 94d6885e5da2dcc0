//! The marks of the turns.

ghost use Rattle.std.specs.Prelude.{◌≡◌, ◌<◌, ◌++◌, All, OnOk, codes};
ghost use Rattle.at_pages.specs.Prelude.{AreNamesOf};
ghost use Rattle.at_pages.specs.Marks.{mark_shape, mark_text, marks_text, turn_title};
ghost use Rattle.at_pages.specs.Places.{lane_place, place_text, time_place};

use crate::parts::{lane_place, push_place, push_size, time_place};
use at_files::Names;
use at_ledger::Book;
use at_stepper::TurnMade;
use at_tables::{push_step_address, step_word};
use std::alloc::AllocError;

/// The shape of a turn's mark.
fn mark_shape(made: &TurnMade) -> &'static [u8]
    ensures { result.now ≡ mark_shape made.now }
{
    if made.published {
        b"publication"
    } else {
        step_word(&made.step)
    }
}

/// Adds what a turn did, and to which word.
fn push_title(
    out: &mut Vec<u8>,
    book: &Book,
    names: &Names,
    turn: usize,
    made: &TurnMade,
) -> Result<(), AllocError>
    requires { AreNamesOf book.now names.now }
    ensures { OnOk result
        (out.new.items ≡ out.old.items ++ turn_title book.now names.now turn made.now) }
{
    out.extend_from_slice(b"turn ")?;
    push_size(out, turn as u128 + 1)?;
    out.extend_from_slice(b": ")?;
    out.extend_from_slice(step_word(&made.step))?;
    out.extend_from_slice(b" ")?;
    push_step_address(out, book, names, &made.step)
}

/// Adds the begin of a mark: its shape and its place.
fn push_shape(out: &mut Vec<u8>, turn: usize, made: &TurnMade) -> Result<(), AllocError>
    ensures { OnOk result (out.new.items ≡ out.old.items ++ (codes "<use href='#" ++ mark_shape made.now
        ++ codes "'" ++ place_text (time_place turn) (lane_place made.now.process))) }
{
    out.extend_from_slice(b"<use href='#")?;
    out.extend_from_slice(mark_shape(made))?;
    out.extend_from_slice(b"'")?;
    push_place(out, time_place(turn), lane_place(made.process))
}

/// Adds the mark of a turn.
fn push_mark(
    out: &mut Vec<u8>,
    book: &Book,
    names: &Names,
    turn: usize,
    made: &TurnMade,
) -> Result<(), AllocError>
    requires { AreNamesOf book.now names.now }
    ensures { OnOk result
        (out.new.items ≡ out.old.items ++ mark_text book.now names.now turn made.now) }
{
    push_shape(out, turn, made)?;
    out.extend_from_slice(b"><title>")?;
    push_title(out, book, names, turn, made)?;
    out.extend_from_slice(b"</title></use>\n")
}

/// Adds the marks of all turns.
pub(crate) fn push_marks(
    out: &mut Vec<u8>,
    book: &Book,
    names: &Names,
    turns: &[TurnMade],
) -> Result<(), AllocError>
    requires { AreNamesOf book.now names.now }
    ensures { OnOk result
        (out.new.items ≡ out.old.items ++ marks_text book.now names.now turns.now) }
{
    for i in 0..turns.len() {
        push_mark(out, book, names, i, &turns[i])?;
    }
    Ok(())
}
