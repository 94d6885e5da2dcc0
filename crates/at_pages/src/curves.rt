//! The curves of publications.

ghost use Rattle.std.specs.Prelude.{◌≡◌, ◌++◌, OnOk, codes, decimal};
ghost use Rattle.at_pages.specs.Curves.{borrow_caption, borrow_text, curve_stroke, curve_path, curve_text, curves_from, curves_text, publishing_turn};

use crate::loads::{LoadNumbers, first_load, loads_view, publishing_turns};
use crate::parts::{
    borrow_line, caption_place, facing_edge, lane_place, middle_of, push_place, push_size,
    time_place,
};
use at_ledger::Book;
use at_stepper::TurnMade;
use std::alloc::{AllocError, Global};
use std::collections::HashSet;

/// Adds a point of a curve.
fn push_point(out: &mut Vec<u8>, x: u128, y: u128) -> Result<(), AllocError>
    ensures { OnOk result (out.new.items ≡ out.old.items ++ (decimal x ++ codes " " ++ decimal y)) }
{
    push_size(out, x)?;
    out.extend_from_slice(b" ")?;
    push_size(out, y)?;
    Ok(())
}

/// Adds the way of a curve from a turn of one process to a turn of another.
fn push_path(
    out: &mut Vec<u8>,
    published: usize,
    from: u32,
    turn: usize,
    process: u32,
) -> Result<(), AllocError>
    ensures { OnOk result
        (out.new.items ≡ out.old.items ++ curve_path published from turn process) }
{
    let middle = middle_of(from, process);
    out.extend_from_slice(b"M")?;
    push_point(out, time_place(published), lane_place(from))?;
    out.extend_from_slice(b"C")?;
    push_point(out, time_place(published), middle)?;
    out.extend_from_slice(b" ")?;
    push_point(out, time_place(turn), middle)?;
    out.extend_from_slice(b" ")?;
    push_point(out, time_place(turn), facing_edge(process, from))?;
    Ok(())
}

/// Adds the line of a curve, with its title.
fn push_curve_stroke(
    out: &mut Vec<u8>,
    published: usize,
    from: u32,
    turn: usize,
    process: u32,
) -> Result<(), AllocError>
    ensures { OnOk result
        (out.new.items ≡ out.old.items ++ curve_stroke published from turn process) }
{
    out.extend_from_slice(b"<path class='sees' d='")?;
    push_path(out, published, from, turn, process)?;
    out.extend_from_slice(b"'><title>turn ")?;
    push_size(out, turn as u128 + 1)?;
    out.extend_from_slice(b": first load of what turn ")?;
    push_size(out, published as u128 + 1)?;
    out.extend_from_slice(
        b" published</title></path>
",
    )?;
    Ok(())
}

/// Adds the word beside it.
fn push_borrow_text(
    out: &mut Vec<u8>,
    from: u32,
    turn: usize,
    process: u32,
) -> Result<(), AllocError>
    ensures { OnOk result (out.new.items ≡ out.old.items ++ borrow_text from turn process) }
{
    out.extend_from_slice(b"<text class='caption'")?;
    push_place(out, caption_place(turn), borrow_line(process, from))?;
    out.extend_from_slice(
        b">borrows</text>
",
    )?;
    Ok(())
}

/// Adds that word where a view is borrowed.
fn push_borrow_caption(
    out: &mut Vec<u8>,
    borrows: bool,
    from: u32,
    turn: usize,
    process: u32,
) -> Result<(), AllocError>
    ensures { OnOk result
        (out.new.items ≡ out.old.items ++ borrow_caption borrows from turn process) }
{
    if borrows {
        push_borrow_text(out, from, turn, process)
    } else {
        Ok(())
    }
}

/// The turn that published what is loaded, if there is one.
fn publishing_turn(published: &[usize], first: Option<LoadNumbers>) -> Option<usize>
    ensures { result ≡ publishing_turn published.now first }
{
    let load = first?;
    published.get(load.number as usize).copied()
}

/// Adds the curve to the turn from the one that published what it loads, if there is one.
fn push_curve(
    out: &mut Vec<u8>,
    from: u32,
    turn: usize,
    made: &TurnMade,
    published: Option<usize>,
) -> Result<(), AllocError>
    ensures { OnOk result
        (out.new.items ≡ out.old.items ++ curve_text from turn made.now published) }
{
    let Some(published) = published else {
        return Ok(());
    };
    push_curve_stroke(out, published, from, turn, made.process)?;
    push_borrow_caption(out, loads_view(&made.step), from, turn, made.process)?;
    Ok(())
}

/// Adds the curves from the lane of a process.
fn push_curves_from(
    alloc: Global,
    out: &mut Vec<u8>,
    turns: &[TurnMade],
    from: u32,
) -> Result<(), AllocError>
    ensures { OnOk result (out.new.items ≡ out.old.items ++ curves_from turns.now from) }
{
    let published = publishing_turns(alloc, turns, from)?;
    let mut loads = HashSet::new(alloc);
    for i in 0..turns.len() {
        let first = first_load(&mut loads, from, &turns[i])?;
        let published = publishing_turn(published.as_slice(), first);
        push_curve(out, from, i, &turns[i], published)?;
    }
    Ok(())
}

/// Adds the curves of all publications. The work grows with the turns times the processes.
pub(crate) fn push_curves(
    alloc: Global,
    out: &mut Vec<u8>,
    book: &Book,
    turns: &[TurnMade],
) -> Result<(), AllocError>
    ensures { OnOk result (out.new.items ≡ out.old.items ++ curves_text book.now turns.now) }
{
    for process in 0..book.processes() {
        push_curves_from(alloc, out, turns, process)?;
    }
    Ok(())
}
