//! The arrows of decisions.

ghost use Rattle.std.specs.Prelude.{◌≡◌, ℕ, ◌<◌, ◌++◌, All, IfSome, OnOk, length, map};
ghost use Rattle.at_pages.specs.Prelude.{range_with_len, AreNamesOf};
ghost use Rattle.at_pages.specs.Arrows.{arrow_stroke, arrow_caption, arrow_path, arrow_text, arrow_words, arrows_from, arrows_text, decided_for, decides_at};
ghost use Rattle.at_pages.specs.Turns.{own_turn, own_turns};

use crate::decisions::{all_decisions, other_asker};
use crate::parts::{
    caption_line, caption_place, facing_edge, lane_place, push_place, push_size, time_place,
};
use crate::turns::{own_step, own_turns};
use at_files::Names;
use at_ledger::Book;
use at_stepper::TurnMade;
use std::alloc::{AllocError, Global};

/// Adds the way of an arrow from a turn of one process to another's lane.
fn push_path(out: &mut Vec<u8>, turn: usize, process: u32, owner: u32) -> Result<(), AllocError>
    ensures { OnOk result (out.new.items ≡ out.old.items ++ arrow_path turn process owner) }
{
    out.extend_from_slice(b"M")?;
    push_size(out, time_place(turn))?;
    out.extend_from_slice(b" ")?;
    push_size(out, lane_place(process))?;
    out.extend_from_slice(b"V")?;
    push_size(out, facing_edge(owner, process))
}

/// Adds the words of an arrow.
fn push_arrow_words(out: &mut Vec<u8>, names: &Names, owner: u32) -> Result<(), AllocError>
    requires { owner < length names.now.processes }
    ensures { OnOk result (out.new.items ≡ out.old.items ++ arrow_words names.now owner) }
{
    out.extend_from_slice(b"decides for ")?;
    out.extend_from_slice(names.process(owner))?;
    Ok(())
}

/// Adds the line of an arrow, with its title.
fn push_arrow_stroke(
    out: &mut Vec<u8>,
    names: &Names,
    turn: usize,
    process: u32,
    owner: u32,
) -> Result<(), AllocError>
    requires { owner < length names.now.processes }
    ensures { OnOk result (out.new.items
        ≡ out.old.items ++ arrow_stroke names.now turn process owner) }
{
    out.extend_from_slice(b"<path class='helps' d='")?;
    push_path(out, turn, process, owner)?;
    out.extend_from_slice(b"'><title>turn ")?;
    push_size(out, turn as u128 + 1)?;
    out.extend_from_slice(b": ")?;
    push_arrow_words(out, names, owner)?;
    out.extend_from_slice(
        b"</title></path>
",
    )?;
    Ok(())
}

/// Adds the words beside it.
fn push_caption(
    out: &mut Vec<u8>,
    names: &Names,
    turn: usize,
    process: u32,
    owner: u32,
) -> Result<(), AllocError>
    requires { owner < length names.now.processes }
    ensures { OnOk result (out.new.items
        ≡ out.old.items ++ arrow_caption names.now turn process owner) }
{
    out.extend_from_slice(b"<text class='caption'")?;
    push_place(out, caption_place(turn), caption_line(process, owner))?;
    out.extend_from_slice(b">")?;
    push_arrow_words(out, names, owner)?;
    out.extend_from_slice(
        b"</text>
",
    )?;
    Ok(())
}

/// Adds the arrow of a turn that decides for another owner, if it does.
fn push_arrow(
    out: &mut Vec<u8>,
    names: &Names,
    turn: usize,
    process: u32,
    owner: Option<u32>,
) -> Result<(), AllocError>
    requires { IfSome owner (λ owner. owner < length names.now.processes) }
    ensures { OnOk result (out.new.items
        ≡ out.old.items ++ arrow_text names.now turn process owner) }
{
    match owner {
        None => Ok(()),
        Some(owner) => {
            push_arrow_stroke(out, names, turn, process, owner)?;
            push_caption(out, names, turn, process, owner)
        }
    }
}

/// For which other owner the process's turn of this place decides, if it does.
fn decided_for(
    book: &Book,
    turns: &[TurnMade],
    decided: &[bool],
    own: &[usize],
    process: u32,
    place: usize,
) -> Option<u32>
    requires decided { decided.now ≡ map (decides_at turns.now) (range_with_len 0 (length turns.now)) }
    requires own { own.now ≡ own_turns turns.now process }
    requires within { All (λ m. m < length turns.now) own.now }
    requires place { place < length own.now }
    ensures owner { result ≡ decided_for book.now turns.now process place }
    ensures known { IfSome result (λ owner. owner < book.now.processes) }
{
    if decided[own[place]] {
        other_asker(book, &own_step(turns, own, place + 1), process)
    } else {
        None
    }
}

/// Adds the arrows from the lane of a process.
fn push_arrows_from(
    alloc: Global,
    out: &mut Vec<u8>,
    book: &Book,
    names: &Names,
    turns: &[TurnMade],
    decided: &[bool],
    process: u32,
) -> Result<(), AllocError>
    requires names { AreNamesOf book.now names.now }
    requires decided { decided.now ≡ map (decides_at turns.now) (range_with_len 0 (length turns.now)) }
    ensures { OnOk result
        (out.new.items ≡ out.old.items ++ arrows_from book.now names.now turns.now process) }
{
    let own = own_turns(alloc, turns, process)?;
    let own = own.as_slice();
    for k in 0..own.len() {
        let owner = decided_for(book, turns, decided, own, process, k);
        push_arrow(out, names, own[k], process, owner)?;
    }
    Ok(())
}

/// Adds the arrows of all decisions. The work grows with the turns times the processes.
pub(crate) fn push_arrows(
    alloc: Global,
    out: &mut Vec<u8>,
    book: &Book,
    names: &Names,
    turns: &[TurnMade],
) -> Result<(), AllocError>
    requires { AreNamesOf book.now names.now }
    ensures { OnOk result
        (out.new.items ≡ out.old.items ++ arrows_text book.now names.now turns.now) }
{
    let decided = all_decisions(alloc, turns)?;
    for process in 0..book.processes() {
        push_arrows_from(alloc, out, book, names, turns, decided.as_slice(), process)?;
    }
    Ok(())
}
