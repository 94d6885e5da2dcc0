//! The turns of a process.

ghost use Rattle.std.specs.Prelude.{◌≡◌, ◌==◌, ℕ, ◌<◌, [], ◌∷◌, ◌++◌, All, IfOk, OnOk, if◌then◌else◌, length};
ghost use Rattle.at_pages.specs.Turns.{own_step, own_turns};

use at_board::BoardStep;
use at_stepper::TurnMade;
use std::alloc::{AllocError, Global};

/// Adds the number of the turn, if it is one of the process.
fn push_if_own(
    own: &mut Vec<usize>,
    made: &TurnMade,
    process: u32,
    turn: usize,
) -> Result<(), AllocError>
    ensures { OnOk result (own.new.items
        ≡ own.old.items ++ (if made.now.process == process then turn ∷ [] else [])) }
{
    if made.process == process {
        own.push(turn)?;
    }
    Ok(())
}

/// The numbers of the process's turns, in order.
pub(crate) fn own_turns(
    alloc: Global,
    turns: &[TurnMade],
    process: u32,
) -> Result<Vec<usize>, AllocError>
    ensures turns { IfOk result (λ own. own.items ≡ own_turns turns.now process) }
    ensures within { IfOk result (λ own. All (λ m. m < length turns.now) own.items) }
{
    let mut own = Vec::new(alloc);
    for i in 0..turns.len() {
        push_if_own(&mut own, &turns[i], process, i)?;
    }
    Ok(own)
}

/// The step of the process's turn of this place, and none past the last.
pub(crate) fn own_step(turns: &[TurnMade], own: &[usize], place: usize) -> Option<BoardStep>
    requires { All (λ m. m < length turns.now) own.now }
    ensures { (process : ℕ) → own.now ≡ own_turns turns.now process
        → result ≡ own_step turns.now process place }
{
    let turn = own.get(place)?;
    turns[*turn].step
}
