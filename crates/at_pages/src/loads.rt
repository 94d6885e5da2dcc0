//! Which turns are the first to load a record.

ghost use Rattle.std.specs.Prelude.{◌≡◌, ◌==◌, ◌&&◌, ◌++◌, ◌∷◌, [], List, IfOk, OnOk, if◌then◌else◌};
ghost use Rattle.at_pages.specs.Prelude.{TurnMade};
ghost use Rattle.at_pages.specs.Curves.{load_from, load_of_step, loads_view, publishing_turns, unless_loaded};
ghost use Rattle.at_pages.specs.Loading.{AreLoads};

use at_board::{BoardStep, BoardWord, RECORD_WORDS};
use at_stepper::TurnMade;
use std::alloc::{AllocError, Global};
use std::collections::HashSet;

/// Who loads a record of a process, and the record's number.
#[derive(Clone, Copy, PartialEq, Eq, Hash)]
pub(crate) struct LoadNumbers {
    pub(crate) process: u32,
    pub(crate) number: u32,
}

/// Of which record of process `from` the step of a process loads a word, if it does.
fn load_of_step(from: u32, process: u32, step: &Option<BoardStep>) -> Option<LoadNumbers>
    ensures { result ≡ load_of_step from process step.now }
{
    match step {
        Some(
            BoardStep::Load(
                BoardWord::Record {
                    process: owner,
                    number,
                    ..
                },
            ),
        ) if *owner == from => Some(LoadNumbers {
            process,
            number: *number,
        }),
        _ => None,
    }
}

/// The same of a turn of another process.
fn load_from(from: u32, made: &TurnMade) -> Option<LoadNumbers>
    ensures { result ≡ load_from from made.now }
{
    if made.process == from {
        None
    } else {
        load_of_step(from, made.process, &made.step)
    }
}

/// The record of process `from` that the turn loads, if it is the first one of its process to do so, after the turns whose loads these
/// are. Its own is added.
pub(crate) fn first_load(
    loads: &mut HashSet<LoadNumbers>,
    from: u32,
    made: &TurnMade,
) -> Result<Option<LoadNumbers>, AllocError>
    ensures first { IfOk result (λ first. (turns : List TurnMade) → AreLoads from loads.old turns
        → first ≡ unless_loaded from turns (load_from from made.now)) }
    ensures loads { OnOk result ((turns : List TurnMade) → AreLoads from loads.old turns
        → AreLoads from loads.new (turns ++ made.now ∷ [])) }
{
    let Some(load) = load_from(from, made) else {
        return Ok(None);
    };
    match loads.insert(load) {
        Ok(true) => Ok(Some(load)),
        Ok(false) => Ok(None),
        Err(_) => Err(AllocError),
    }
}

/// Whether the step loads a word of a record's view.
pub(crate) fn loads_view(step: &Option<BoardStep>) -> bool
    ensures { result ≡ loads_view step.now }
{
    match step {
        Some(BoardStep::Load(BoardWord::Record { word, .. })) => *word >= RECORD_WORDS,
        _ => false,
    }
}

/// Adds the number of the turn, if the process publishes in it.
fn push_if_publishing(
    published: &mut Vec<usize>,
    made: &TurnMade,
    process: u32,
    turn: usize,
) -> Result<(), AllocError>
    ensures { OnOk result (published.new.items ≡ published.old.items
        ++ (if (made.now.process == process) && made.now.published then turn ∷ [] else [])) }
{
    if made.process == process && made.published {
        published.push(turn)?;
    }
    Ok(())
}

/// The turns in which the process publishes, in order.
pub(crate) fn publishing_turns(
    alloc: Global,
    turns: &[TurnMade],
    process: u32,
) -> Result<Vec<usize>, AllocError>
    ensures { IfOk result (λ published. published.items ≡ publishing_turns turns.now process) }
{
    let mut published = Vec::new(alloc);
    for i in 0..turns.len() {
        push_if_publishing(&mut published, &turns[i], process, i)?;
    }
    Ok(published)
}
