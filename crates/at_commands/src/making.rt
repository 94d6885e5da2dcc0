//! What `make` prints.

ghost use Rattle.std.specs.Prelude.{◌≡◌, ⊤, IfOk, IfErr};
ghost use Rattle.at_commands.specs.Commanding.{Does};
ghost use Rattle.at_commands.specs.Made.{PrintsMade, make_promise};
ghost use Rattle.at_commands.specs.Limits.{MayMake};

use crate::commanding::{Command, answer_by};
use crate::ending::Printed;
use crate::generating::{Made, generate};
use crate::numbers::Making;
use crate::playing::play;
use at_io::{Shelf, Sink};
use at_object::Closed;
use at_report::{Status, summary};
use at_workers::Gate;
use std::alloc::Global;
use std::thread::Threads;

/// The numbers of `make`.
#[derive(Drop)]
pub(crate) struct Make {
    making: Making,
}

impl Command for Make {
    type Loaded = ();

    ghost What = { ⊤ };

    ghost shown = { λ l. tt };

    ghost known = { λ l. ⊤ };

    ghost promise = { λ s. make_promise s.making };

    fn load<R: Threads + Sync, F: Shelf>(
        &self,
        _rt: &R,
        _alloc: Global,
        _shelf: &mut F,
    ) -> Result<(), Status> {
        Ok(())
    }

    fn lawful(&self) {}
}

/// The summary of a run of the calls that a number gives, all processes at once.
fn made_text<R: Threads + Sync, G: Gate + Sync>(
    rt: &R,
    alloc: Global,
    making: Making,
    gate: &G,
) -> Result<Printed, Status>
    requires { MayMake making.processes making.calls }
    ensures prints { IfOk result (λ p. PrintsMade making p.closed p.text) }
    ensures err { IfErr result (λ refusal. refusal ≡ Status.NoMemory) }
{
    let Made { book, files } = generate(alloc, making.first, making.processes, making.calls)?;
    let (closed, lines) = play(rt, alloc, &book, files, gate)?;
    let text = summary(alloc, &book, lines.as_slice(), making.first, making.calls)?;
    Printed::of(alloc, text, Some(closed))
}

/// Does what the words of `make` ask.
pub(crate) fn answer_make<R: Threads + Sync, F: Shelf, O: Sink, G: Gate + Sync>(
    rt: &R,
    alloc: Global,
    shelf: &mut F,
    out: &mut O,
    making: Making,
    gate: &G,
    kept: &mut Option<Closed>,
) -> Status
    requires { MayMake making.processes making.calls }
    ensures { Does (make_promise making) F.tells F.file F.faults O.tells O.taken O.faults shelf.old
        shelf.new out.old out.new kept.old kept.new result }
{
    let text = |_loaded: ()| -> Result<Printed, Status>
        requires { MayMake making.processes making.calls }
        ensures prints { IfOk result (λ p. PrintsMade making p.closed p.text) }
        ensures err { IfErr result (λ refusal. refusal ≡ Status.NoMemory) }
    { made_text(rt, alloc, making, gate) };
    answer_by(rt, alloc, shelf, out, &Make { making }, text, kept)
}
