//! What `trace` prints of a run by a schedule.

ghost use Rattle.std.specs.Prelude.{◌<◌, All, IfOk};
ghost use Rattle.at_commands.specs.Commanding.{IsLoadedForm};
ghost use Rattle.at_commands.specs.Loading.{PaysReplayBytes, loaded_shown};
ghost use Rattle.at_commands.specs.Tracing.{ShowsTrace};

use crate::loading::Loaded;
use crate::replaying::TurnsText;
use at_ledger::Call;
use at_stepper::replay;
use at_tables::trace_text;
use std::alloc::{AllocError, Global};

/// What each turn did.
pub(crate) struct Trace;

impl TurnsText for Trace {
    ghost prints = { ShowsTrace };

    fn text(alloc: Global, loaded: Loaded<Call>, schedule: &[u32]) -> Result<Vec<u8>, AllocError> {
        traced_text(alloc, loaded, schedule)
    }
}

/// What each turn did of the run of what was loaded by the schedule.
fn traced_text(alloc: Global, loaded: Loaded<Call>, schedule: &[u32]) -> Result<Vec<u8>, AllocError>
    requires loaded { IsLoadedForm PaysReplayBytes loaded }
    requires schedule { All (λ process. process < loaded.book.processes) schedule.now }
    ensures { IfOk result (λ text. ShowsTrace
        (record { what = loaded_shown loaded; further = schedule.now }) text.items) }
{
    let Loaded { book, names, files } = loaded;
    let replayed = replay(alloc, &book, files, schedule)?;
    let text = trace_text(alloc, &book, &names, replayed.turns.as_slice())?;
    Ok(text)
}
