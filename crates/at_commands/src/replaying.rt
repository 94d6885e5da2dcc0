//! What is printed of a run by a schedule.

ghost use Rattle.std.specs.Prelude.{◌≡◌, ◌<◌, ◌⊎◌, All, Ok, IfOk, IfErr};
ghost use Rattle.at_commands.specs.Commands.{IsOwnOrMemory};
ghost use Rattle.at_commands.specs.Forms.{IsFurther};
ghost use Rattle.at_commands.specs.Commanding.{IsLoadedForm};
ghost use Rattle.at_commands.specs.Loading.{PaysReplayBytes, loaded_shown};
ghost use Rattle.at_commands.specs.Replaying.{Printing, ReportsReplay, turns_terms};

use crate::beside::Further;
use crate::ending::Printed;
use crate::file_forms::ReplayPayments;
use crate::loading::Loaded;
use at_files::{ReadScheduleFault, location_of, read_schedule};
use at_ledger::Call;
use at_report::{Status, report};
use at_stepper::replay;
use std::alloc::{AllocError, Global};
use std::marker::PhantomData;

/// What a command prints of a run by a schedule.
pub(crate) trait TurnsText {
    // what the text says of what was loaded and of the schedule
    ghost prints: { Printing };

    /// The text of the run of what was loaded by the schedule.
    fn text(alloc: Global, loaded: Loaded<Call>, schedule: &[u32]) -> Result<Vec<u8>, AllocError>
        requires loaded { IsLoadedForm PaysReplayBytes loaded }
        requires schedule { All (λ process. process < loaded.book.processes) schedule.now }
        ensures { IfOk result (λ text. prints
            (record { what = loaded_shown loaded; further = schedule.now }) text.items) };
}

/// A command that plays a schedule: that is its further file.
pub(crate) struct InTurns<T: TurnsText> {
    pub(crate) of: PhantomData<T>,
}

impl<T: TurnsText> Further for InTurns<T> {
    type Files = ReplayPayments;

    type Item = u32;

    ghost terms = { turns_terms T.prints };

    fn read(alloc: Global, loaded: &Loaded<Call>, bytes: Vec<u8>) -> Result<Vec<u32>, Status> {
        match read_schedule(alloc, loaded.book.processes(), bytes.as_slice()) {
            Ok(turns) => Ok(turns),
            Err(ReadScheduleFault::Bad(bad)) => Err(Status::BadSchedule {
                at: location_of(bytes.as_slice(), bad.line),
                why: bad.why,
            }),
            Err(ReadScheduleFault::NoMemory) => Err(Status::NoMemory),
        }
    }

    fn text(alloc: Global, loaded: Loaded<Call>, further: Vec<u32>) -> Result<Printed, Status>
        requires loaded { IsLoadedForm PaysReplayBytes loaded }
        requires further { IsFurther ((turns_terms T.prints).spells (loaded_shown loaded)) further.items }
        ensures prints { IfOk result (λ p. (turns_terms T.prints).prints
            (record { what = loaded_shown loaded; further = further.items }) p.closed p.text) }
        ensures err { IfErr result (IsOwnOrMemory ((turns_terms T.prints).refuses
            (record { what = loaded_shown loaded; further = further.items }))) }
    {
        let text = T::text(alloc, loaded, further.as_slice())?;
        Printed::of(alloc, text, None)
    }

    fn lawful() {}
}

/// The report of `replay`.
pub(crate) struct ReplayReport;

impl TurnsText for ReplayReport {
    ghost prints = { ReportsReplay };

    fn text(alloc: Global, loaded: Loaded<Call>, schedule: &[u32]) -> Result<Vec<u8>, AllocError> {
        replayed_text(alloc, loaded, schedule)
    }
}

/// The report of the run of what was loaded by the schedule.
fn replayed_text(
    alloc: Global,
    loaded: Loaded<Call>,
    schedule: &[u32],
) -> Result<Vec<u8>, AllocError>
    requires loaded { IsLoadedForm PaysReplayBytes loaded }
    requires schedule { All (λ process. process < loaded.book.processes) schedule.now }
    ensures { IfOk result (λ text. ReportsReplay
        (record { what = loaded_shown loaded; further = schedule.now }) text.items) }
{
    let Loaded { book, names, files } = loaded;
    let replayed = replay(alloc, &book, files, schedule)?;
    let text = report(alloc, &book, &names, replayed.lines.as_slice())?;
    Ok(text)
}
