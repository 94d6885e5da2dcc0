//! What `show` prints of a run by a schedule.

ghost use Rattle.std.specs.Prelude.{◌≡◌, ◌<◌, All, IfOk};
ghost use Rattle.at_commands.specs.Prelude.{contents_of};
ghost use Rattle.at_commands.specs.Commanding.{IsLoadedForm};
ghost use Rattle.at_commands.specs.Loading.{PaysReplayBytes, loaded_shown};
ghost use Rattle.at_commands.specs.Picturing.{ShowsPage};

use crate::loading::Loaded;
use crate::replaying::TurnsText;
use at_ledger::Call;
use at_pages::page_text;
use at_stepper::replay;
use std::alloc::{AllocError, Global};

/// The page of the run.
pub(crate) struct Page;

impl TurnsText for Page {
    ghost prints = { ShowsPage };

    fn text(alloc: Global, loaded: Loaded<Call>, schedule: &[u32]) -> Result<Vec<u8>, AllocError> {
        pictured_text(alloc, loaded, schedule)
    }
}

/// A file of the same calls.
fn same_calls(alloc: Global, calls: &[Call]) -> Result<Vec<Call>, AllocError>
    ensures { IfOk result (λ file. file.items ≡ calls.now) }
{
    let mut file = Vec::with_capacity(alloc, calls.len())?;
    for call in calls {
        file.push(call.copy())?;
    }
    Ok(file)
}

/// Files of the same calls. A run takes the ones that it is given, and its page names them again.
fn same_files(alloc: Global, files: &[Vec<Call>]) -> Result<Vec<Vec<Call>>, AllocError>
    ensures { IfOk result (λ same. contents_of same.items ≡ contents_of files.now) }
{
    let mut same = Vec::with_capacity(alloc, files.len())?;
    for calls in files {
        let file = same_calls(alloc, calls.as_slice())?;
        same.push(file)?;
    }
    Ok(same)
}

/// The page of the run of what was loaded by the schedule.
fn pictured_text(
    alloc: Global,
    loaded: Loaded<Call>,
    schedule: &[u32],
) -> Result<Vec<u8>, AllocError>
    requires loaded { IsLoadedForm PaysReplayBytes loaded }
    requires schedule { All (λ process. process < loaded.book.processes) schedule.now }
    ensures { IfOk result (λ text. ShowsPage
        (record { what = loaded_shown loaded; further = schedule.now }) text.items) }
{
    let Loaded { book, names, files } = loaded;
    let made = same_files(alloc, files.as_slice())?;
    let replayed = replay(alloc, &book, made, schedule)?;
    let text = page_text(alloc, &book, &names, files.as_slice(), &replayed)?;
    Ok(text)
}
