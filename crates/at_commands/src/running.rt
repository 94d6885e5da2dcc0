//! What `run` prints.

ghost use Rattle.std.specs.Prelude.{◌≡◌, IfOk, IfErr};
ghost use Rattle.at_commands.specs.Answer.{ReportsRun, run_terms};
ghost use Rattle.at_commands.specs.Commands.{KeepingClosed};
ghost use Rattle.at_commands.specs.Commanding.{Does, IsLoadedForm, MakesForm};
ghost use Rattle.at_commands.specs.Forms.{HoldsForm, payments_promise};
ghost use Rattle.at_commands.specs.Loading.{Loaded as LoadedTerms, PaysBytes, loaded_shown};
ghost use Rattle.at_commands.specs.Running.{HasNewPasses};
ghost use Rattle.at_commands.specs.Words.{form_shown};

use crate::closing_journal::ClosingJournal;
use crate::commanding::{Command, answer_by};
use crate::ending::Printed;
use crate::loading::{Loaded, load_book};
use crate::opening::{files_first, open_and_load};
use crate::playing::play_in_order;
use crate::words::Form;
use at_io::{Shelf, Sink};
use at_ledger::Call;
use at_object::{Closed, Ledger, Pass};
use at_report::{Status, journal_report};
use at_workers::Gate;
use std::alloc::Global;
use std::thread::Threads;

/// What the files of `run` hold, and a new ledger for it, with its passes.
#[derive(Drop)]
pub(crate) struct Opened {
    loaded: Loaded<Call>,
    opened: (Ledger, Vec<Pass>),
}

/// The words of `run`.
#[derive(Drop)]
pub(crate) struct Run<'a> {
    form: Form<'a>,
}

impl Command for Run<'_> {
    type Loaded = Opened;

    ghost What = { LoadedTerms };

    ghost shown = { λ o. loaded_shown o.loaded };

    ghost known = { λ o. HasNewPasses o.loaded.book o.opened.0 o.opened.1.items };

    ghost promise = { λ s. payments_promise run_terms (form_shown s.form) };

    /// The ledger is made while the payments are read.
    fn load<R: Threads + Sync, F: Shelf>(
        &self,
        rt: &R,
        alloc: Global,
        shelf: &mut F,
    ) -> Result<Opened, Status> {
        let (book, names) = match load_book(alloc, shelf, &self.form) {
            Ok(read) => read,
            Err(refusal) => return Err(refusal),
        };
        book.known();
        let (opened, files) = open_and_load(rt, alloc, &book, &names, &self.form, shelf);
        let (opened, files) = match files_first(opened, files) {
            Ok(both) => both,
            Err(refusal) => return Err(refusal),
        };
        let loaded = Loaded { book, names, files };
        Ok(Opened { loaded, opened })
    }

    fn lawful(&self) {}
}

/// The report of a run of the files, all of them at once, on the new ledger.
fn run_text<R: Threads + Sync, G: Gate + Sync>(
    rt: &R,
    alloc: Global,
    opened: Opened,
    gate: &G,
) -> Result<Printed, Status>
    requires loaded { IsLoadedForm PaysBytes opened.loaded }
    requires opened { HasNewPasses opened.loaded.book opened.opened.0 opened.opened.1.items }
    ensures { MakesForm run_terms (loaded_shown opened.loaded) result }
{
    let Opened { loaded, opened } = opened;
    let Loaded { book, names, files } = loaded;
    let (closed, calls) = play_in_order(rt, alloc, &book, opened, files, gate)?;
    let journal = ClosingJournal {
        closing: closed.closing(),
        calls: calls.as_slice(),
    };
    let text = journal_report(rt, alloc, &book, &names, &journal)?;
    Ok(Printed {
        text,
        closed: Some(closed),
    })
}

/// Does what the words of `run` ask.
pub(crate) fn answer_run<R: Threads + Sync, F: Shelf, O: Sink, G: Gate + Sync>(
    rt: &R,
    alloc: Global,
    shelf: &mut F,
    out: &mut O,
    form: &Form<'_>,
    gate: &G,
    kept: &mut Option<Closed>,
) -> Status
    ensures { Does (payments_promise run_terms (form_shown form.now)) F.tells F.file F.faults O.tells
        O.taken O.faults shelf.old shelf.new out.old out.new kept.old kept.new result }
{
    let text = |opened: Opened| -> Result<Printed, Status>
        requires loaded { IsLoadedForm PaysBytes opened.loaded }
        requires opened { HasNewPasses opened.loaded.book opened.opened.0 opened.opened.1.items }
        ensures { MakesForm run_terms (loaded_shown opened.loaded) result }
    { run_text(rt, alloc, opened, gate) };
    answer_by(rt, alloc, shelf, out, &Run { form: *form }, text, kept)
}
