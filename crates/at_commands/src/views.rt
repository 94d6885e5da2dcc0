//! What is shown of a book and payments: what needs agreement, what the accounts would have to have, and the replies in all orders, where
//! nothing is run; and of a run what each call cost, and its journal.

ghost use Rattle.std.specs.Prelude.{◌≡◌, IfOk, IfErr};
ghost use Rattle.at_commands.specs.Commanding.{Does, IsLoadedForm, MakesForm};
ghost use Rattle.at_commands.specs.Forms.{payments_promise};
ghost use Rattle.at_commands.specs.Loading.{PaysBytes, loaded_shown};
ghost use Rattle.at_commands.specs.Views.{costs_terms, kinds_terms, ledger_terms, needs_terms, orders_terms};
ghost use Rattle.at_commands.specs.Words.{form_shown};

use crate::commanding::answer_by;
use crate::ending::Printed;
use crate::loading::Loaded;
use crate::over::{Over, PaymentsTerms, PaymentsText};
use crate::playing::{play, play_noting};
use crate::words::Form;
use at_io::{Shelf, Sink};
use at_ledger::Call;
use at_object::Closed;
use at_orders::{OrdersError, orders};
use at_report::Status;
use at_tables::{costs_text, kinds, ledger, needs_text, orders_text};
use at_workers::Gate;
use std::alloc::Global;
use std::thread::Threads;

/// `kinds`: what needs agreement.
#[derive(Drop)]
pub(crate) struct Kinds;

impl PaymentsTerms for Kinds {
    ghost terms = { kinds_terms };
}

impl PaymentsText for Kinds {
    fn text<R: Threads + Sync>(
        &self,
        _rt: &R,
        alloc: Global,
        loaded: Loaded<Call>,
    ) -> Result<Printed, Status> {
        let text = kinds(alloc, &loaded.book, &loaded.names, loaded.files.as_slice())?;
        Printed::of(alloc, text, None)
    }
}

/// `needs`: what the owners of each account ask of it.
#[derive(Drop)]
pub(crate) struct Needs;

impl PaymentsTerms for Needs {
    ghost terms = { needs_terms };
}

impl PaymentsText for Needs {
    fn text<R: Threads + Sync>(
        &self,
        _rt: &R,
        alloc: Global,
        loaded: Loaded<Call>,
    ) -> Result<Printed, Status> {
        let text = needs_text(alloc, &loaded.book, &loaded.names, loaded.files.as_slice())?;
        Printed::of(alloc, text, None)
    }
}

/// `orders`: the replies that each call has in some order of all calls.
#[derive(Drop)]
pub(crate) struct Orders;

impl PaymentsTerms for Orders {
    ghost terms = { orders_terms };
}

impl PaymentsText for Orders {
    fn text<R: Threads + Sync>(
        &self,
        _rt: &R,
        alloc: Global,
        loaded: Loaded<Call>,
    ) -> Result<Printed, Status> {
        let Loaded { book, names, files } = loaded;
        let answers = match orders(alloc, &book, files.as_slice()) {
            Ok(answers) => answers,
            Err(OrdersError::TooManyOrders) => return Err(Status::TooManyOrders),
            Err(OrdersError::NoMemory) => return Err(Status::NoMemory),
        };
        let text = orders_text(alloc, &book, &names, files.as_slice(), answers.as_slice())?;
        Printed::of(alloc, text, None)
    }
}

/// `costs`: what each call of a run cost.
#[derive(Drop)]
pub(crate) struct Costs;

impl PaymentsTerms for Costs {
    ghost terms = { costs_terms };
}

/// What each call of a run of the files cost, all of them at once.
fn costs_shown<R: Threads + Sync, G: Gate + Sync>(
    rt: &R,
    alloc: Global,
    loaded: Loaded<Call>,
    gate: &G,
) -> Result<Printed, Status>
    requires { IsLoadedForm PaysBytes loaded }
    ensures { MakesForm costs_terms (loaded_shown loaded) result }
{
    let Loaded { book, names, files } = loaded;
    let (kept, costs) = play_noting(rt, alloc, &book, files, gate)?;
    let text = costs_text(alloc, &book, &names, kept.closing(), costs.as_slice())?;
    Printed::of(alloc, text, Some(kept))
}

/// Does what the words of `costs` ask.
pub(crate) fn answer_costs<R: Threads + Sync, F: Shelf, O: Sink, G: Gate + Sync>(
    rt: &R,
    alloc: Global,
    shelf: &mut F,
    out: &mut O,
    form: &Form<'_>,
    gate: &G,
    kept: &mut Option<Closed>,
) -> Status
    ensures { Does (payments_promise costs_terms (form_shown form.now)) F.tells F.file F.faults O.tells
        O.taken O.faults shelf.old shelf.new out.old out.new kept.old kept.new result }
{
    let text = |loaded: Loaded<Call>| -> Result<Printed, Status>
        requires { IsLoadedForm PaysBytes loaded }
        ensures { MakesForm costs_terms (loaded_shown loaded) result }
    { costs_shown(rt, alloc, loaded, gate) };
    let asked = Over {
        form: *form,
        own: Costs,
    };
    answer_by(rt, alloc, shelf, out, &asked, text, kept)
}

/// `ledger`: the journal of a run.
#[derive(Drop)]
pub(crate) struct Journal;

impl PaymentsTerms for Journal {
    ghost terms = { ledger_terms };
}

/// The journal of a run of the files, all of them at once.
fn ledger_shown<R: Threads + Sync, G: Gate + Sync>(
    rt: &R,
    alloc: Global,
    loaded: Loaded<Call>,
    gate: &G,
) -> Result<Printed, Status>
    requires { IsLoadedForm PaysBytes loaded }
    ensures { MakesForm ledger_terms (loaded_shown loaded) result }
{
    let Loaded { book, names, files } = loaded;
    let (closed, lines) = play(rt, alloc, &book, files, gate)?;
    let text = ledger(alloc, &book, &names, lines.as_slice())?;
    Printed::of(alloc, text, Some(closed))
}

/// Does what the words of `ledger` ask.
pub(crate) fn answer_ledger<R: Threads + Sync, F: Shelf, O: Sink, G: Gate + Sync>(
    rt: &R,
    alloc: Global,
    shelf: &mut F,
    out: &mut O,
    form: &Form<'_>,
    gate: &G,
    kept: &mut Option<Closed>,
) -> Status
    ensures { Does (payments_promise ledger_terms (form_shown form.now)) F.tells F.file F.faults O.tells
        O.taken O.faults shelf.old shelf.new out.old out.new kept.old kept.new result }
{
    let text = |loaded: Loaded<Call>| -> Result<Printed, Status>
        requires { IsLoadedForm PaysBytes loaded }
        ensures { MakesForm ledger_terms (loaded_shown loaded) result }
    { ledger_shown(rt, alloc, loaded, gate) };
    let asked = Over {
        form: *form,
        own: Journal,
    };
    answer_by(rt, alloc, shelf, out, &asked, text, kept)
}
