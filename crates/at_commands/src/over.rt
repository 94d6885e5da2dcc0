//! Commands that read a book and payments.

ghost use Rattle.std.specs.Prelude.{◌≡◌, ◌⊎◌, ⊤, IfOk, IfErr};
ghost use Rattle.at_commands.specs.Commands.{IsOwnOrMemory};
ghost use Rattle.at_commands.specs.Forms.{FormTerms, payments_promise};
ghost use Rattle.at_commands.specs.Commanding.{IsLoadedForm};
ghost use Rattle.at_commands.specs.Loading.{Loaded as LoadedTerms, PaysBytes, loaded_shown};
ghost use Rattle.at_commands.specs.Words.{form_shown};
ghost use Rattle.at_ledger.specs.declared.call.Call as call;

use crate::commanding::{Command, Telling};
use crate::ending::Printed;
use crate::file_forms::Payments;
use crate::loading::{Loaded, load_all};
use crate::words::Form;
use at_io::Shelf;
use at_ledger::Call;
use at_report::Status;
use std::alloc::Global;
use std::thread::Threads;

/// What is a command's own that reads a book and payments.
pub(crate) trait PaymentsTerms {
    ghost terms: { FormTerms call.Call };
}

/// Such a command whose text is made without a gate.
pub(crate) trait PaymentsText: PaymentsTerms {
    /// The text of what was loaded.
    fn text<R: Threads + Sync>(
        &self,
        rt: &R,
        alloc: Global,
        loaded: Loaded<Call>,
    ) -> Result<Printed, Status>
        requires { IsLoadedForm PaysBytes loaded }
        ensures prints { IfOk result (λ p. Self.terms.prints (loaded_shown loaded) p.closed p.text) }
        ensures err { IfErr result (IsOwnOrMemory (Self.terms.refuses (loaded_shown loaded))) };
}

/// Such a command, by its words.
#[derive(Drop)]
pub(crate) struct Over<'a, X: PaymentsTerms> {
    pub form: Form<'a>,
    pub own: X,
}

impl<X: PaymentsTerms> Command for Over<'_, X> {
    type Loaded = Loaded<Call>;

    ghost What = { LoadedTerms };

    ghost shown = { loaded_shown };

    ghost known = { λ l. ⊤ };

    ghost promise = { λ s. payments_promise X.terms (form_shown s.form) };

    fn load<R: Threads + Sync, F: Shelf>(
        &self,
        _rt: &R,
        alloc: Global,
        shelf: &mut F,
    ) -> Result<Loaded<Call>, Status> {
        load_all::<F, Payments>(alloc, shelf, self.form.book, self.form.files)
    }

    fn lawful(&self) {}
}

impl<X: PaymentsText> Telling for Over<'_, X> {
    fn text<R: Threads + Sync>(
        &self,
        rt: &R,
        alloc: Global,
        loaded: Loaded<Call>,
    ) -> Result<Printed, Status> {
        self.own.text(rt, alloc, loaded)
    }
}
