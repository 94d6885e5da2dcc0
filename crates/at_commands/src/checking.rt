//! What `check` prints.

ghost use Rattle.std.specs.Prelude.{◌≡◌, ⊤, IfOk, IfErr};
ghost use Rattle.at_commands.specs.Answer.{Counted as CountedTerms, check_promise};
ghost use Rattle.at_commands.specs.Words.{form_shown};

use crate::commanding::{Command, Telling};
use crate::counting::{Counted, count};
use crate::ending::Printed;
use crate::words::Form;
use at_io::Shelf;
use at_report::{Status, checked_text};
use std::alloc::Global;
use std::thread::Threads;

/// The words of `check`.
#[derive(Drop)]
pub(crate) struct Check<'a> {
    pub(crate) form: Form<'a>,
}

impl Command for Check<'_> {
    type Loaded = Counted;

    ghost What = { CountedTerms };

    ghost shown = { λ c. record { book = c.book; calls = c.calls } };

    ghost known = { λ c. ⊤ };

    ghost promise = { λ s. check_promise (form_shown s.form) };

    fn load<R: Threads + Sync, F: Shelf>(
        &self,
        _rt: &R,
        alloc: Global,
        shelf: &mut F,
    ) -> Result<Counted, Status> {
        count(alloc, shelf, &self.form)
    }

    fn lawful(&self) {}
}

impl Telling for Check<'_> {
    fn text<R: Threads + Sync>(
        &self,
        _rt: &R,
        alloc: Global,
        counted: Counted,
    ) -> Result<Printed, Status> {
        let text = checked_text(alloc, &counted.book, counted.calls)?;
        Printed::of(alloc, text, None)
    }
}
