//! Closed ledgers, and their reports.

ghost use Rattle.std.specs.Prelude.{◌≡◌, IfErr, IfOk};
ghost use Rattle.at_c.specs.Endings.{IsReportOfClosed};

use at_files::Names;
use at_journal::journal;
use at_object::Closed;
use at_report::report;
use std::alloc::{AllocError, Global};
use std::marker::Model;

/// A closed ledger, with the names of its book.
#[derive(Drop)]
pub struct Ended {
    pub(crate) closed: Closed,
    pub(crate) names: Names,
}

impl Model for Ended {
    ghost use Rattle.at_c.specs.Endings.{EndedTerms, IsEnded};

    ghost Value = { EndedTerms };

    ghost view = { λ e. record { closed = e.closed; names = e.names } };

    ghost invariant = { λ e. IsEnded (record { closed = e.closed; names = e.names }) };
}

/// The report of a closed ledger.
#[derive(Drop)]
pub struct Reported {
    pub(crate) ended: Ended,
    pub(crate) text: Vec<u8>,
}

impl Model for Reported {
    ghost use Rattle.at_c.specs.Endings.{IsReportOfClosed, ReportedTerms};

    ghost Value = { ReportedTerms };

    ghost view = { λ r. record { ended = r.ended; text = r.text.items } };

    ghost invariant = { λ r. IsReportOfClosed r.ended.closed r.ended.names r.text.items };
}

impl Ended {
    /// The bytes of the report. The work grows with the calls.
    fn text(&self, alloc: Global) -> Result<Vec<u8>, AllocError>
        ensures { IfOk result (λ text. IsReportOfClosed self.now.closed self.now.names text.items) }
    {
        let book = self.closed.book();
        let lines = journal(alloc, book, self.closed.closing())?;
        report(alloc, book, &self.names, lines.as_slice())
    }

    /// The closed ledger with its report. Where there is no memory for that, all is as it was.
    pub(crate) fn reported(self, alloc: Global) -> Result<Reported, Ended>
        ensures ended { IfOk result (λ r. r.ended ≡ self) }
        ensures report { IfOk result (λ r. IsReportOfClosed r.ended.closed r.ended.names r.text) }
        ensures err { IfErr result (λ e. e ≡ self) }
    {
        match self.text(alloc) {
            Ok(text) => Ok(Reported { ended: self, text }),
            Err(_) => Err(self),
        }
    }
}
