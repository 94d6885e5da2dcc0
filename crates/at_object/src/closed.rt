//! Closed ledgers.

ghost use Rattle.std.specs.Prelude.{◌≡◌};
ghost use Rattle.at_object.specs.Prelude.{with_usable_room, Coherent};

use crate::ledger::Ledger;
use crate::pass::Pass;
use at_ledger::Book;
use at_log::Closing;
use std::marker::Model;
use std::snapshot::Snapshot;

/// What a ledger leaves when it is closed: its book, and its closing, which is coherent. Only `Ledger::close` makes one, and `of_whole_book`
/// changes no more of it than the own room of the book.
#[derive(Drop)]
pub struct Closed {
    pub(crate) book: Book,
    pub(crate) closing: Closing,
    /// The ledger that it was, and its passes at their end, for clauses alone: they have no bytes.
    pub(crate) ledger: Snapshot<Ledger>,
    pub(crate) passes: Snapshot<Vec<Pass>>,
}

impl Model for Closed {
    ghost use Rattle.at_object.specs.Prelude.{Coherent};
    ghost use Rattle.at_object.specs.Closings.{ClosedTerms};

    ghost Value = { ClosedTerms };

    ghost view = { λ c. record {
      ledger = c.ledger.value;
      book = c.book;
      closing = c.closing;
      passes = c.passes.value.items;
    } };

    ghost invariant = { λ c. Coherent c.book c.closing };
}

impl Closed {
    /// The records and the receipts of all processes. Its journal is one legal run.
    pub fn closing(&self) -> &Closing
        ensures closing { result.now ≡ self.now.closing }
        ensures coherent { Coherent self.now.book self.now.closing }
    {
        &self.closing
    }

    /// The same of the whole book, where the ledger was made for this with the own room that can be used alone. On both each call is
    /// answered the same.
    pub fn of_whole_book(self, book: Book) -> Closed
        requires { self.book ≡ with_usable_room book }
        ensures closed { result ≡ record self { book = book } }
        ensures coherent { Coherent result.book result.closing }
    {
        let Closed {
            book: _,
            closing,
            ledger,
            passes,
        } = self;
        book.known();
        Closed {
            book,
            closing,
            ledger,
            passes,
        }
    }

    /// The book that the ledger was made for, or the whole of it that `of_whole_book` was given.
    pub fn book(&self) -> &Book
        ensures { result.now ≡ self.now.book }
    {
        &self.book
    }
}
