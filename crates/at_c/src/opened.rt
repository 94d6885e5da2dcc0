//! Ledgers with the passes that weren't handed out, and with those that came back.

ghost use Rattle.std.specs.Prelude.{◌≡◌, ◌+◌, ◌++◌, ◌<◌, ◌≤◌, [], length, replicate, Err, IfErr, IfOk, IsTrue};
ghost use Rattle.at_c.specs.Prelude.{vec_capacity, book_of_records, AreNamesOf, file_records, contents_of, AreNewPasses};
ghost use Rattle.at_c.specs.Ledgers.{GathersPasses, HandsOut, IsNewLedger, IsStillOpen};

use crate::caller::Caller;
use crate::gathered::Gathered;
use crate::given::Given;
use crate::shared::Shared;
use at_files::{BadBook, Names, ReadBookFault, read_book};
use at_log::Receipt;
use at_object::{Ledger, Pass};
use std::alloc::{AllocError, Global};
use std::collections::VecDeque;
use std::marker::Model;
use std::sync::Arc;

/// A ledger that was opened: what its callers share, how many were handed out, the passes of the others, in order, and the passes that
/// came back, in order, with their receipts. It has memory for all of these from the start.
#[derive(Drop)]
pub struct Opened {
    shared: Arc<Shared>,
    handed: u32,
    waiting: VecDeque<Pass>,
    passes: Vec<Pass>,
    receipts: Vec<Vec<Receipt>>,
}

impl Model for Opened {
    ghost use Rattle.at_c.specs.Prelude.{arc_value, vec_capacity};
    ghost use Rattle.at_ledger.specs.Files.{contents_of};
    ghost use Rattle.at_c.specs.Ledgers.{IsOpened, OpenedTerms};

    ghost Value = { OpenedTerms };

    ghost view = { λ o. record {
      shared = arc_value o.shared;
      handed = o.handed;
      waiting = o.waiting.items;
      passes = o.passes.items;
      receipts = contents_of o.receipts.items;
      passes_room = vec_capacity o.passes;
      receipts_room = vec_capacity o.receipts;
    } };

    ghost invariant = { λ o. IsOpened (record {
      shared = arc_value o.shared;
      handed = o.handed;
      waiting = o.waiting.items;
      passes = o.passes.items;
      receipts = contents_of o.receipts.items;
      passes_room = vec_capacity o.passes;
      receipts_room = vec_capacity o.receipts;
    }) };
}

impl Opened {
    /// A ledger for the book that the bytes spell. Takes its memory, and none later but that of callers and of its end.
    pub(crate) fn new(alloc: Global, bytes: &[u8]) -> Result<Opened, ReadBookFault>
        ensures ok { IfOk result (IsNewLedger bytes.now) }
        ensures bad { (b : BadBook) → result ≡ Err (ReadBookFault.Bad b)
            → book_of_records (file_records bytes.now) ≡ Err b }
    {
        let (book, names) = match read_book(alloc, bytes) {
            Ok(read) => read,
            Err(fault) => return Err(fault),
        };
        let Ok((ledger, passes)) = Ledger::new(alloc, &book) else {
            return Err(ReadBookFault::NoMemory);
        };
        match Opened::of(alloc, ledger, names, passes) {
            Ok(opened) => Ok(opened),
            Err(_) => Err(ReadBookFault::NoMemory),
        }
    }

    /// A new ledger with the passes of all processes.
    fn of(
        alloc: Global,
        ledger: Ledger,
        names: Names,
        waiting: Vec<Pass>,
    ) -> Result<Opened, AllocError>
        requires names { AreNamesOf ledger.book names }
        requires passes { AreNewPasses ledger waiting.items }
        ensures shared { IfOk result (λ o. (o.shared.ledger ≡ ledger) × (o.shared.names ≡ names)) }
        ensures handed { IfOk result (λ o. o.handed ≡ 0) }
    {
        let processes = ledger.book().processes() as usize;
        let passes = Vec::with_capacity(alloc, processes)?;
        let receipts = Vec::with_capacity(alloc, processes)?;
        let shared = Arc::new(alloc, Shared::new(alloc, ledger, names)?)?;
        Ok(Opened {
            shared,
            handed: 0,
            waiting: VecDeque::from(waiting),
            passes,
            receipts,
        })
    }

    /// The caller of the next process, with memory for so many receipts, if one is left.
    pub(crate) fn hand_out(
        &mut self,
        alloc: Global,
        calls: u32,
    ) -> Result<Option<Caller>, AllocError>
        ensures ok { IfOk result (HandsOut calls self.old self.new) }
        ensures err { IfErr result (λ _. self.new ≡ self.old) }
    {
        let receipts = Vec::with_capacity(alloc, calls as usize)?;
        let shared = Arc::try_clone(&self.shared)?;
        match self.waiting.pop_front() {
            None => Ok(None),
            Some(pass) => {
                self.handed += 1;
                Ok(Some(Caller::new(shared, pass, receipts)))
            }
        }
    }

    /// How many accounts the book has.
    pub(crate) fn accounts(&self) -> u32
        ensures { result ≡ length self.now.shared.ledger.book.accounts }
    {
        self.shared.ledger.book().accounts()
    }

    /// How many processes the book has.
    pub(crate) fn processes(&self) -> u32
        ensures { result ≡ self.now.shared.ledger.book.processes }
    {
        self.shared.ledger.book().processes()
    }

    /// Takes in what the next caller that isn't back has given back, if it has.
    fn take_next(&mut self) -> bool
        requires { length self.old.passes < self.old.handed }
        ensures same { IsStillOpen self.old self.new }
        ensures taken { IsTrue result → length self.new.passes ≡ length self.old.passes + 1 }
    {
        let process = self.passes.len() as u32;
        let Some(Given { pass, receipts }) = self.shared.take_given(process) else {
            return false;
        };
        self.passes.push_reserved(pass);
        self.receipts.push_reserved(receipts);
        true
    }

    /// Takes in what callers have given back, in the order of their processes, and tells whether all did.
    fn take_back(&mut self) -> bool
        ensures same { IsStillOpen self.old self.new }
        ensures all { IsTrue result → length self.new.passes ≡ self.new.handed }
    {
        for _process in self.passes.len()..self.handed as usize {
            if !self.take_next() {
                return false;
            }
        }
        true
    }

    /// The ledger alone with all its passes, where all callers were given back.
    pub(crate) fn gathered(mut self, alloc: Global) -> Result<Gathered, Opened>
        ensures ok { IfOk result (GathersPasses self) }
        ensures err { IfErr result (IsStillOpen self) }
    {
        if !self.take_back() {
            return Err(self);
        }
        let Opened {
            shared,
            handed,
            waiting,
            passes,
            receipts,
        } = self;
        match Arc::try_unwrap(shared) {
            Ok(shared) => {
                let (ledger, names) = shared.into_parts();
                let (passes, receipts) = with_unused(alloc, passes, receipts, waiting);
                Ok(Gathered::new(ledger, names, passes, receipts))
            }
            // A thread has just given its caller back, and hasn't let go of the ledger.
            Err(shared) => Err(Opened {
                shared,
                handed,
                waiting,
                passes,
                receipts,
            }),
        }
    }
}

/// Passes with their receipts, and behind them those that were never handed out, which have none.
fn with_unused(
    alloc: Global,
    mut passes: Vec<Pass>,
    mut receipts: Vec<Vec<Receipt>>,
    unused: VecDeque<Pass>,
) -> (Vec<Pass>, Vec<Vec<Receipt>>)
    requires passes { length passes.items + length unused.items ≤ vec_capacity passes }
    requires receipts { length receipts.items + length unused.items ≤ vec_capacity receipts }
    ensures passes { result.0.items ≡ passes.items ++ unused.items }
    ensures receipts { contents_of result.1.items
        ≡ contents_of receipts.items ++ replicate (length unused.items) [] }
{
    for pass in unused {
        passes.push_reserved(pass);
        receipts.push_reserved(Vec::new(alloc));
    }
    (passes, receipts)
}
