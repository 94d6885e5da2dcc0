//! Ledgers and callers in handles.

ghost use Rattle.std.specs.Prelude.{◌≡◌, None, Some};
ghost use Rattle.at_c.specs.Prelude.{is_some};
ghost use Rattle.at_c.specs.Exports.{HandedOf, HandsOutTo, Opens, exchanges_of_held, exchanges_by_handle, steps_of_held, steps_by_handle};

use crate::caller::Caller;
use crate::handle::Handle;
use crate::held::Held;
use crate::opened::Opened;
use crate::outcome::Outcome;
use crate::why::number_of_why;
use at_files::ReadBookFault;
use std::alloc::Global;

/// What a ledger gives that is asked for its next caller.
#[derive(Drop)]
pub(crate) enum Handed {
    /// The caller.
    Next(Caller),
    /// All were handed out before.
    NoCaller,
    /// There was no memory for it.
    NoMemory,
    /// It was no ledger that was asked.
    NoLedger,
}

impl Held {
    /// The next caller of the ledger that this is.
    fn hand_out(&mut self, alloc: Global, calls: u32) -> Handed
        ensures { HandedOf calls self.old self.new result }
    {
        match self {
            Held::Ledger(opened) => match opened.hand_out(alloc, calls) {
                Ok(Some(caller)) => Handed::Next(caller),
                Ok(None) => Handed::NoCaller,
                Err(_) => Handed::NoMemory,
            },
            Held::Nothing => Handed::NoLedger,
            Held::Caller(_) => Handed::NoLedger,
            Held::Ending(_) => Handed::NoLedger,
        }
    }

    fn steps(&self) -> u64
        ensures { result ≡ steps_of_held self.now }
    {
        match self {
            Held::Caller(caller) => caller.steps(),
            Held::Nothing => 0,
            Held::Ledger(_) => 0,
            Held::Ending(_) => 0,
        }
    }

    fn exchanges(&self) -> u64
        ensures { result ≡ exchanges_of_held self.now }
    {
        match self {
            Held::Caller(caller) => caller.exchanges(),
            Held::Nothing => 0,
            Held::Ledger(_) => 0,
            Held::Ending(_) => 0,
        }
    }
}

impl Handle {
    /// Whether the handle holds anything.
    fn is_in_use(&mut self, alloc: Global) -> bool
        ensures answer { result ≡ is_some self.old.held }
        ensures same { self.new.held ≡ self.old.held }
    {
        match self.take(alloc) {
            Some(held) => {
                self.put(held);
                true
            }
            None => false,
        }
    }

    /// Fills the handle, which holds nothing, with a new ledger.
    pub(crate) fn open(
        &mut self,
        alloc: Global,
        book: &[u8],
        line: &mut u32,
        why: &mut u32,
    ) -> Outcome
        ensures { Opens book.now self.old.held self.new.held line.new why.new result }
    {
        if self.is_in_use(alloc) {
            return Outcome::InUse;
        }
        let Ok(mut held) = Box::new(alloc, Held::Nothing) else {
            return Outcome::NoMemory;
        };
        match Opened::new(alloc, book) {
            Ok(opened) => {
                *held = Held::Ledger(opened);
                self.put(held);
                Outcome::Done
            }
            Err(ReadBookFault::Bad(bad)) => {
                *line = bad.line;
                *why = number_of_why(bad.why);
                Outcome::BadBook
            }
            Err(ReadBookFault::NoMemory) => Outcome::NoMemory,
        }
    }

    /// Fills the other handle, which holds nothing, with the next caller of the ledger that this one holds.
    pub(crate) fn hand_out(&mut self, alloc: Global, calls: u32, caller: &mut Handle) -> Outcome
        ensures { HandsOutTo calls self.old.held self.new.held caller.old.held caller.new.held
            result }
    {
        if caller.is_in_use(alloc) {
            return Outcome::InUse;
        }
        let Ok(room) = Box::new(alloc, Held::Nothing) else {
            return Outcome::NoMemory;
        };
        self.hand_to(alloc, calls, caller, room)
    }

    /// The same, in memory that was taken before.
    fn hand_to(
        &mut self,
        alloc: Global,
        calls: u32,
        caller: &mut Handle,
        room: Box<Held>,
    ) -> Outcome
        requires { caller.old.held ≡ None }
        ensures { HandsOutTo calls self.old.held self.new.held caller.old.held caller.new.held
            result }
    {
        let Some(mut ledger) = self.take(alloc) else {
            return Outcome::WrongHandle;
        };
        let handed = ledger.hand_out(alloc, calls);
        self.put(ledger);
        match handed {
            Handed::Next(next) => {
                caller.put_in(room, Held::Caller(next));
                Outcome::Done
            }
            Handed::NoCaller => Outcome::NoCaller,
            Handed::NoMemory => Outcome::NoMemory,
            Handed::NoLedger => Outcome::WrongHandle,
        }
    }

    /// Leaves the handle with this, in the memory of a box.
    fn put_in(&mut self, mut room: Box<Held>, held: Held)
        ensures { self.new.held ≡ Some held }
    {
        *room = held;
        self.put(room);
    }

    /// The steps of the caller that the handle holds.
    pub(crate) fn steps(&mut self, alloc: Global) -> u64
        ensures steps { result ≡ steps_by_handle self.old.held }
        ensures same { self.new.held ≡ self.old.held }
    {
        let Some(held) = self.take(alloc) else {
            return 0;
        };
        let steps = held.steps();
        self.put(held);
        steps
    }

    /// The exchanges of the caller that the handle holds.
    pub(crate) fn exchanges(&mut self, alloc: Global) -> u64
        ensures exchanges { result ≡ exchanges_by_handle self.old.held }
        ensures same { self.new.held ≡ self.old.held }
    {
        let Some(held) = self.take(alloc) else {
            return 0;
        };
        let exchanges = held.exchanges();
        self.put(held);
        exchanges
    }
}
