//! Notes between callers, as exports ask for them.

ghost use Rattle.std.specs.Prelude.{Some};
ghost use Rattle.at_c.specs.Exports.{HandleLearns, HandleNotes};

use crate::handle::Handle;
use crate::held::Held;
use crate::outcome::Outcome;
use std::alloc::Global;

impl Held {
    /// Leaves a note by the caller that this is.
    fn note(&mut self, process: u32) -> Outcome
        ensures { HandleNotes process (Some self.old) (Some self.new) result }
    {
        match self {
            Held::Caller(caller) => caller.note(process),
            Held::Nothing => Outcome::WrongHandle,
            Held::Ledger(_) => Outcome::WrongHandle,
            Held::Ending(_) => Outcome::WrongHandle,
        }
    }

    /// Takes in a note by the caller that this is.
    fn learn(&mut self, process: u32) -> Outcome
        ensures { HandleLearns process (Some self.old) (Some self.new) result }
    {
        match self {
            Held::Caller(caller) => caller.learn(process),
            Held::Nothing => Outcome::WrongHandle,
            Held::Ledger(_) => Outcome::WrongHandle,
            Held::Ending(_) => Outcome::WrongHandle,
        }
    }
}

impl Handle {
    /// Leaves a note by the caller that the handle holds.
    pub(crate) fn note(&mut self, alloc: Global, process: u32) -> Outcome
        ensures { HandleNotes process self.old.held self.new.held result }
    {
        let Some(mut held) = self.take(alloc) else {
            return Outcome::WrongHandle;
        };
        let outcome = held.note(process);
        self.put(held);
        outcome
    }

    /// Takes in a note by the caller that the handle holds.
    pub(crate) fn learn(&mut self, alloc: Global, process: u32) -> Outcome
        ensures { HandleLearns process self.old.held self.new.held result }
    {
        let Some(mut held) = self.take(alloc) else {
            return Outcome::WrongHandle;
        };
        let outcome = held.learn(process);
        self.put(held);
        outcome
    }
}
