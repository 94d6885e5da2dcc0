//! The last requests of the owners of an account, and which of them is the oldest.

ghost use Rattle.std.specs.Prelude.{◌≡◌, ℕ, ◌+◌, ◌<◌, ◌≤◌, ◌++◌, [], length, All, Contains, IfSome};
ghost use Rattle.at_requests.specs.Prelude.{option_to_list};
ghost use Rattle.at_requests.specs.OpenRequests.{AreBelow, AreRising};
ghost use Rattle.at_requests.specs.Oldest.{IsFirstBelow, IsNotDone, IsOldestOf};
ghost use Rattle.at_requests.specs.declared.open_request.OpenRequest.{OpenRequest};

use crate::open_request::OpenRequest;
use arrayvec::ArrayVec;
use at_base::Counts;
use std::marker::Model;

/// Requests of at most eight owners of one account, in the order of their slots. It takes no memory.
#[derive(Drop)]
pub struct Asked {
    pub(crate) list: ArrayVec<OpenRequest, 8>,
}

impl Model for Asked {
    ghost use Rattle.std.specs.Prelude.{◌≤◌, List, length};
    ghost use Rattle.at_requests.specs.OpenRequests.{AreRising};
    ghost use Rattle.at_requests.specs.declared.open_request.OpenRequest.{OpenRequest};

    ghost Value = { List OpenRequest };

    ghost view = { λ a. a.list.items };

    ghost invariant = { λ a. (length a.list.items ≤ 8) × AreRising a.list.items };
}

impl Asked {
    /// No requests.
    pub fn empty() -> Asked
        ensures { result ≡ [] }
    {
        Asked {
            list: ArrayVec::new(),
        }
    }

    /// Adds a request behind the others, if there is one.
    pub fn add(&mut self, found: Option<OpenRequest>)
        requires room { length self.old < 8 }
        requires above { IfSome found (λ x. AreBelow self.old x.slot) }
        ensures { self.new ≡ self.old ++ option_to_list found }
    {
        if let Some(x) = found {
            self.list.push(x);
        }
    }

    /// Tells a proof what the type keeps. It does nothing when it runs.
    pub fn known(&self)
        ensures few { length self.now ≤ 8 }
        ensures rising { AreRising self.now }
    {
        let _ = &self.list;
    }

    /// Which of the first `i + 1` requests is the oldest that is left, where `first` is that of the first `i`.
    fn older(&self, done: &Counts, first: Option<usize>, i: usize) -> Option<usize>
        requires within { i < length self.now }
        requires slots { All (λ x. x.slot < length done.now) self.now }
        requires first { IsFirstBelow self.now done.now i first }
        ensures { IsFirstBelow self.now done.now (i + 1) result }
    {
        let x = &self.list[i];
        if x.number < done.get(x.slot) {
            return first;
        }
        match first {
            None => Some(i),
            Some(best) => {
                // As old: the smaller slot comes first, which stands before.
                if self.list[best].since <= x.since {
                    first
                } else {
                    Some(i)
                }
            }
        }
    }
}

/// The request with the least `since`, and then the least slot, among those whose number is at least `done` at their slot. It
/// makes no step and takes no memory.
pub fn oldest(asked: &Asked, done: &Counts) -> OpenRequest
    requires slots { All (λ x. x.slot < length done.now) asked.now }
    requires some { (x : OpenRequest) × Contains asked.now x × IsNotDone done.now x }
    ensures { IsOldestOf asked.now done.now result }
{
    let mut first = None;
    for i in 0..asked.list.len() {
        first = asked.older(done, first, i);
    }
    asked.list[first.unwrap()].copy()
}
