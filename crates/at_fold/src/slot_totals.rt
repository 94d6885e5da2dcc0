//! What is counted of the requests of one owner.

ghost use Rattle.std.specs.Prelude.{◌≡◌, ◌+◌, ◌<◌, ◌^◌, length, replicate, None, Some, IfOk};
ghost use Rattle.at_fold.specs.Sums.{answer_at, with_answer};

use at_base::Decision;
use std::alloc::{AllocError, Global};
use std::marker::Model;

/// How many requests of a slot are decided, and for each of them, by number, the round and the decision.
#[derive(Drop)]
pub(crate) struct SlotTotals {
    done: u32,
    settled: Vec<Option<(u32, Decision)>>,
}

impl Model for SlotTotals {
    ghost use Rattle.at_fold.specs.Sums.{SlotSums};

    ghost Value = { SlotSums };

    ghost view = { λ s. record { done = s.done; settled = s.settled.items } };
}

impl SlotTotals {
    /// Nothing counted, with room for so many requests.
    pub(crate) fn new(alloc: Global, request_room: u32) -> Result<SlotTotals, AllocError>
        ensures { IfOk result (λ s. s ≡ record {
          done = 0;
          settled = replicate request_room None;
        }) }
    {
        let settled = vec![in alloc; None; request_room as usize]?;
        Ok(SlotTotals { done: 0, settled })
    }

    pub(crate) fn done(&self) -> u32
        ensures { result ≡ self.now.done }
    {
        self.done
    }

    pub(crate) fn settled(&self, number: u32) -> Option<(u32, Decision)>
        requires { number < length self.now.settled }
        ensures { result ≡ answer_at self.now number }
    {
        self.settled[number as usize]
    }

    /// Counts a decision of the slot.
    pub(crate) fn settle(&mut self, round: u32, decision: &Decision)
        requires number { decision.now.number < length self.old.settled }
        requires room { self.old.done + 1 < 2 ^ 32 }
        ensures { self.new ≡ with_answer self.old round decision.now }
    {
        self.settled[decision.number as usize] = Some((round, *decision));
        self.done += 1;
    }
}
