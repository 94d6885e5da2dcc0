//! The calls that were made with a pass, for contracts alone: a pass keeps snapshots of this, which have no bytes.

ghost use Rattle.std.specs.Prelude.{◌≡◌, [], ◌∷◌, ◌++◌};
ghost use Rattle.at_object.specs.Passes.{cost_of_parts, cost_since};

use at_board::BoardSeat;
use at_fold::Totals;
use at_ledger::{Call, Reply};
use at_log::At;
use std::marker::Model;
use std::snapshot::Snapshot;

/// A call and its answer, with the seat and the totals of its pass before it and after it.
#[derive(Drop)]
pub(crate) struct PastCall {
    pub(crate) call: Snapshot<Call>,
    pub(crate) reply: Snapshot<Reply>,
    pub(crate) at: Snapshot<At>,
    pub(crate) start: Snapshot<Snapshot<BoardSeat>>,
    pub(crate) counted: Snapshot<Snapshot<Totals>>,
    pub(crate) seat: Snapshot<BoardSeat>,
    pub(crate) totals: Snapshot<Totals>,
}

impl Model for PastCall {
    ghost use Rattle.at_object.specs.Passes.{cost_of_parts, cost_since};
    ghost use Rattle.at_object.specs.PastCalls.{PastCall};

    ghost Value = { PastCall };

    ghost view = { λ c. record {
      receipt = record { call = c.call.value; reply = c.reply.value; at = c.at.value };
      cost = cost_since (cost_of_parts c.start.value.value c.counted.value.value.upto)
          (cost_of_parts c.seat.value c.totals.value.upto);
    } };
}

/// Calls in the order in which they were made.
#[derive(Drop)]
#[cycle(past)]
pub struct Past {
    calls: Calls,
}

#[derive(Drop)]
#[cycle(past)]
enum Calls {
    None,
    After(Snapshot<Past>, Snapshot<PastCall>),
}

impl Model for Past {
    ghost use Rattle.std.specs.Prelude.{List, length};
    ghost use Rattle.at_object.specs.PastCalls.{PastCall};

    ghost Value = { List PastCall };

    ghost use Rattle.at_object.specs.Past.{past_of};

    ghost view = { λ p. past_of p.calls };

    ghost size = { length };
}

impl Past {
    /// No call.
    pub(crate) fn none() -> Snapshot<Past>
        ensures { result.value ≡ [] }
    {
        Snapshot::of(&Past { calls: Calls::None })
    }

    /// One call more.
    pub(crate) fn with(before: Snapshot<Past>, call: &PastCall) -> Snapshot<Past>
        ensures { result.value ≡ before.value ++ call.now ∷ [] }
    {
        let calls = Calls::After(before, Snapshot::of(call));
        Snapshot::of(&Past { calls })
    }
}
