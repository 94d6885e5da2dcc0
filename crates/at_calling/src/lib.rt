//! The object's calls as state machines, each of whose turns makes one step of the board.
//!
//! A call is started in no step, and its last turn answers what the object's call answers, within the same bounds on steps and
//! exchanges. Between two of its turns the seats of other processes may step, and its own seat makes no other step.
//!
//! Each call begins with a look. A payment from an account of one owner ends with an append where it is covered. One from a shared
//! account asks after its look and loads the rows of the account, which is its start, and then makes turns of helping until its
//! request is settled: each is a look, and then a round, from its exchange to its record. A `Calling` is any call of a pass that was
//! taken apart into its parts, a refusal too.
//!
//! The definitions read best in this order: `Reading`, `PayingAlone`, `Starting`, `Turning`, `PayingShared`, `Calling`. `CallNumbers`
//! has what the calls of one book may have taken so far, as numbers. Those whose names begin with `Kept` say what stands between two turns.
#![tactic(auto)]

mod call_stage;
mod calling;
mod pay_stage;
mod paying_alone;
mod paying_shared;
mod reading;
mod share_stage;
mod start_stage;
mod starting;
mod turn_stage;
mod turning;

pub use crate::calling::Calling;
pub use crate::paying_alone::PayingAlone;
pub use crate::paying_shared::PayingShared;
pub use crate::reading::Reading;
pub use crate::starting::Starting;
pub use crate::turning::Turning;
