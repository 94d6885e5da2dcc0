//! What a call leaves: its reply, and where it stands.

use at_base::Counts;
use at_ledger::{Call, Reply};

/// Where a call stands among the publications.
#[derive(Drop)]
pub enum At {
    /// At the cut of its snapshot: a read, or a pay-out from a single account that was short.
    Cut(Counts),
    /// At its own record, by its number in the log of its process: a pay-out from a single account that was done.
    Own(u32),
    /// In a round of a shared account, done or short. The place is that of the round's decision.
    Round { round: u32, place: u32 },
    /// With the call before it of its process: a pay-out of no owner, or of an owner whose room is used up.
    Previous,
}

/// A call with its reply and its place.
#[derive(Drop)]
pub struct Receipt {
    pub call: Call,
    pub reply: Reply,
    pub at: At,
}

impl Default for Receipt {
    /// What stands in the unused places of a list.
    fn default() -> Receipt {
        Receipt {
            call: Call::Read { account: 0 },
            reply: Reply::Full,
            at: At::Previous,
        }
    }
}
