//! Where a round in the making stands.

use crate::appending::Appending;
use crate::loading_request::LoadingRequest;
use at_base::Decision;

/// What the next turn of a round goes on with.
#[derive(Drop)]
pub(crate) enum RoundStage {
    /// The exchange, with this proposal.
    Proposing(Decision),
    /// The load of the request that was decided.
    Loading(Decision, LoadingRequest),
    /// The append of the round's record.
    Publishing(Decision, Appending),
    /// Nothing: the decision is answered.
    Ended,
}
