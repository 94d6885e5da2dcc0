//! Where the load of an owner's row stands.

use crate::loading_request::LoadingRequest;

/// What the next turn of a row goes on with.
#[derive(Drop)]
pub(crate) enum RowStage {
    /// The announced word.
    Announced,
    /// The last request that the word counts.
    Last(LoadingRequest),
    /// Nothing: what was found is answered.
    Ended,
}
