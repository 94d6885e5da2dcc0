//! What the calls of a part do by themselves.

use crate::replies::{Range, Replies};

/// The replies to each call of each process, of which only those of the part have calls, and from where to where the calls bring
/// the balance of each account that some call of all files names first.
#[derive(Drop)]
pub(crate) struct Part {
    pub(crate) replies: Vec<Vec<Replies>>,
    pub(crate) spans: Vec<Range>,
}
