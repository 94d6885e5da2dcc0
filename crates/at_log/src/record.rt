//! Records of logs.

use at_base::Counts;
use at_board::Entry;

/// What a process publishes. The view has how many records of each process stand before this one for its process.
#[derive(Drop)]
pub struct Record {
    pub entry: Entry,
    pub view: Counts,
}
