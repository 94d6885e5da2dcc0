//! What was read of one log.

ghost use Rattle.std.specs.Prelude.{◌≡◌, ◌↔◌, ◌<◌, ◌≤◌, length, IsTrue};
ghost use Rattle.at_logs.specs.Prelude.{most_logs};
ghost use Rattle.at_logs.specs.Answers.{ComesNext};
ghost use Rattle.at_logs.specs.Reading.{no_tail};

use crate::entry::Entry;
use at_broadcast::{LogCounts, MESSAGES_MAX};

/// The most entries of one log. Their places are numbered from 0.
pub const ENTRIES_MAX: u32 = 4_294_967_295;

/// How many entries were read of it, bytes that spell none among them, and how many messages; the `deps` of the last entry; and the hash of
/// the bytes at the last place, or zeros.
#[derive(Drop)]
pub(crate) struct Tail {
    pub(crate) entries: u32,
    pub(crate) messages: u32,
    pub(crate) deps: LogCounts,
    pub(crate) hash: [u8; 32],
}

impl Tail {
    /// Of one of so many logs, when nothing of it was read.
    pub(crate) fn new(logs: u32) -> Tail
        requires some { 1 ≤ logs }
        requires few { logs ≤ most_logs }
        ensures { result ≡ no_tail logs }
    {
        Tail {
            entries: 0,
            messages: 0,
            deps: LogCounts::zeros(logs),
            hash: [0; 32],
        }
    }

    /// Whether the entry's `deps` are those of the next place of the log.
    pub(crate) fn comes_next(&self, log: u32, entry: &Entry) -> bool
        requires log_in { log < length entry.now.deps }
        requires sized { length self.now.deps ≡ length entry.now.deps }
        ensures { IsTrue result ↔ ComesNext self.now log entry.now }
    {
        entry.deps().get(log) == self.messages
            && entry.len() <= MESSAGES_MAX - self.messages
            && entry.deps().covers(&self.deps)
    }
}

/// Whether two hashes are the same.
pub(crate) fn is_same(one: &[u8; 32], other: &[u8; 32]) -> bool
    ensures { IsTrue result ↔ (one.now ≡ other.now) }
{
    one == other
}
