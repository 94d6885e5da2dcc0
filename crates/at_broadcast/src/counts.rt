//! Counts of messages, one for each log.

ghost use Rattle.std.specs.Prelude.{◌≡◌, ◌^◌, ◌<◌, ◌≤◌, ◌↔◌, length, replicate, slice_index, slice_set, IsTrue};
ghost use Rattle.at_broadcast.specs.Prelude.{Covers};
ghost use Rattle.at_broadcast.specs.LogBook.{most_logs};

use std::marker::Model;

/// The most logs.
pub const LOGS_MAX: u32 = 64;

/// One to 64 counts of 32 bits, one for each log. It takes no memory.
#[derive(Debug, Drop)]
pub struct LogCounts {
    list: [u32; 64],
    logs: u32,
}

impl Model for LogCounts {
    ghost use Rattle.std.specs.Prelude.{◌≡◌, ℕ, ◌≤◌, List, length, take};

    ghost Value = { List ℕ };

    ghost view = { λ c. take c.logs c.list };

    ghost invariant = { λ c. (1 ≤ c.logs) × (c.logs ≤ 64) × (length c.list ≡ 64) };
}

impl LogCounts {
    /// A list of zeros.
    pub fn zeros(n: u32) -> LogCounts
        requires some { 1 ≤ n }
        requires few { n ≤ most_logs }
        ensures { result ≡ replicate n 0 }
    {
        LogCounts {
            list: [0; 64],
            logs: n,
        }
    }

    /// The counts as a slice.
    fn entries(&self) -> &[u32]
        ensures { result.now ≡ self.now }
    {
        &self.list[..self.logs as usize]
    }

    /// How many counts there are.
    pub fn len(&self) -> u32
        ensures length { result ≡ length self.now }
        ensures some { 1 ≤ result }
        ensures few { result ≤ most_logs }
    {
        self.logs
    }

    /// The count of a log.
    pub fn get(&self, log: u32) -> u32
        requires { log < length self.now }
        ensures { result ≡ slice_index self.now log }
    {
        self.list[log as usize]
    }

    /// Makes `count` the count of a log.
    pub fn set(&mut self, log: u32, count: u32)
        requires { log < length self.old }
        ensures { self.new ≡ slice_set self.old log count }
    {
        self.list[log as usize] = count;
    }

    /// Whether no count is below the other list's.
    pub fn covers(&self, other: &LogCounts) -> bool
        requires { length self.now ≡ length other.now }
        ensures { IsTrue result ↔ Covers self.now other.now }
    {
        self.entries()
            .iter()
            .zip(other.entries().iter())
            .all(|(mine, theirs)| theirs <= mine)
    }

    /// An equal list. It takes no memory, so it can't fail as a clone can.
    pub fn copy(&self) -> LogCounts
        ensures { result ≡ self.now }
    {
        LogCounts {
            list: self.list,
            logs: self.logs,
        }
    }
}
