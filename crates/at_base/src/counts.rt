//! Short lists of counts, one for each process.

ghost use Rattle.std.specs.Prelude.{◌≡◌, ◌^◌, ◌<◌, ◌≤◌, ◌↔◌, length, replicate, slice_index, slice_set, sum, IsTrue};
ghost use Rattle.at_base.specs.Counts.{Covers};

use std::marker::Model;

/// The most counts of a list.
pub const COUNTS_MAX: u32 = 16;

/// One to sixteen counts below 2^16, one for each process. It takes no memory.
///
/// No log has as many as 2^16 records, so a count takes two bytes: each receipt of a read holds a whole list of them.
#[derive(Debug, Drop)]
pub struct Counts {
    list: [u16; 16],
    processes: u32,
}

impl Model for Counts {
    ghost use Rattle.std.specs.Prelude.{◌≡◌, ℕ, ◌≤◌, List, length, take};

    ghost Value = { List ℕ };

    ghost view = { λ c. take c.processes c.list };

    ghost invariant = { λ c. (1 ≤ c.processes) × (c.processes ≤ 16) × (length c.list ≡ 16) };
}

impl Counts {
    /// A list of zeros.
    pub fn zeros(n: u32) -> Counts
        requires some { 1 ≤ n }
        requires few { n ≤ COUNTS_MAX }
        ensures { result ≡ replicate n 0 }
    {
        Counts {
            list: [0; 16],
            processes: n,
        }
    }

    /// The counts as a slice.
    fn entries(&self) -> &[u16]
        ensures { result.now ≡ self.now }
    {
        &self.list[..self.processes as usize]
    }

    /// How many counts there are.
    pub fn len(&self) -> u32
        ensures length { result ≡ length self.now }
        ensures some { 1 ≤ result }
        ensures few { result ≤ COUNTS_MAX }
    {
        self.processes
    }

    /// The count of process `p`.
    pub fn get(&self, p: u32) -> u32
        requires { p < length self.now }
        ensures { result ≡ slice_index self.now p }
    {
        u32::from(self.list[p as usize])
    }

    /// Makes `c` the count of process `p`.
    pub fn set(&mut self, p: u32, c: u32)
        requires process { p < length self.old }
        requires small { c < 2 ^ 16 }
        ensures { self.new ≡ slice_set self.old p c }
    {
        self.list[p as usize] = c as u16;
    }

    /// What the counts add up to.
    pub fn sum(&self) -> u32
        requires { sum self.now < 2 ^ 32 }
        ensures { result ≡ sum self.now }
    {
        self.total() as u32
    }

    /// The sum, which always fits 64 bits.
    pub fn total(&self) -> u64
        ensures total { result ≡ sum self.now }
        ensures small { result < 2 ^ 37 }
    {
        let mut total = 0;
        for p in 0..self.len() {
            total += u64::from(self.get(p));
        }
        total
    }

    /// Whether no count is below the other list's.
    pub fn covers(&self, other: &Counts) -> bool
        requires { length self.now ≡ length other.now }
        ensures { IsTrue result ↔ Covers self.now other.now }
    {
        self.entries()
            .iter()
            .zip(other.entries().iter())
            .all(|(mine, theirs)| theirs <= mine)
    }

    /// An equal list. It takes no memory, so it can't fail as a clone can.
    pub fn copy(&self) -> Counts
        ensures { result ≡ self.now }
    {
        Counts {
            list: self.list,
            processes: self.processes,
        }
    }
}
