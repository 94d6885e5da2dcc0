//! The targets of a pay-out.

ghost use Rattle.std.specs.Prelude.{◌≡◌, ◌<◌, ◌≤◌, ◌^◌, ◌++◌, [], ◌∷◌, length};
ghost use Rattle.at_ledger.specs.Limits.{most_targets};

use std::marker::Model;

/// The most targets of one pay-out.
pub const TARGETS_MAX: usize = 4;

/// One to four accounts with an amount for each. An account may stand in it twice.
///
/// Accounts and amounts stand apart, since a pair of both would have six bytes that say nothing. A book has fewer than 2^16 accounts,
/// so the number of one takes two bytes.
#[derive(Debug, Drop)]
pub struct Targets {
    amounts: [u64; TARGETS_MAX],
    accounts: [u16; TARGETS_MAX],
    count: u32,
}

impl Model for Targets {
    ghost use Rattle.std.specs.Prelude.{◌≤◌, List, ℕ, take};
    ghost use Rattle.at_ledger.specs.Prelude.{zip};
    ghost use Rattle.at_ledger.specs.Limits.{most_targets};

    ghost Value = { List (ℕ × ℕ) };

    ghost view = { λ t. take t.count (zip t.accounts t.amounts) };

    ghost invariant = { λ t. (1 ≤ t.count) × (t.count ≤ most_targets) };
}

impl Targets {
    ghost use Rattle.at_ledger.specs.Call.{amount_of, target_at};

    /// The one target of a transfer.
    pub fn one(to: u32, amount: u64) -> Targets
        requires { to < 2 ^ 16 }
        ensures { result ≡ (to, amount) ∷ [] }
    {
        Targets {
            amounts: [amount, 0, 0, 0],
            accounts: [to as u16, 0, 0, 0],
            count: 1,
        }
    }

    /// Adds a target after the others.
    pub fn push(&mut self, to: u32, amount: u64)
        requires room { length self.old < most_targets }
        requires account { to < 2 ^ 16 }
        ensures { self.new ≡ self.old ++ (to, amount) ∷ [] }
    {
        let i = self.count as usize;
        self.amounts[i] = amount;
        self.accounts[i] = to as u16;
        self.count += 1;
    }

    /// How many targets there are.
    pub fn len(&self) -> u32
        ensures count { result ≡ length self.now }
        ensures some { 1 ≤ length self.now }
        ensures few { length self.now ≤ most_targets }
        ensures limit { TARGETS_MAX ≡ most_targets }
    {
        self.count
    }

    /// The account of a target.
    pub fn to(&self, i: u32) -> u32
        requires { i < length self.now }
        ensures { result ≡ (target_at self.now i).0 }
    {
        u32::from(self.accounts[i as usize])
    }

    /// The amount for a target.
    pub fn amount(&self, i: u32) -> u64
        requires { i < length self.now }
        ensures { result ≡ (target_at self.now i).1 }
    {
        self.amounts[i as usize]
    }

    /// The sum of the amounts, which may not fit 64 bits.
    pub fn sum(&self) -> u128
        ensures sum { result ≡ amount_of self.now }
        ensures small { result ≤ 2 ^ 66 }
    {
        let mut sum = 0u128;
        for i in 0..self.count {
            sum += u128::from(self.amounts[i as usize]);
        }
        sum
    }

    /// The same targets. Takes no memory.
    pub fn copy(&self) -> Targets
        ensures { result ≡ self.now }
    {
        Targets {
            amounts: self.amounts,
            accounts: self.accounts,
            count: self.count,
        }
    }
}
