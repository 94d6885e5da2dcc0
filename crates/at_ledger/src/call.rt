//! Calls, their replies, and the lines of a journal.

ghost use Rattle.std.specs.Prelude.{◌≡◌, ◌^◌};
ghost use Rattle.at_ledger.specs.Call.{IsCallOn, first_account, payout_of};

use crate::targets::Targets;

/// What a process asks of the object.
#[derive(Debug, Drop)]
pub enum Call {
    /// Move `amount` from one account to another.
    Transfer { from: u32, to: u32, amount: u64 },
    /// Tell the balance of an account.
    Read { account: u32 },
    /// Move an amount from one account to each target, all of them or none.
    Pay { from: u32, targets: Targets },
}

impl Call {
    /// The same call. Takes no memory.
    pub fn copy(&self) -> Call
        ensures { result ≡ self.now }
    {
        match self {
            Call::Transfer { from, to, amount } => Call::Transfer {
                from: *from,
                to: *to,
                amount: *amount,
            },
            Call::Read { account } => Call::Read { account: *account },
            Call::Pay { from, targets } => Call::Pay {
                from: *from,
                targets: targets.copy(),
            },
        }
    }

    /// The account that it names first: the source of a payment, or the account that is read.
    pub fn first_account(&self) -> u32
        ensures { result ≡ first_account self.now }
    {
        match self {
            Call::Transfer { from, .. } => *from,
            Call::Read { account } => *account,
            Call::Pay { from, .. } => *from,
        }
    }

    /// The source and the targets of a payment, and nothing of a read. A transfer has one target. Takes no memory.
    pub fn payout(&self) -> Option<(u32, Targets)>
        requires { IsCallOn (2 ^ 16) self.now }
        ensures { result ≡ payout_of self.now }
    {
        match self {
            Call::Transfer { from, to, amount } => Some((*from, Targets::one(*to, *amount))),
            Call::Read { .. } => None,
            Call::Pay { from, targets } => Some((*from, targets.copy())),
        }
    }
}

/// What a call answers.
#[derive(Clone, Copy, Debug, PartialEq, Eq)]
pub enum Reply {
    /// The amounts were moved.
    Done,
    /// The balance is below the sum of the amounts.
    Short,
    /// The caller doesn't own the source.
    NotOwner,
    /// The caller's room at the source is used up.
    Full,
    /// The balance that a read found.
    Balance(u64),
}

/// One call of a run with its reply. `number` counts the calls of the process from 1.
#[derive(Debug, Drop)]
pub struct Line {
    pub process: u32,
    pub number: u32,
    pub call: Call,
    pub reply: Reply,
}
