//! Credits that are kept.

ghost use Rattle.std.specs.Prelude.{◌≡◌, ℕ, ◌+◌, ◌<◌, ◌^◌, All, length, slice_index, sum_by};
ghost use Rattle.at_logs.specs.Compact.{credit_below, credit_to, is_below};

use at_broadcast::LogCounts;

/// What the validated message of a log and number brought to an account.
#[derive(Clone, Copy, Debug, Drop)]
pub(crate) struct Credit {
    pub(crate) account: u32,
    pub(crate) log: u32,
    pub(crate) number: u32,
    pub(crate) amount: u64,
}

/// Whether the counts have the message that the credit came by.
pub(crate) fn is_below(deps: &LogCounts, credit: &Credit) -> bool
    ensures { result ≡ is_below deps.now credit.now }
{
    credit.log < deps.len() && credit.number < deps.get(credit.log)
}

/// Adds to each account the credits to it that the counts have.
pub(crate) fn add_below(settled: &mut [u64], credits: &[Credit], deps: &LogCounts)
    requires accounts { All (λ x. x.account < length settled.old) credits.now }
    requires fits { All (λ x. slice_index settled.old x.account + sum_by (credit_to x.account) credits.now < 2 ^ 64) credits.now }
    ensures { (account : ℕ) → account < length settled.old
        → slice_index settled.new account ≡ slice_index settled.old account + sum_by (credit_below account deps.now) credits.now }
{
    for credit in credits {
        if is_below(deps, credit) {
            settled[credit.account as usize] += credit.amount;
        }
    }
}
