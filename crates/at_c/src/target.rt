//! The targets of a pay-out, as C has them.

ghost use Rattle.std.specs.Prelude.{◌≡◌, ◌^◌, ◌<◌, None, IfSome};
ghost use Rattle.at_c.specs.Exports.{IsPayOut};
ghost use Rattle.at_c.specs.Near.{near_account, near_pairs_of};

use at_ledger::{TARGETS_MAX, Targets};

/// An account that a pay-out pays, and the amount for it.
#[repr(C)]
#[derive(Clone, Copy)]
pub struct Target {
    pub account: u32,
    pub amount: u64,
}

/// The account, or one that no book has where it is too far for targets to hold.
fn near_account(account: u32) -> u32
    ensures near { result ≡ near_account account }
    ensures small { result < 2 ^ 16 }
{
    account.min(u32::from(u16::MAX))
}

/// The targets of a pay-out, if they are neither none nor too many. In place of accounts that are too far for targets to hold they
/// have one that no book has either.
pub(crate) fn targets_of(targets: &[Target]) -> Option<Targets>
    ensures pairs { IfSome result (λ all. all ≡ near_pairs_of targets.now) }
    ensures some { IfSome result (λ _. IsPayOut targets.now) }
    ensures none { result ≡ None → ¬ IsPayOut targets.now }
{
    let (first, others) = targets.split_first()?;
    if others.len() >= TARGETS_MAX {
        return None;
    }
    let mut all = Targets::one(near_account(first.account), first.amount);
    for target in others {
        all.push(near_account(target.account), target.amount);
    }
    Some(all)
}
