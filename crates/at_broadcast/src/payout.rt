//! Pay-outs of validated messages, and the balances that they change.

ghost use Rattle.std.specs.Prelude.{◌≡◌, ◌+◌, ◌<◌, ◌^◌, length, sum};
ghost use Rattle.at_broadcast.specs.Prelude.{AreTargetsOn, amount_of, credited};

use at_ledger::Targets;

/// What a valid message of a log moves.
#[derive(Drop)]
pub struct Payout {
    pub log: u32,
    pub from: u32,
    pub targets: Targets,
}

/// Adds each amount to its target, in order.
pub fn credit(balances: &mut [u64], targets: &Targets)
    requires targets_in { AreTargetsOn (length balances.old) targets.now }
    requires fits { sum balances.old + amount_of targets.now < 2 ^ 64 }
    ensures { balances.new ≡ credited balances.old targets.now }
{
    for i in 0..targets.len() {
        balances[targets.to(i) as usize] += targets.amount(i);
    }
}
