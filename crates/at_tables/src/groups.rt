//! The sets of owners that have payments to agree on.

ghost use Rattle.std.specs.Prelude.{◌≡◌, ℕ, ◌+◌, ◌^◌, ◌<◌, List, All, IfOk, OnOk, Vec, bytes_eq, length, if◌then◌else◌};
ghost use Rattle.at_tables.specs.Prelude.{Global, IsStrictlySortedBy, account_of, Call};
ghost use Rattle.at_tables.specs.Counting.{AreCounts};
ghost use Rattle.at_tables.specs.GroupKeys.{AreKnown, groups_in};
ghost use Rattle.at_tables.specs.Groups.{group_cmp, groups_of, with_group};
ghost use Rattle.at_tables.specs.Totals.{AreTotals, total_in};

use crate::counts::Counts;
use at_ledger::Book;
use std::alloc::{AllocError, Global};
use std::cmp::Reverse;
use std::collections::{BTreeMap, BTreeSet};

/// A set of owners, and how many payments they have to agree on.
#[derive(PartialEq, Eq, PartialOrd, Ord, Drop)]
pub(crate) struct Group {
    pub(crate) payments: Reverse<u64>,
    pub(crate) owners: Vec<u32>,
}

/// The owners of an account.
fn owners_of(alloc: Global, book: &Book, account: u32) -> Result<Vec<u32>, AllocError>
    requires { account < length book.now.accounts }
    ensures owners { IfOk result
        (λ owners. owners.items ≡ (account_of book.now account).owners) }
    ensures known { IfOk result
        (λ owners. All (λ owner. owner < book.now.processes) owners.items) }
{
    let mut owners = Vec::new(alloc);
    for slot in 0..book.owner_count(account) {
        owners.push(book.owner(account, slot))?;
    }
    Ok(owners)
}

/// The total of these owners, and 0 where there is none.
fn total_in(totals: &BTreeMap<Vec<u32>, u64>, owners: &Vec<u32>) -> u64
    ensures { result ≡ total_in totals.now owners.now }
{
    totals.get(owners).copied().unwrap_or(0)
}

/// Adds to the total of these owners.
fn add_to_total(
    totals: &mut BTreeMap<Vec<u32>, u64>,
    owners: Vec<u32>,
    payments: u32,
) -> Result<(), AllocError>
    requires { total_in totals.old owners + payments < 2 ^ 64 }
    ensures { OnOk result ((others : Vec ℕ Global) → total_in totals.new others
        ≡ total_in totals.old others + (if bytes_eq owners.items others.items then payments else 0)) }
{
    let total = total_in(totals, &owners) + u64::from(payments);
    let Ok(_had) = totals.insert(owners, total) else {
        return Err(AllocError);
    };
    Ok(())
}

/// The payments from shared accounts, added up for each set of owners.
fn totals_of(
    alloc: Global,
    book: &Book,
    counts: &[u32],
) -> Result<BTreeMap<Vec<u32>, u64>, AllocError>
    requires { length counts.now ≡ length book.now.accounts }
    ensures { IfOk result
        (λ totals. AreTotals book.now counts.now (length book.now.accounts) totals) }
{
    let mut totals = BTreeMap::new(alloc);
    for account in 0..book.accounts() {
        if book.owner_count(account) >= 2 {
            let owners = owners_of(alloc, book, account)?;
            add_to_total(&mut totals, owners, counts[account as usize])?;
        }
    }
    Ok(totals)
}

/// Adds a group, if it has a payment and isn't there.
fn add_group(
    groups: &mut BTreeSet<Group>,
    owners: Vec<u32>,
    payments: u64,
) -> Result<(), AllocError>
    ensures added { OnOk result (groups_in groups.new ≡ with_group (groups_in groups.old)
        (record { payments = payments; owners = owners.items })) }
    ensures known { OnOk result ((processes : ℕ) → AreKnown processes groups.old
        → All (λ owner. owner < processes) owners.items → AreKnown processes groups.new) }
{
    if payments == 0 {
        return Ok(());
    }
    let group = Group {
        payments: Reverse(payments),
        owners,
    };
    let Ok(_added) = groups.insert(group) else {
        return Err(AllocError);
    };
    Ok(())
}

/// The groups of the files that were counted.
pub(crate) fn groups(
    alloc: Global,
    book: &Book,
    counts: &Counts,
) -> Result<BTreeSet<Group>, AllocError>
    requires { length counts.now.by_owners.items ≡ length book.now.accounts }
    ensures groups { IfOk result (λ groups. (files : List (List Call))
        → AreCounts book.now files (length files) counts.now
        → groups_in groups ≡ groups_of book.now files) }
    ensures known { IfOk result (λ groups. AreKnown book.now.processes groups) }
    ensures ordered { IfOk result
        (λ groups. IsStrictlySortedBy group_cmp (groups_in groups)) }
{
    let totals = totals_of(alloc, book, counts.by_owners.as_slice())?;
    let mut groups = BTreeSet::new(alloc);
    for account in 0..book.accounts() {
        let owners = owners_of(alloc, book, account)?;
        let payments = total_in(&totals, &owners);
        add_group(&mut groups, owners, payments)?;
    }
    let _ordered = groups.len();
    Ok(groups)
}
