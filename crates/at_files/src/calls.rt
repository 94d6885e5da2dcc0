//! The call that one record of a payment file spells.

ghost use Rattle.std.specs.Prelude.{◌≡◌, ◌+◌, ◌*◌, ◌≤◌, ◌<◌, true, drop, length, IfSome};
ghost use Rattle.at_files.specs.Prelude.{most_accounts, most_targets};
ghost use Rattle.at_files.specs.Names.{position_of};
ghost use Rattle.at_files.specs.Records.{field_of, number_at};
ghost use Rattle.at_files.specs.Payments.{call_of, has_amounts, is_pay, named_call_of, named_pay, named_read, named_transfer, plain_call_of, read_of, target_of, targets_spelled, transfer_of};

use crate::fields::{field_of, has_shape, number_at};
use crate::names::Names;
use crate::payments_fault::PaymentsWhy;
use crate::record::Record;
use at_ledger::{Call, Targets};

/// A transfer between two of so many accounts.
fn transfer_of(
    accounts: u32,
    from: Option<u64>,
    to: Option<u64>,
    amount: Option<u64>,
) -> Result<Call, PaymentsWhy>
    ensures { result ≡ transfer_of accounts from to amount }
{
    let (Some(from), Some(to), Some(amount)) = (from, to, amount) else {
        return Err(PaymentsWhy::Number);
    };
    if from < u64::from(accounts) && to < u64::from(accounts) {
        Ok(Call::Transfer {
            from: from as u32,
            to: to as u32,
            amount,
        })
    } else {
        Err(PaymentsWhy::UnknownAccount)
    }
}

/// A read of one of so many accounts.
fn read_of(accounts: u32, account: Option<u64>) -> Result<Call, PaymentsWhy>
    ensures { result ≡ read_of accounts account }
{
    let Some(account) = account else {
        return Err(PaymentsWhy::Number);
    };
    if account < u64::from(accounts) {
        Ok(Call::Read {
            account: account as u32,
        })
    } else {
        Err(PaymentsWhy::UnknownAccount)
    }
}

/// The call that a record spells, where accounts are given by their numbers.
fn plain_call_of(accounts: u32, fields: &Record<'_>) -> Result<Call, PaymentsWhy>
    ensures { result ≡ plain_call_of accounts fields.now }
{
    if has_shape(fields, b"transfer", 4) {
        transfer_of(
            accounts,
            number_at(fields, 1),
            number_at(fields, 2),
            number_at(fields, 3),
        )
    } else if has_shape(fields, b"read", 2) {
        read_of(accounts, number_at(fields, 1))
    } else {
        Err(PaymentsWhy::Shape)
    }
}

/// A transfer between accounts that are given by their names.
fn named_transfer(
    from: Option<u32>,
    to: Option<u32>,
    amount: Option<u64>,
) -> Result<Call, PaymentsWhy>
    ensures { result ≡ named_transfer from to amount }
{
    let Some(amount) = amount else {
        return Err(PaymentsWhy::Number);
    };
    let (Some(from), Some(to)) = (from, to) else {
        return Err(PaymentsWhy::UnknownAccount);
    };
    Ok(Call::Transfer { from, to, amount })
}

/// A read of an account that is given by its name.
fn named_read(account: Option<u32>) -> Result<Call, PaymentsWhy>
    ensures { result ≡ named_read account }
{
    match account {
        Some(account) => Ok(Call::Read { account }),
        None => Err(PaymentsWhy::UnknownAccount),
    }
}

/// Whether the record is a pay-out to one, two, three or four targets.
fn is_pay(fields: &Record<'_>) -> bool
    ensures { result ≡ is_pay fields.now }
{
    has_shape(fields, b"pay", 4)
        || has_shape(fields, b"pay", 6)
        || has_shape(fields, b"pay", 8)
        || has_shape(fields, b"pay", 10)
}

/// How many targets a pay-out has.
fn target_count(fields: &Record<'_>) -> usize
    requires { is_pay fields.now ≡ true }
    ensures fields { length fields.now ≡ 2 * result + 2 }
    ensures some { 1 ≤ result }
    ensures few { result ≤ most_targets }
{
    (fields.len() - 2) / 2
}

/// Whether each target has a number as its amount.
fn has_amounts(fields: &Record<'_>) -> bool
    requires { is_pay fields.now ≡ true }
    ensures { result ≡ has_amounts (drop 2 fields.now) }
{
    for i in 0..target_count(fields) {
        if number_at(fields, 2 * i + 3).is_none() {
            return false;
        }
    }
    true
}

/// A target of a pay-out, from 0, if its account and its amount are there.
fn target_of(names: &Names, fields: &Record<'_>, i: usize) -> Option<(u32, u64)>
    requires { i < most_targets }
    ensures target { result ≡ target_of
        (position_of names.now.accounts (field_of fields.now (2 * i + 2)))
        (number_at fields.now (2 * i + 3)) }
    ensures account { IfSome result (λ target. target.0 < most_accounts) }
{
    match (
        names.find(field_of(fields, 2 * i + 2)),
        number_at(fields, 2 * i + 3),
    ) {
        (Some(to), Some(amount)) => Some((to, amount)),
        _ => None,
    }
}

/// The targets of a pay-out, if all of them are there.
fn targets_spelled(names: &Names, fields: &Record<'_>) -> Option<Targets>
    requires { is_pay fields.now ≡ true }
    ensures { result ≡ targets_spelled names.now.accounts (drop 2 fields.now) }
{
    let count = target_count(fields);
    let Some((to, amount)) = target_of(names, fields, 0) else {
        return None;
    };
    let mut targets = Targets::one(to, amount);
    for i in 1..count {
        let Some((to, amount)) = target_of(names, fields, i) else {
            return None;
        };
        targets.push(to, amount);
    }
    Some(targets)
}

/// A pay-out between accounts that are given by their names.
fn named_pay(names: &Names, fields: &Record<'_>) -> Result<Call, PaymentsWhy>
    requires { is_pay fields.now ≡ true }
    ensures { result ≡ named_pay
        (position_of names.now.accounts (field_of fields.now 1))
        (has_amounts (drop 2 fields.now))
        (targets_spelled names.now.accounts (drop 2 fields.now)) }
{
    if !has_amounts(fields) {
        return Err(PaymentsWhy::Number);
    }
    let Some(from) = names.find(field_of(fields, 1)) else {
        return Err(PaymentsWhy::UnknownAccount);
    };
    let Some(targets) = targets_spelled(names, fields) else {
        return Err(PaymentsWhy::UnknownAccount);
    };
    Ok(Call::Pay { from, targets })
}

/// The call that a record spells, where accounts are given by their names.
fn named_call_of(names: &Names, fields: &Record<'_>) -> Result<Call, PaymentsWhy>
    ensures { result ≡ named_call_of names.now.accounts fields.now }
{
    if has_shape(fields, b"transfer", 4) {
        named_transfer(
            names.find(field_of(fields, 1)),
            names.find(field_of(fields, 2)),
            number_at(fields, 3),
        )
    } else if has_shape(fields, b"read", 2) {
        named_read(names.find(field_of(fields, 1)))
    } else if is_pay(fields) {
        named_pay(names, fields)
    } else {
        Err(PaymentsWhy::Shape)
    }
}

/// The call that a record spells beside the names of a book.
pub(crate) fn call_of(names: &Names, fields: &Record<'_>) -> Result<Call, PaymentsWhy>
    ensures { result ≡ call_of names.now fields.now }
{
    if names.version() == 2 {
        named_call_of(names, fields)
    } else {
        plain_call_of(names.accounts(), fields)
    }
}
