//! The text of `kinds`.

ghost use Rattle.std.specs.Prelude.{◌≡◌, ◌<◌, ◌++◌, ◌∷◌, List, All, IfOk, OnOk, decimal, length, map};
ghost use Rattle.at_tables.specs.Prelude.{account_of, Call, IsPlayable, contents_of, AreNamesOf, account_name, line_text, lines_text, spaced};
ghost use Rattle.at_tables.specs.Counting.{AreCounts};
ghost use Rattle.at_tables.specs.GroupKeys.{AreKnown, groups_in, group_terms};
ghost use Rattle.at_tables.specs.Groups.{AreGroups, groups_of};
ghost use Rattle.at_tables.specs.KindsText.{account_lines, group_lines, group_words, head_lines, kinds_text, owner_words, use_word};

use crate::counts::{Counts, count};
use crate::groups::{Group, groups};
use at_files::Names;
use at_ledger::{Book, Call};
use at_report::{push_number, push_numbered, push_word};
use std::alloc::{AllocError, Global};
use std::collections::BTreeSet;

/// How the owners of an account use it.
pub(crate) fn use_word(book: &Book, account: u32) -> &'static [u8]
    requires { account < length book.now.accounts }
    ensures { result.now ≡ use_word (account_of book.now account) }
{
    match book.owner_count(account) {
        0 => b"nobody",
        1 => b"alone",
        _ => b"shared",
    }
}

/// Adds the names of the account's owners.
fn push_owners(
    out: &mut Vec<u8>,
    book: &Book,
    names: &Names,
    account: u32,
) -> Result<(), AllocError>
    requires account_in { account < length book.now.accounts }
    requires names { length names.now.processes ≡ book.now.processes }
    ensures { OnOk result (out.new.items ≡ out.old.items
        ++ spaced (owner_words names.now (account_of book.now account).owners)) }
{
    for slot in 0..book.owner_count(account) {
        push_word(out, names.process(book.owner(account, slot)))?;
    }
    Ok(())
}

/// Adds the line of an account, from which its owners make so many payments.
fn push_account(
    out: &mut Vec<u8>,
    book: &Book,
    names: &Names,
    account: u32,
    payments: u32,
) -> Result<(), AllocError>
    requires account_in { account < length book.now.accounts }
    requires accounts { length names.now.accounts ≡ length book.now.accounts }
    requires processes { length names.now.processes ≡ book.now.processes }
    ensures { OnOk result (out.new.items ≡ out.old.items
        ++ line_text (account_name names.now account ∷ use_word (account_of book.now account)
        ∷ decimal payments ∷ owner_words names.now (account_of book.now account).owners)) }
{
    out.extend_from_slice(names.account(account))?;
    push_word(out, use_word(book, account))?;
    push_number(out, u64::from(payments))?;
    push_owners(out, book, names, account)?;
    out.push(b'\n')?;
    Ok(())
}

/// Adds the line of each account.
fn push_accounts(
    out: &mut Vec<u8>,
    book: &Book,
    names: &Names,
    counts: &Counts,
) -> Result<(), AllocError>
    requires accounts { length names.now.accounts ≡ length book.now.accounts }
    requires processes { length names.now.processes ≡ book.now.processes }
    requires counted { length counts.now.by_owners.items ≡ length book.now.accounts }
    ensures { OnOk result ((files : List (List Call))
        → AreCounts book.now files (length files) counts.now
        → out.new.items ≡ out.old.items ++ lines_text (account_lines book.now names.now files)) }
{
    for account in 0..book.accounts() {
        let payments = counts.by_owners[account as usize];
        push_account(out, book, names, account, payments)?;
    }
    Ok(())
}

/// Adds how many payments are of each kind, and how many accounts there are.
fn push_head(out: &mut Vec<u8>, book: &Book, counts: &Counts) -> Result<(), AllocError>
    ensures { OnOk result ((files : List (List Call))
        → AreCounts book.now files (length files) counts.now
        → out.new.items ≡ out.old.items ++ lines_text (head_lines book.now files)) }
{
    let refused = u64::from(counts.refused);
    let alone = u64::from(counts.alone);
    let agreed = u64::from(counts.agreed);
    push_numbered(out, b"payments", refused + alone + agreed)?;
    push_numbered(out, b"refused", refused)?;
    push_numbered(out, b"alone", alone)?;
    push_numbered(out, b"agreed", agreed)?;
    push_numbered(out, b"accounts", u64::from(book.accounts()))?;
    Ok(())
}

/// Adds the names of these processes.
pub(crate) fn push_names(
    out: &mut Vec<u8>,
    names: &Names,
    processes: &[u32],
) -> Result<(), AllocError>
    requires { All (λ process. process < length names.now.processes) processes.now }
    ensures { OnOk result
        (out.new.items ≡ out.old.items ++ spaced (owner_words names.now processes.now)) }
{
    for process in processes {
        push_word(out, names.process(*process))?;
    }
    Ok(())
}

/// Adds the line of a group.
fn push_group(out: &mut Vec<u8>, names: &Names, group: &Group) -> Result<(), AllocError>
    requires { All (λ owner. owner < length names.now.processes) group.now.owners.items }
    ensures { OnOk result
        (out.new.items ≡ out.old.items ++ line_text (group_words names.now (group_terms group.now))) }
{
    at_base::push_number(out, group.payments.0)?;
    push_names(out, names, group.owners.as_slice())?;
    out.push(b'\n')?;
    Ok(())
}

/// Adds how many groups there are, and the line of each.
fn push_groups(
    out: &mut Vec<u8>,
    names: &Names,
    mut groups: BTreeSet<Group>,
) -> Result<(), AllocError>
    requires { AreKnown (length names.now.processes) groups }
    ensures { OnOk result (out.new.items
        ≡ out.old.items ++ lines_text (group_lines names.now (groups_in groups))) }
{
    push_numbered(out, b"groups", groups.len() as u64)?;
    while let Some(group) = groups.pop_first() {
        push_group(out, names, &group)?;
    }
    Ok(())
}

/// The text of `kinds`: how many payments of the files are refused, made alone and agreed on, from which accounts, and
/// by which sets of owners. There is a file for each process, and nothing is run. The work grows with the calls and,
/// but for a logarithm, with the accounts.
pub fn kinds(
    alloc: Global,
    book: &Book,
    names: &Names,
    files: &[Vec<Call>],
) -> Result<Vec<u8>, AllocError>
    requires names { AreNamesOf book.now names.now }
    requires processes { length files.now ≡ book.now.processes }
    requires files { All (IsPlayable (length book.now.accounts)) (contents_of files.now) }
    ensures text { IfOk result
        (λ text. text.items ≡ kinds_text book.now names.now (contents_of files.now)) }
    ensures groups { OnOk result (AreGroups book.now (contents_of files.now)
        (groups_of book.now (contents_of files.now))) }
{
    let counts = count(alloc, book, files)?;
    let groups = groups(alloc, book, &counts)?;
    let mut out = Vec::new(alloc);
    push_head(&mut out, book, &counts)?;
    push_accounts(&mut out, book, names, &counts)?;
    push_groups(&mut out, names, groups)?;
    Ok(out)
}
