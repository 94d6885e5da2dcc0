//! The text of `needs`.

ghost use Rattle.std.specs.Prelude.{◌≡◌, ◌<◌, ◌-◌, ◌++◌, [], ◌∷◌, All, IfOk, OnOk, decimal, length, map, sum_by};
ghost use Rattle.at_tables.specs.Prelude.{account_of, IsPlayable, contents_of, AreNamesOf, account_name, comma_led, record_text, records_text};
ghost use Rattle.at_tables.specs.Asking.{AreSumRows, row_number};
ghost use Rattle.at_tables.specs.KindsText.{use_word};
ghost use Rattle.at_tables.specs.NeedsText.{account_fields, needs_of_account, needs_head, needs_records, needs_text, owner_fields};

use crate::asking::{asked_by, rows_of};
use crate::costs_table::push_large_field;
use crate::kinds_table::use_word;
use at_files::Names;
use at_ledger::{Book, Call};
use at_report::{push_field, push_number_field};
use std::alloc::{AllocError, Global};

/// Adds the names of the fields.
fn push_head(out: &mut Vec<u8>) -> Result<(), AllocError>
    ensures { OnOk result (out.new.items ≡ out.old.items ++ record_text needs_head) }
{
    out.extend_from_slice(b"account,kind,opening,asked,missing,owner,owner_asked\n")
}

/// What the owners of the account ask of it in all.
fn asked_of(book: &Book, rows: &[Vec<u128>], account: u32) -> u128
    requires account_in { account < length book.now.accounts }
    requires rows { AreSumRows book.now (contents_of rows.now) book.now.processes }
    ensures { result ≡ sum_by (row_number (contents_of rows.now) account)
        (account_of book.now account).owners }
{
    let mut asked = 0;
    for slot in 0..book.owner_count(account) {
        asked += asked_by(rows, account, book.owner(account, slot));
    }
    asked
}

/// Adds the fields of the account, of which its owners ask so much.
fn push_account_fields(
    out: &mut Vec<u8>,
    book: &Book,
    names: &Names,
    account: u32,
    asked: u128,
) -> Result<(), AllocError>
    requires account_in { account < length book.now.accounts }
    requires accounts { length names.now.accounts ≡ length book.now.accounts }
    ensures { OnOk result (out.new.items ≡ (out.old.items ++ account_name names.now account)
        ++ comma_led (use_word (account_of book.now account)
        ∷ decimal (account_of book.now account).opening ∷ decimal asked
        ∷ decimal (asked - (account_of book.now account).opening) ∷ [])) }
{
    let opening = book.opening(account);
    out.extend_from_slice(names.account(account))?;
    push_field(out, use_word(book, account))?;
    push_number_field(out, opening)?;
    push_large_field(out, asked)?;
    push_large_field(out, asked.saturating_sub(u128::from(opening)))
}

/// Adds the one record of an account without owners.
fn push_ownerless(
    out: &mut Vec<u8>,
    book: &Book,
    names: &Names,
    account: u32,
    asked: u128,
) -> Result<(), AllocError>
    requires account_in { account < length book.now.accounts }
    requires accounts { length names.now.accounts ≡ length book.now.accounts }
    ensures { OnOk result (out.new.items ≡ out.old.items
        ++ record_text (account_fields book.now names.now account asked ++ [] ∷ [] ∷ [])) }
{
    push_account_fields(out, book, names, account, asked)?;
    out.extend_from_slice(b",,\n")
}

/// Adds the record of an owner of the account, with what it asks.
fn push_owner(
    out: &mut Vec<u8>,
    book: &Book,
    names: &Names,
    account: u32,
    asked: u128,
    owner: u32,
    owner_asked: u128,
) -> Result<(), AllocError>
    requires account_in { account < length book.now.accounts }
    requires owner_in { owner < book.now.processes }
    requires names { AreNamesOf book.now names.now }
    ensures { OnOk result (out.new.items ≡ out.old.items
        ++ record_text (owner_fields names.now (account_fields book.now names.now account asked)
        (λ other. owner_asked) owner)) }
{
    push_account_fields(out, book, names, account, asked)?;
    push_field(out, names.process(owner))?;
    push_large_field(out, owner_asked)?;
    out.push(b'\n')?;
    Ok(())
}

/// Adds a record for each owner of the account.
fn push_owners(
    out: &mut Vec<u8>,
    book: &Book,
    names: &Names,
    rows: &[Vec<u128>],
    account: u32,
    asked: u128,
) -> Result<(), AllocError>
    requires account_in { account < length book.now.accounts }
    requires names { AreNamesOf book.now names.now }
    requires rows { AreSumRows book.now (contents_of rows.now) book.now.processes }
    ensures { OnOk result (out.new.items ≡ out.old.items
        ++ records_text (map (owner_fields names.now
        (account_fields book.now names.now account asked) (row_number (contents_of rows.now) account))
        (account_of book.now account).owners)) }
{
    for slot in 0..book.owner_count(account) {
        let owner = book.owner(account, slot);
        let owner_asked = asked_by(rows, account, owner);
        push_owner(out, book, names, account, asked, owner, owner_asked)?;
    }
    Ok(())
}

/// Adds the records of an account.
fn push_account(
    out: &mut Vec<u8>,
    book: &Book,
    names: &Names,
    rows: &[Vec<u128>],
    account: u32,
) -> Result<(), AllocError>
    requires account_in { account < length book.now.accounts }
    requires names { AreNamesOf book.now names.now }
    requires rows { AreSumRows book.now (contents_of rows.now) book.now.processes }
    ensures { OnOk result (out.new.items ≡ out.old.items ++ records_text
        (needs_of_account book.now names.now (row_number (contents_of rows.now) account) account)) }
{
    let asked = asked_of(book, rows, account);
    if book.owner_count(account) == 0 {
        push_ownerless(out, book, names, account, asked)
    } else {
        push_owners(out, book, names, rows, account, asked)
    }
}

/// Adds the records of all accounts.
fn push_accounts(
    out: &mut Vec<u8>,
    book: &Book,
    names: &Names,
    rows: &[Vec<u128>],
) -> Result<(), AllocError>
    requires names { AreNamesOf book.now names.now }
    requires rows { AreSumRows book.now (contents_of rows.now) book.now.processes }
    ensures { OnOk result (out.new.items ≡ out.old.items ++ records_text
        (needs_records book.now names.now (row_number (contents_of rows.now))
        (length book.now.accounts))) }
{
    for account in 0..book.accounts() {
        push_account(out, book, names, rows, account)?;
    }
    Ok(())
}

/// The text of `needs`: a CSV record for each account and owner, in book order, with what the account opens with and what the owners'
/// payments ask of it. There is a file for each process, and nothing is run. The work grows with the calls, and for each process with
/// the accounts.
pub fn needs_text(
    alloc: Global,
    book: &Book,
    names: &Names,
    files: &[Vec<Call>],
) -> Result<Vec<u8>, AllocError>
    requires names { AreNamesOf book.now names.now }
    requires processes { length files.now ≡ book.now.processes }
    requires files { All (IsPlayable (length book.now.accounts)) (contents_of files.now) }
    ensures { IfOk result
        (λ text. text.items ≡ needs_text book.now names.now (contents_of files.now)) }
{
    book.known();
    let rows = rows_of(alloc, book, files)?;
    let mut text = Vec::new(alloc);
    push_head(&mut text)?;
    push_accounts(&mut text, book, names, rows.as_slice())?;
    Ok(text)
}
