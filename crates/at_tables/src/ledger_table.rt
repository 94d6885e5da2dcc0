//! The text of `ledger`.

ghost use Rattle.std.specs.Prelude.{◌≡◌, ◌++◌, ◌∷◌, [], length, map, codes, All, IfOk, OnOk, flat_map};
ghost use Rattle.at_tables.specs.Prelude.{range_with_len, IsLineOn, Legal, last_state, AreNamesOf};
ghost use Rattle.at_tables.specs.AddingUp.{AddUp, AreAsserted, MakeBalances, postings_in};
ghost use Rattle.at_tables.specs.Entries.{Enters, assertions, entries_of, entry_of, first_transaction, last_transaction, opening_credits};
ghost use Rattle.at_tables.specs.LedgerText.{declaration_text, declarations_text, entry_text, ledger_text, postings_text};

use crate::entries::push_entry;
use crate::posting::{Amount, push_declaration, push_posting};
use at_files::Names;
use at_ledger::{Book, Line, State};
use at_report::replay;
use std::alloc::{AllocError, Global};

/// Adds the declaration of each account.
fn push_accounts(out: &mut Vec<u8>, book: &Book, names: &Names) -> Result<(), AllocError>
    requires { length names.now.accounts ≡ length book.now.accounts }
    ensures { OnOk result (out.new.items ≡ out.old.items
        ++ flat_map (declaration_text names.now) (range_with_len 0 (length book.now.accounts))) }
{
    for account in 0..book.accounts() {
        push_declaration(out, names, account)?;
    }
    Ok(())
}

/// Adds the declarations of all that is posted to.
fn push_declarations(out: &mut Vec<u8>, book: &Book, names: &Names) -> Result<(), AllocError>
    requires { length names.now.accounts ≡ length book.now.accounts }
    ensures { OnOk result
        (out.new.items ≡ out.old.items ++ declarations_text book.now names.now) }
{
    push_accounts(out, book, names)?;
    out.extend_from_slice(b"account equity:openings\n")?;
    Ok(())
}

/// Adds what each account opens with.
fn push_opening_credits(out: &mut Vec<u8>, book: &Book, names: &Names) -> Result<(), AllocError>
    requires { length names.now.accounts ≡ length book.now.accounts }
    ensures { OnOk result
        (out.new.items ≡ out.old.items ++ postings_text names.now (opening_credits book.now)) }
{
    for account in 0..book.accounts() {
        let amount = Amount::Plus(u128::from(book.opening(account)));
        push_posting(out, names, account, amount, None)?;
    }
    Ok(())
}

/// Adds the first transaction: what all accounts open with.
fn push_openings(out: &mut Vec<u8>, book: &Book, names: &Names) -> Result<(), AllocError>
    requires { length names.now.accounts ≡ length book.now.accounts }
    ensures { OnOk result (out.new.items ≡ out.old.items
        ++ entry_text names.now (Enters (first_transaction book.now))) }
{
    out.extend_from_slice(b"\n1970-01-01 openings\n")?;
    push_opening_credits(out, book, names)?;
    out.extend_from_slice(b"    equity:openings\n")?;
    Ok(())
}

/// Adds the entry of each line.
fn push_entries(out: &mut Vec<u8>, names: &Names, lines: &[Line]) -> Result<(), AllocError>
    requires { All (IsLineOn (length names.now.processes) (length names.now.accounts)) lines.now }
    ensures { OnOk result (out.new.items ≡ out.old.items
        ++ flat_map (entry_text names.now) (map entry_of lines.now)) }
{
    for line in lines {
        push_entry(out, names, line)?;
    }
    Ok(())
}

/// Adds what each account has.
fn push_assertions(
    out: &mut Vec<u8>,
    book: &Book,
    names: &Names,
    state: &State,
) -> Result<(), AllocError>
    requires book { state.now.book ≡ book.now }
    requires names { length names.now.accounts ≡ length book.now.accounts }
    ensures { OnOk result
        (out.new.items ≡ out.old.items ++ postings_text names.now (assertions state.now)) }
{
    for account in 0..book.accounts() {
        let balance = state.balance(account);
        push_posting(out, names, account, Amount::Plus(0), Some(balance))?;
    }
    Ok(())
}

/// Adds the last transaction: what all accounts have.
fn push_balances(
    out: &mut Vec<u8>,
    book: &Book,
    names: &Names,
    state: &State,
) -> Result<(), AllocError>
    requires book { state.now.book ≡ book.now }
    requires names { length names.now.accounts ≡ length book.now.accounts }
    ensures { OnOk result (out.new.items ≡ out.old.items
        ++ entry_text names.now (Enters (last_transaction state.now))) }
{
    out.extend_from_slice(b"\n1970-01-01 balances\n")?;
    push_assertions(out, book, names, state)?;
    Ok(())
}

/// Makes the text.
fn write_ledger(
    alloc: Global,
    book: &Book,
    names: &Names,
    lines: &[Line],
) -> Result<Vec<u8>, AllocError>
    requires names { AreNamesOf book.now names.now }
    requires lines { All (IsLineOn book.now.processes (length book.now.accounts)) lines.now }
    ensures { IfOk result (λ text. text.items ≡ ledger_text book.now names.now lines.now) }
{
    let last = replay(alloc, book, &lines)?;
    let mut out = Vec::new(alloc);
    push_declarations(&mut out, book, names)?;
    push_openings(&mut out, book, names)?;
    push_entries(&mut out, names, lines)?;
    push_balances(&mut out, book, names, &last)?;
    Ok(out)
}

/// The text of `ledger` for the lines of a journal, in their order. `names` are the book's. All its transactions add up to 0, and what
/// it asserts of a legal run is what its postings make. The work grows with lines and accounts alone.
pub fn ledger(
    alloc: Global,
    book: &Book,
    names: &Names,
    lines: &[Line],
) -> Result<Vec<u8>, AllocError>
    requires names { AreNamesOf book.now names.now }
    requires lines { All (IsLineOn book.now.processes (length book.now.accounts)) lines.now }
    ensures text { IfOk result (λ text. text.items ≡ ledger_text book.now names.now lines.now) }
    ensures adds_up { AddUp book.now (entries_of book.now lines.now) }
    ensures asserted { Legal book.now lines.now
        → AreAsserted book.now (postings_in (entries_of book.now lines.now)) }
    ensures last { Legal book.now lines.now → MakeBalances book.now (last_state book.now lines.now)
        (postings_in (entries_of book.now lines.now)) }
{
    write_ledger(alloc, book, names, lines)
}
