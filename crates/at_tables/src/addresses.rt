//! The addresses of the board's words, as they are printed.

ghost use Rattle.std.specs.Prelude.{◌≡◌, [], ◌∷◌, ◌++◌, OnOk};
ghost use Rattle.at_tables.specs.Prelude.{AreNamesOf, spaced};
ghost use Rattle.at_tables.specs.Addresses.{account_word, address_text, process_word};

use at_board::BoardWord;
use at_files::Names;
use at_ledger::Book;
use at_report::{push_number, push_word};
use std::alloc::AllocError;

/// Adds a process by its name, and by its number where it has none.
fn push_process(
    out: &mut Vec<u8>,
    book: &Book,
    names: &Names,
    process: u32,
) -> Result<(), AllocError>
    requires { AreNamesOf book.now names.now }
    ensures { OnOk result (out.new.items
        ≡ out.old.items ++ spaced (process_word book.now names.now process ∷ [])) }
{
    if process < book.processes() {
        push_word(out, names.process(process))
    } else {
        push_number(out, u64::from(process))
    }
}

/// Adds an account so.
fn push_account(
    out: &mut Vec<u8>,
    book: &Book,
    names: &Names,
    account: u32,
) -> Result<(), AllocError>
    requires { AreNamesOf book.now names.now }
    ensures { OnOk result (out.new.items
        ≡ out.old.items ++ spaced (account_word book.now names.now account ∷ [])) }
{
    if account < book.accounts() {
        push_word(out, names.account(account))
    } else {
        push_number(out, u64::from(account))
    }
}

/// Adds the address of a word, its parts with one space between.
pub(crate) fn push_address(
    out: &mut Vec<u8>,
    book: &Book,
    names: &Names,
    word: &BoardWord,
) -> Result<(), AllocError>
    requires { AreNamesOf book.now names.now }
    ensures { OnOk result
        (out.new.items ≡ out.old.items ++ address_text book.now names.now word.now) }
{
    match word {
        BoardWord::Length { process } => {
            out.extend_from_slice(b"length")?;
            push_process(out, book, names, *process)
        }
        BoardWord::Record {
            process,
            number,
            word,
        } => push_record(out, book, names, *process, *number, *word),
        BoardWord::Announced { account, slot } => {
            out.extend_from_slice(b"announced")?;
            push_account(out, book, names, *account)?;
            push_number(out, u64::from(*slot))
        }
        BoardWord::Request {
            account,
            slot,
            number,
            word,
        } => push_request(out, book, names, *account, *slot, *number, *word),
        BoardWord::Cell { account, round } => {
            out.extend_from_slice(b"cell")?;
            push_account(out, book, names, *account)?;
            push_number(out, u64::from(*round))
        }
    }
}

/// Adds the address of a word of a record.
fn push_record(
    out: &mut Vec<u8>,
    book: &Book,
    names: &Names,
    process: u32,
    number: u32,
    word: u32,
) -> Result<(), AllocError>
    requires { AreNamesOf book.now names.now }
    ensures { OnOk result (out.new.items ≡ out.old.items
        ++ address_text book.now names.now (BoardWord.Record process number word)) }
{
    out.extend_from_slice(b"record")?;
    push_process(out, book, names, process)?;
    push_number(out, u64::from(number))?;
    push_number(out, u64::from(word))
}

/// Adds the address of a word of a request.
fn push_request(
    out: &mut Vec<u8>,
    book: &Book,
    names: &Names,
    account: u32,
    slot: u32,
    number: u32,
    word: u32,
) -> Result<(), AllocError>
    requires { AreNamesOf book.now names.now }
    ensures { OnOk result (out.new.items ≡ out.old.items
        ++ address_text book.now names.now (BoardWord.Request account slot number word)) }
{
    out.extend_from_slice(b"request")?;
    push_account(out, book, names, account)?;
    push_number(out, u64::from(slot))?;
    push_number(out, u64::from(number))?;
    push_number(out, u64::from(word))
}
