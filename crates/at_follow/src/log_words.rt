//! The words of logs.

ghost use Rattle.std.specs.Prelude.{◌≡◌, ◌<◌, ◌++◌, ◌∷◌, [], IfOk, OnOk, length, take, map, if◌then◌else◌};
ghost use Rattle.at_follow.specs.FollowText.{log_words, shared_below, shared_word};
ghost use Rattle.at_follow.specs.Prelude.{AreNamesOf, account_of, contents_of, is_shared, logs_of};

use at_files::Names;
use at_ledger::Book;
use std::alloc::{AllocError, Global};

/// The name of each process.
fn process_words(alloc: Global, book: &Book, names: &Names) -> Result<Vec<Vec<u8>>, AllocError>
    requires { length names.now.processes ≡ book.now.processes }
    ensures { IfOk result (λ words. contents_of words.items ≡ names.now.processes) }
{
    let mut words = Vec::new(alloc);
    for process in 0..book.processes() {
        let mut word = Vec::new(alloc);
        word.extend_from_slice(names.process(process))?;
        words.push(word)?;
    }
    Ok(words)
}

/// The word of a shared account's log.
fn shared_word(alloc: Global, names: &Names, account: u32) -> Result<Vec<u8>, AllocError>
    requires { account < length names.now.accounts }
    ensures { IfOk result (λ word. word.items ≡ shared_word names.now account) }
{
    let mut word = Vec::new(alloc);
    word.extend_from_slice(b"account:")?;
    word.extend_from_slice(names.account(account))?;
    Ok(word)
}

/// Adds the word of an account's log, if it is shared.
fn push_shared(
    alloc: Global,
    words: &mut Vec<Vec<u8>>,
    book: &Book,
    names: &Names,
    account: u32,
) -> Result<(), AllocError>
    requires account_in { account < length book.now.accounts }
    requires named { account < length names.now.accounts }
    ensures { OnOk result (contents_of words.new.items ≡ contents_of words.old.items
        ++ (if is_shared (account_of book.now account) then shared_word names.now account ∷ [] else [])) }
{
    if book.owner_count(account) > 1 {
        words.push(shared_word(alloc, names, account)?)?;
    }
    Ok(())
}

/// The word of each log: a process's is its name, as in the report of a run, and a shared account's is `account:` and its name. No name has a
/// colon, so no two logs have one word, also where a process and an account have one name.
pub(crate) fn log_words(
    alloc: Global,
    book: &Book,
    names: &Names,
) -> Result<Vec<Vec<u8>>, AllocError>
    requires { AreNamesOf book.now names.now }
    ensures words { IfOk result (λ words. contents_of words.items ≡ log_words book.now names.now) }
    ensures each { IfOk result (λ words. length words.items ≡ (logs_of book.now).logs) }
{
    let mut words = process_words(alloc, book, names)?;
    for account in 0..book.accounts() {
        push_shared(alloc, &mut words, book, names, account)?;
    }
    Ok(words)
}
