//! The logs of a book.

ghost use Rattle.std.specs.Prelude.{◌≡◌, ◌+◌, ◌<◌, ◌≤◌, length, take, nat_le, None, Some, IfOk, if◌then◌else◌};
ghost use Rattle.at_logs.specs.Prelude.{most_logs, single_log, is_shared, account_of};
ghost use Rattle.at_logs.specs.Logs.{log_in, logs_of, shared_among};

use at_broadcast::{LOGS_MAX, LogAccount, LogBook, single_log};
use at_ledger::Book;
use std::alloc::{AllocError, Global};

/// What a node needs of the book: a log for each process, and then one for each shared account, in book order. None comes
/// where there are more than 64 logs.
pub fn logs_of(alloc: Global, book: &Book) -> Result<Option<LogBook>, AllocError>
    ensures { IfOk result (λ found. found ≡ (if nat_le (logs_of book.now).logs most_logs then Some (logs_of book.now) else None)) }
{
    let mut logs = book.processes();
    let mut accounts = Vec::new(alloc);
    for account in 0..book.accounts() {
        let log = log_in(book, account, logs);
        logs += shared_count(book, account);
        accounts.push(LogAccount {
            opening: book.opening(account),
            log,
        })?;
    }
    if logs > LOGS_MAX {
        return Ok(None);
    }
    Ok(Some(LogBook::new(logs, accounts)))
}

/// The one log that debits the account, where so many logs stand before those of the shared accounts from this one on.
fn log_in(book: &Book, account: u32, before: u32) -> Option<u32>
    requires known { account < length book.now.accounts }
    requires before { before ≡ book.now.processes + shared_among (take account book.now.accounts) }
    ensures { result ≡ log_in book.now account }
{
    if book.owner_count(account) < 2 {
        return single_log(book, account);
    }
    Some(before)
}

/// One for a shared account.
fn shared_count(book: &Book, account: u32) -> u32
    requires { account < length book.now.accounts }
    ensures { result ≡ (if is_shared (account_of book.now account) then 1 else 0) }
{
    if book.owner_count(account) < 2 {
        return 0;
    }
    1
}
