//! Which accounts open with all that the files ask of them.

ghost use Rattle.std.specs.Prelude.{◌≡◌, IfOk, All, Some, length, map};
ghost use Rattle.at_orders.specs.Prelude.{IsPlayable, contents_of, IsCallOn};
ghost use Rattle.at_orders.specs.Covered.{AreLeft, TellCovered, asked_by_call, asked_in_file, left_when_asked};

use at_ledger::{Book, Call};
use std::alloc::{AllocError, Global};

/// What is left where so much is asked.
fn after(left: Option<u64>, asked: u128) -> Option<u64>
    ensures { result ≡ left_when_asked left asked }
{
    let had = left?;
    if u128::from(had) < asked {
        return None;
    }
    Some(had - asked as u64)
}

/// What each account opens with.
fn openings(alloc: Global, book: &Book) -> Result<Vec<Option<u64>>, AllocError>
    ensures { IfOk result (λ left. left.items ≡ map (λ t. Some t.opening) book.now.accounts) }
{
    let mut left = Vec::new(alloc);
    for account in 0..book.accounts() {
        left.push(Some(book.opening(account)))?;
    }
    Ok(left)
}

/// Takes what the call asks from what its source has left.
fn take(book: &Book, process: u32, call: &Call, left: &mut [Option<u64>])
    requires call_in { IsCallOn (length book.now.accounts) call.now }
    requires accounts { length left.old ≡ length book.now.accounts }
    ensures { AreLeft book.now (λ account. asked_by_call book.now process account call.now) left.old
        left.new }
{
    book.known();
    let Some((source, targets)) = call.payout() else {
        return;
    };
    if book.slot_of(source, process).is_none() {
        return;
    }
    left[source as usize] = after(left[source as usize], targets.sum());
}

/// Takes what all calls of the file ask.
fn take_all(book: &Book, process: u32, file: &[Call], left: &mut [Option<u64>])
    requires calls { All (IsCallOn (length book.now.accounts)) file.now }
    requires accounts { length left.old ≡ length book.now.accounts }
    ensures { AreLeft book.now (λ account. asked_in_file book.now process account file.now) left.old
        left.new }
{
    for call in file {
        take(book, process, call, left);
    }
}

/// What each account has left of its opening when all is taken that the files ask of it; nothing where that is more. Takes time
/// in proportion to the calls and the accounts.
pub(crate) fn left_of_all(
    alloc: Global,
    book: &Book,
    files: &[Vec<Call>],
) -> Result<Vec<Option<u64>>, AllocError>
    requires processes { length files.now ≡ book.now.processes }
    requires files { All (IsPlayable (length book.now.accounts)) (contents_of files.now) }
    ensures { IfOk result (λ left. TellCovered book.now (contents_of files.now) left.items) }
{
    let mut left = openings(alloc, book)?;
    for process in 0..book.processes() {
        let file = files[process as usize].as_slice();
        take_all(book, process, file, left.as_mut_slice());
    }
    Ok(left)
}
