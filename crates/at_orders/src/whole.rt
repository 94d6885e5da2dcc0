//! The replies of all files, from those of each part: of a payment they are the same, and what a read tells lies between two sums, each
//! of which some order reaches.

ghost use Rattle.std.specs.Prelude.{◌≡◌, ◌+◌, ◌<◌, ◌≤◌, ◌^◌, All, IfOk, [], length, slice_index, slice_index_or};
ghost use Rattle.at_orders.specs.Prelude.{IsPlayable, contents_of};
ghost use Rattle.at_orders.specs.Ordered.{AreFirstAnswers, AreOrdered, AreSpansOn, falls_of, rises_of, part_ranges};
ghost use Rattle.at_orders.specs.Orders.{AreAnswers, Comes};
ghost use Rattle.at_orders.specs.Parts.{AreParts};
ghost use Rattle.at_orders.specs.Replies.{AreJust};

use crate::part::Part;
use crate::replies::{Range, Replies};
use at_ledger::{Book, Call};
use std::alloc::{AllocError, Global};

/// From where to where the part brings the account.
fn span_of(book: &Book, done: &[Part], part: u32, account: u32) -> Range
    requires account_in { account < length book.now.accounts }
    requires part_in { part < length done.now }
    requires accounts { AreSpansOn book.now done.now }
    ensures { result ≡ part_ranges done.now account part }
{
    done[part as usize].spans[account as usize]
}

/// How far all parts but this one can bring the account below its opening, and how far above it.
fn falls_and_rises(book: &Book, done: &[Part], part: u32, account: u32) -> (u128, u128)
    requires account_in { account < length book.now.accounts }
    requires parts { length done.now ≡ book.now.processes }
    requires accounts { AreSpansOn book.now done.now }
    ensures falls { result.0 ≡ falls_of book.now account (part_ranges done.now account) part
        (length done.now) }
    ensures rises { result.1 ≡ rises_of book.now account (part_ranges done.now account) part
        (length done.now) }
{
    let opening = book.opening(account);
    let mut falls = 0u128;
    let mut rises = 0u128;
    for other in 0..book.processes() {
        if other != part {
            let span = span_of(book, done, other, account);
            falls += u128::from(opening.saturating_sub(span.least));
            rises += u128::from(span.greatest.saturating_sub(opening));
        }
    }
    (falls, rises)
}

/// What a read can tell of the account, where its own part alone has this range there.
fn range_of(book: &Book, done: &[Part], part: u32, account: u32, own: Range) -> Range
    requires account_in { account < length book.now.accounts }
    requires parts { length done.now ≡ book.now.processes }
    requires accounts { AreSpansOn book.now done.now }
    requires falls { falls_of book.now account (part_ranges done.now account) part (length done.now)
        ≤ own.least }
    requires rises { own.greatest
        + rises_of book.now account (part_ranges done.now account) part (length done.now) < 2 ^ 64 }
    ensures least { result.least
        + falls_of book.now account (part_ranges done.now account) part (length done.now) ≡ own.least }
    ensures greatest { result.greatest ≡ own.greatest
        + rises_of book.now account (part_ranges done.now account) part (length done.now) }
{
    let (falls, rises) = falls_and_rises(book, done, part, account);
    let lowest = u128::from(own.least) - falls;
    let highest = u128::from(own.greatest) + rises;
    Range {
        least: lowest as u64,
        greatest: highest as u64,
    }
}

/// The replies to one call of the process.
fn reply_to(
    book: &Book,
    files: &[Vec<Call>],
    parts: &[u32],
    done: &[Part],
    process: u32,
    i: usize,
) -> Replies
    requires processes { length files.now ≡ book.now.processes }
    requires files { All (IsPlayable (length book.now.accounts)) (contents_of files.now) }
    requires parts { AreParts book.now (contents_of files.now) parts.now }
    requires done { AreOrdered book.now (contents_of files.now) parts.now done.now (length files.now) }
    requires process_in { process < book.now.processes }
    requires call_in { i < length (slice_index_or (contents_of files.now) process []) }
    ensures { AreJust (Comes book.now (contents_of files.now) process i) result }
{
    let part = parts[process as usize];
    let replies = done[part as usize].replies[process as usize][i];
    match replies.balances {
        Some(range) => {
            // No balance is above the book's total, which fits 64 bits: so the greatest does too.
            book.known();
            let account = files[process as usize][i].first_account();
            Replies::of_read(range_of(book, done, part, account, range))
        }
        None => replies,
    }
}

/// The replies to each call of the process.
fn replies_of(
    alloc: Global,
    book: &Book,
    files: &[Vec<Call>],
    parts: &[u32],
    done: &[Part],
    process: u32,
) -> Result<Vec<Replies>, AllocError>
    requires processes { length files.now ≡ book.now.processes }
    requires files { All (IsPlayable (length book.now.accounts)) (contents_of files.now) }
    requires parts { AreParts book.now (contents_of files.now) parts.now }
    requires done { AreOrdered book.now (contents_of files.now) parts.now done.now (length files.now) }
    requires process_in { process < book.now.processes }
    ensures { IfOk result (λ replies. AreFirstAnswers book.now (contents_of files.now) process
        replies.items (length (slice_index_or (contents_of files.now) process []))) }
{
    let mut replies = Vec::new(alloc);
    for i in 0..files[process as usize].len() {
        replies.push(reply_to(book, files, parts, done, process, i))?;
    }
    Ok(replies)
}

/// The replies of each call of each file. Takes time in proportion to the calls, times the processes.
pub(crate) fn whole(
    alloc: Global,
    book: &Book,
    files: &[Vec<Call>],
    parts: &[u32],
    done: &[Part],
) -> Result<Vec<Vec<Replies>>, AllocError>
    requires processes { length files.now ≡ book.now.processes }
    requires files { All (IsPlayable (length book.now.accounts)) (contents_of files.now) }
    requires parts { AreParts book.now (contents_of files.now) parts.now }
    requires done { AreOrdered book.now (contents_of files.now) parts.now done.now (length files.now) }
    ensures { IfOk result
        (λ answers. AreAnswers book.now (contents_of files.now) (contents_of answers.items)) }
{
    let mut answers = Vec::new(alloc);
    for process in 0..book.processes() {
        answers.push(replies_of(alloc, book, files, parts, done, process)?)?;
    }
    Ok(answers)
}
