//! Where the records of a closing stand in the order of its publications.

ghost use Rattle.std.specs.Prelude.{◌≡◌, ◌<◌, [], length, map, replicate, All, OnOk, IfOk};
ghost use Rattle.at_journal.specs.Prelude.{IsBook, Coherent, journal_order};
ghost use Rattle.at_journal.specs.Order.{AreRecords, published_in};
ghost use Rattle.at_journal.specs.Positions.{ArePositions, HasRoundPositions, IsOnAccount, with_position};

use crate::order::Numbered;
use at_ledger::Book;
use at_log::{Closing, Entry};
use std::alloc::{AllocError, Global};

/// Notes where a record stands, if it is the first of the next round of its account.
fn note_position(starts: &mut Vec<Vec<u64>>, entry: &Entry, position: u64) -> Result<(), AllocError>
    requires { IsOnAccount (length starts.old.items) entry.now }
    ensures { OnOk result (map (λ v. v.items) starts.new.items
        ≡ with_position position entry.now (map (λ v. v.items) starts.old.items)) }
{
    match entry {
        Entry::Own { .. } => Ok(()),
        Entry::Round { account, round, .. } => {
            let firsts = &mut starts[*account as usize];
            if firsts.len() == *round as usize {
                firsts.push(position)?;
            }
            Ok(())
        }
    }
}

/// So many lists with nothing in them.
fn empty_lists(alloc: Global, count: u32) -> Result<Vec<Vec<u64>>, AllocError>
    ensures { IfOk result (λ lists. map (λ v. v.items) lists.items ≡ replicate count []) }
{
    let mut lists = Vec::new(alloc);
    for _list in 0..count {
        lists.push(Vec::new(alloc))?;
    }
    Ok(lists)
}

/// Where the records of each process stand in the order.
pub(crate) fn own_positions(
    alloc: Global,
    processes: u32,
    order: &[Numbered],
) -> Result<Vec<Vec<u64>>, AllocError>
    requires { All (λ x. x.process < processes) order.now }
    ensures { IfOk result (λ lists. ArePositions processes order.now
        (map (λ v. v.items) lists.items)) }
{
    let mut lists = empty_lists(alloc, processes)?;
    for (position, one) in order.iter().enumerate() {
        lists[one.process as usize].push(position as u64)?;
    }
    Ok(lists)
}

/// Where the first record of each round stands in the order, account by account.
pub(crate) fn round_positions(
    alloc: Global,
    book: &Book,
    closing: &Closing,
    order: &[Numbered],
) -> Result<Vec<Vec<u64>>, AllocError>
    requires coherent { Coherent book.now closing.now }
    requires order { published_in closing.now order.now ≡ journal_order closing.now }
    requires records { AreRecords closing.now order.now }
    ensures starts { IfOk result (λ starts. HasRoundPositions (length book.now.accounts)
        (journal_order closing.now) (journal_order closing.now) (map (λ v. v.items) starts.items)) }
    ensures checked { IsBook book.now }
{
    let mut starts = empty_lists(alloc, book.accounts())?;
    for (position, one) in order.iter().enumerate() {
        let record = &closing.log(one.process)[one.number as usize];
        note_position(&mut starts, &record.entry, position as u64)?;
    }
    Ok(starts)
}
