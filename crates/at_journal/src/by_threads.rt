//! The calls of a closing in the order of the journal, where each process's get their keys by a thread of their own.
//!
//! Most of the time goes to reading receipts that other threads have written. They are read where they lie, and by as many threads as
//! there are processes.

ghost use Rattle.std.specs.Prelude.{◌≡◌, ◌^◌, ◌<◌, ◌≤◌, length, map, sum, All, IfOk, Ok};
ghost use Rattle.at_journal.specs.Prelude.{filter_map, flat_map, option_copied, log_lengths, receipts_of, cut_at, Coherent, journal_lines, journal_order, keys_of};
ghost use Rattle.at_journal.specs.Held.{AreAdded, AreHeld, AreNamed, NameCuts};
ghost use Rattle.at_journal.specs.Calls.{AreCallsOf, line_at};
ghost use Rattle.at_journal.specs.Order.{AreRecords, published_in};
ghost use Rattle.at_journal.specs.Ordered.{all_keyed, all_keys, keyed_of};
ghost use Rattle.at_journal.specs.Positions.{MayAllBeKeyed, MayBeKeyed};

use crate::calls::in_key_order;
use crate::cuts::put_all_views;
use crate::keyed::{CallAt, Keyed};
use crate::lines::{count_receipts, push_calls};
use crate::named_cuts::{CutAt, cuts_named, put_all_named};
use crate::order::{Numbered, order_of, total_of};
use crate::positions::{own_positions, round_positions};
use at_base::Counts;
use at_ledger::Book;
use at_log::Closing;
use std::alloc::{AllocError, Global};
use std::thread::{Threads, map_indices};

/// Puts the cuts that each list names at their places, unless one is held there.
fn put_lists<'c>(cuts: &mut Vec<Option<&'c Counts>>, closing: &'c Closing, lists: &[Vec<CutAt>])
    requires { AreNamed closing.now (map (λ v. v.items) lists.now) }
    ensures { AreAdded
        (flat_map (λ receipts. filter_map (λ r. cut_at r.at) receipts) closing.now.receipts)
        (map option_copied cuts.old.items) (map option_copied cuts.new.items) }
{
    for p in 0..closing.processes() {
        put_all_named(cuts, closing.receipts(p), lists[p as usize].as_slice());
    }
}

/// The held cuts by their places. A thread looks at each process's receipts, and most of their places are those of a record's view.
fn held_by_threads<'c, R: Threads + Sync>(
    rt: &R,
    alloc: Global,
    closing: &'c Closing,
    total: u64,
) -> Result<Vec<Option<&'c Counts>>, AllocError>
    requires total { total ≡ sum (log_lengths closing.now) }
    requires few { All (λ receipts. length receipts < 2 ^ 32) closing.now.receipts }
    ensures { IfOk result (λ cuts. AreHeld closing.now (map option_copied cuts.items)) }
{
    let made = map_indices(
        rt,
        alloc,
        closing.processes() as usize,
        &|p: usize| -> Result<Vec<CutAt>, AllocError>
            requires { (p < 2 ^ 32) × (p < length closing.now.receipts)
                × (length (receipts_of closing.now p) < 2 ^ 32) }
            ensures { IfOk result (λ list. NameCuts (receipts_of closing.entry.now p) list.items) }
        { cuts_named(alloc, closing.receipts(p as u32)) },
    )?;
    let lists = all_done(alloc, made)?;
    let mut cuts = Vec::new(alloc);
    cuts.resize(total as usize, None)?;
    put_all_views(&mut cuts, closing);
    put_lists(&mut cuts, closing, lists.as_slice());
    Ok(cuts)
}

/// The publications in their order.
fn publications_by_threads<R: Threads + Sync>(
    rt: &R,
    alloc: Global,
    book: &Book,
    closing: &Closing,
) -> Result<Vec<Numbered>, AllocError>
    requires coherent { Coherent book.now closing.now }
    requires few { All (λ receipts. length receipts < 2 ^ 32) closing.now.receipts }
    ensures order { IfOk result (λ order. published_in closing.now order.items
        ≡ journal_order closing.now) }
    ensures records { IfOk result (λ order. AreRecords closing.now order.items) }
    ensures small { length (journal_order closing.now) ≤ 2 ^ 36 }
{
    let total = total_of(closing);
    let cuts = held_by_threads(rt, alloc, closing, total)?;
    order_of(alloc, closing, cuts.as_slice())
}

/// The calls of a process with their keys.
fn calls_of_process(
    alloc: Global,
    closing: &Closing,
    p: u32,
    own: &[Vec<u64>],
    starts: &[Vec<u64>],
) -> Result<Vec<Keyed>, AllocError>
    requires { MayBeKeyed closing.now p (map (λ v. v.items) own.now) (map (λ v. v.items) starts.now) }
    ensures { IfOk result (λ all. all.items
        ≡ keyed_of p (keys_of p (journal_order closing.now) (receipts_of closing.now p))) }
{
    let mut all = Vec::with_capacity(alloc, closing.receipts(p).len())?;
    push_calls(&mut all, closing, p, own[p as usize].as_slice(), starts)?;
    Ok(all)
}

/// The lists, if all of them were made.
fn all_done<T: Drop>(
    alloc: Global,
    made: Vec<Result<Vec<T>, AllocError>>,
) -> Result<Vec<Vec<T>>, AllocError>
    ensures { IfOk result (λ lists. made.items ≡ map Ok lists.items) }
{
    let mut lists = Vec::with_capacity(alloc, made.len())?;
    for one in made {
        lists.push(one?)?;
    }
    Ok(lists)
}

/// The calls of all lists, which are so many, one list after another.
fn joined(alloc: Global, lists: Vec<Vec<Keyed>>, count: usize) -> Result<Vec<Keyed>, AllocError>
    ensures { IfOk result (λ all. all.items ≡ flat_map (λ v. v.items) lists.items) }
{
    let mut all = Vec::with_capacity(alloc, count)?;
    for mut list in lists {
        all.append(&mut list)?;
    }
    Ok(all)
}

/// All calls with their keys, process by process.
fn keyed_by_threads<R: Threads + Sync>(
    rt: &R,
    alloc: Global,
    book: &Book,
    closing: &Closing,
    order: &[Numbered],
    starts: &[Vec<u64>],
) -> Result<Vec<Keyed>, AllocError>
    requires { MayAllBeKeyed book.now closing.now order.now (map (λ v. v.items) starts.now) }
    ensures { IfOk result (λ all. all.items ≡ all_keyed (all_keys closing.now)) }
{
    let rows = own_positions(alloc, closing.processes(), order)?;
    let own = rows.as_slice();
    let made = map_indices(
        rt,
        alloc,
        closing.processes() as usize,
        &|p: usize| -> Result<Vec<Keyed>, AllocError>
            requires { MayBeKeyed closing.now p (map (λ v. v.items) own.now) (map (λ v. v.items) starts.now) }
            ensures { IfOk result (λ all. all.items
                ≡ keyed_of p (keys_of p (journal_order closing.entry.now)
                (receipts_of closing.entry.now p))) }
        { calls_of_process(alloc, closing, p as u32, own, starts) },
    )?;
    let lists = all_done(alloc, made)?;
    joined(alloc, lists, count_receipts(closing))
}

/// The calls of a closing as `journal_calls` has them, in the same order. A thread gives each process's their keys, where threads can be
/// had.
pub fn journal_calls_by_threads<R: Threads + Sync>(
    rt: &R,
    alloc: Global,
    book: &Book,
    closing: &Closing,
) -> Result<Vec<CallAt>, AllocError>
    requires coherent { Coherent book.now closing.now }
    requires few { All (λ receipts. length receipts < 2 ^ 32) closing.now.receipts }
    ensures calls { IfOk result (λ calls. AreCallsOf closing.now calls.items) }
    ensures lines { IfOk result
        (λ calls. map (line_at closing.now) calls.items ≡ journal_lines closing.now) }
{
    let order = publications_by_threads(rt, alloc, book, closing)?;
    let starts = round_positions(alloc, book, closing, order.as_slice())?;
    let all = keyed_by_threads(
        rt,
        alloc,
        book,
        closing,
        order.as_slice(),
        starts.as_slice(),
    )?;
    in_key_order(alloc, book, closing, all.as_slice())
}
