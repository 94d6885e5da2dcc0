//! The calls of a closing with their keys, and as lines.

ghost use Rattle.std.specs.Prelude.{◌≡◌, ℕ, ◌+◌, ◌*◌, ◌++◌, ◌^◌, ◌<◌, ◌≤◌, [], length, map, slice_index, slice_index_or, All, IfOk, OnOk};
ghost use Rattle.at_journal.specs.Prelude.{receipts_of, journal_order, is_success, receipt_at, key_of, keys_of};
ghost use Rattle.at_journal.specs.Calls.{AreCallsOf, line_at};
ghost use Rattle.at_journal.specs.Ordered.{all_keyed, all_keys, keyed_of};
ghost use Rattle.at_journal.specs.Positions.{HasStarts, MayAllBeKeyed};

use crate::keyed::{CallAt, Keyed};
use crate::order::Numbered;
use crate::positions::own_positions;
use at_ledger::{Book, Line, Reply};
use at_log::{At, Closing};
use std::alloc::{AllocError, Global};

/// Whether a call moved its amounts.
fn is_success(reply: &Reply) -> bool
    ensures { result ≡ is_success reply.now }
{
    matches!(reply, Reply::Done)
}

/// Where the first record of a round stands.
fn first_of_round(starts: &[Vec<u64>], account: u32, round: u32) -> u64
    requires account_in { account < length starts.now }
    requires round_in { round < length (slice_index_or (map (λ v. v.items) starts.now) account []) }
    ensures { result ≡ slice_index (slice_index_or (map (λ v. v.items) starts.now) account [])
        round }
{
    starts[account as usize][round as usize]
}

/// The key of a call of a process, from that of the call before.
fn key_of(
    closing: &Closing,
    p: u32,
    i: usize,
    own: &[u64],
    starts: &[Vec<u64>],
    previous: u64,
) -> u64
    requires known { p < length closing.now.receipts }
    requires within { i < length (receipts_of closing.now p) }
    requires starts { HasStarts p (journal_order closing.now) own.now
        (map (λ v. v.items) starts.now) (receipt_at (receipts_of closing.now p) i) }
    requires small { length (journal_order closing.now) ≤ 2 ^ 36 }
    ensures { result ≡ key_of p (journal_order closing.now) previous
        (receipt_at (receipts_of closing.now p) i) }
{
    let receipt = &closing.receipts(p)[i];
    match &receipt.at {
        At::Cut(counts) => 2 * counts.total(),
        At::Own(number) => 2 * own[*number as usize] + 1,
        At::Round { round, place } => {
            if is_success(&receipt.reply) {
                2 * first_of_round(starts, receipt.call.first_account(), *round) + 1
            } else {
                2 * u64::from(*place)
            }
        }
        At::Previous => previous,
    }
}

/// Adds the calls of a process with their keys. `own` has where its records stand, and `starts` where rounds begin.
pub(crate) fn push_calls(
    all: &mut Vec<Keyed>,
    closing: &Closing,
    p: u32,
    own: &[u64],
    starts: &[Vec<u64>],
) -> Result<(), AllocError>
    requires known { p < length closing.now.receipts }
    requires few { length (receipts_of closing.now p) < 2 ^ 32 }
    requires starts { (i : ℕ) → i < length (receipts_of closing.now p)
        → HasStarts p (journal_order closing.now) own.now (map (λ v. v.items) starts.now)
        (receipt_at (receipts_of closing.now p) i) }
    requires small { length (journal_order closing.now) ≤ 2 ^ 36 }
    ensures { OnOk result (all.new.items ≡ all.old.items
        ++ keyed_of p (keys_of p (journal_order closing.now) (receipts_of closing.now p))) }
{
    let mut key = 0;
    for number in 0..closing.receipts(p).len() as u32 {
        key = key_of(closing, p, number as usize, own, starts, key);
        all.push(Keyed {
            key,
            process: p,
            number,
        })?;
    }
    Ok(())
}

/// How many receipts all processes have together.
pub(crate) fn count_receipts(closing: &Closing) -> usize {
    let mut count = 0usize;
    for p in 0..closing.processes() {
        count = count.saturating_add(closing.receipts(p).len());
    }
    count
}

/// All calls with their keys, process by process.
pub(crate) fn keyed_calls(
    alloc: Global,
    book: &Book,
    closing: &Closing,
    order: &[Numbered],
    starts: &[Vec<u64>],
) -> Result<Vec<Keyed>, AllocError>
    requires { MayAllBeKeyed book.now closing.now order.now (map (λ v. v.items) starts.now) }
    ensures { IfOk result (λ all. all.items ≡ all_keyed (all_keys closing.now)) }
{
    let mut all = Vec::with_capacity(alloc, count_receipts(closing))?;
    let own = own_positions(alloc, closing.processes(), order)?;
    for p in 0..book.processes() {
        push_calls(&mut all, closing, p, own[p as usize].as_slice(), starts)?;
    }
    Ok(all)
}

/// A call of a closing as a line.
fn line(closing: &Closing, one: &CallAt) -> Line
    requires known { one.now.process < length closing.now.receipts }
    requires within { one.now.number < length (receipts_of closing.now one.now.process) }
    requires few { length (receipts_of closing.now one.now.process) < 2 ^ 32 }
    ensures { result ≡ line_at closing.now one.now }
{
    let receipt = &closing.receipts(one.process)[one.number as usize];
    Line {
        process: one.process,
        number: one.number + 1,
        call: receipt.call.copy(),
        reply: receipt.reply,
    }
}

/// These calls as lines.
pub(crate) fn lines(
    alloc: Global,
    closing: &Closing,
    calls: &[CallAt],
) -> Result<Vec<Line>, AllocError>
    requires calls { AreCallsOf closing.now calls.now }
    requires few { All (λ receipts. length receipts < 2 ^ 32) closing.now.receipts }
    ensures { IfOk result (λ lines. lines.items ≡ map (line_at closing.now) calls.now) }
{
    let mut lines = Vec::with_capacity(alloc, calls.len())?;
    for one in calls {
        lines.push(line(closing, one))?;
    }
    Ok(lines)
}
