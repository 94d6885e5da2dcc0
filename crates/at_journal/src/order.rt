//! The order of a closing's publications.

ghost use Rattle.std.specs.Prelude.{◌≡◌, ◌++◌, ◌^◌, ◌<◌, ◌≤◌, length, map, slice_index, sum, OnOk, IfOk};
ghost use Rattle.at_journal.specs.Prelude.{option_copied, log_lengths, log_of, journal_order};
ghost use Rattle.at_journal.specs.Held.{AreHeld};
ghost use Rattle.at_journal.specs.Order.{AreNested, AreNumbered, AreRecords, AreWithin, published_in, records_between, records_of_process};

use at_base::Counts;
use at_log::Closing;
use std::alloc::{AllocError, Global};

/// A record by its process and its number in the log of that.
#[derive(Drop)]
pub(crate) struct Numbered {
    pub(crate) process: u32,
    pub(crate) number: u32,
}

/// How many records a process has: its last one says how many stand before it.
fn log_len(closing: &Closing, p: u32) -> u64
    requires known { p < length closing.now.logs }
    requires within { AreWithin closing.now }
    requires numbered { AreNumbered closing.now }
    ensures length { result ≡ length (log_of closing.now p) }
    ensures small { result ≤ 2 ^ 32 }
{
    let log = closing.log(p);
    if log.is_empty() {
        return 0;
    }
    u64::from(log[log.len() - 1].view.get(p)) + 1
}

/// How many records all processes have.
pub(crate) fn total_of(closing: &Closing) -> u64
    requires within { AreWithin closing.now }
    requires numbered { AreNumbered closing.now }
    ensures total { result ≡ sum (log_lengths closing.now) }
    ensures small { result ≤ 2 ^ 36 }
{
    let mut total = 0;
    for p in 0..closing.processes() {
        total += log_len(closing, p);
    }
    total
}

/// Adds the records of a process from one number up to another.
fn push_records(
    order: &mut Vec<Numbered>,
    process: u32,
    from: u64,
    to: u64,
) -> Result<(), AllocError>
    requires { to ≤ 2 ^ 32 }
    ensures { OnOk result (order.new.items ≡ order.old.items
        ++ records_of_process process from to) }
{
    for number in from..to {
        order.push(Numbered {
            process,
            number: number as u32,
        })?;
    }
    Ok(())
}

/// Adds the records that a cut counts and that an earlier one doesn't.
fn push_next(order: &mut Vec<Numbered>, listed: &Counts, cut: &Counts) -> Result<(), AllocError>
    requires { length listed.now ≡ length cut.now }
    ensures { OnOk result (order.new.items ≡ order.old.items
        ++ records_between (length cut.now) (slice_index listed.now) (slice_index cut.now)) }
{
    for p in 0..cut.len() {
        push_records(order, p, u64::from(listed.get(p)), u64::from(cut.get(p)))?;
    }
    Ok(())
}

/// Adds the records that a cut doesn't count.
fn push_last(
    order: &mut Vec<Numbered>,
    listed: &Counts,
    closing: &Closing,
) -> Result<(), AllocError>
    requires listed { length listed.now ≡ length closing.now.logs }
    requires within { AreWithin closing.now }
    requires numbered { AreNumbered closing.now }
    ensures { OnOk result (order.new.items ≡ order.old.items
        ++ records_between (length closing.now.logs) (slice_index listed.now)
        (λ p. length (log_of closing.now p))) }
{
    for p in 0..closing.processes() {
        push_records(order, p, u64::from(listed.get(p)), log_len(closing, p))?;
    }
    Ok(())
}

/// The order of the publications: cut by cut, and then those that no cut but the last counts.
pub(crate) fn order_of(
    alloc: Global,
    closing: &Closing,
    cuts: &[Option<&Counts>],
) -> Result<Vec<Numbered>, AllocError>
    requires within { AreWithin closing.now }
    requires nested { AreNested closing.now }
    requires numbered { AreNumbered closing.now }
    requires held { AreHeld closing.now (map option_copied cuts.now) }
    ensures order { IfOk result (λ order. published_in closing.now order.items
        ≡ journal_order closing.now) }
    ensures records { IfOk result (λ order. AreRecords closing.now order.items) }
{
    let mut order = Vec::with_capacity(alloc, cuts.len())?;
    let nothing = Counts::zeros(closing.processes());
    let mut listed = &nothing;
    for place in 0..cuts.len() {
        if let Some(cut) = cuts[place] {
            push_next(&mut order, listed, cut)?;
            listed = cut;
        }
    }
    push_last(&mut order, listed, closing)?;
    Ok(order)
}
