//! The cuts that a closing holds.

ghost use Rattle.std.specs.Prelude.{◌≡◌, [], ◌∷◌, map, sum, IfOk};
ghost use Rattle.at_journal.specs.Prelude.{cons_option, filter_map, flat_map, option_copied, log_lengths, cut_at};
ghost use Rattle.at_journal.specs.Held.{AreAdded, AreHeld};

use at_base::Counts;
use at_log::{At, Closing, Receipt, Record};
use std::alloc::{AllocError, Global};

/// Puts a cut at its place. Those of one place count the same, and the last one stays; one that counts all has no place here.
fn put_cut<'c>(cuts: &mut Vec<Option<&'c Counts>>, counts: &'c Counts)
    ensures { AreAdded (counts.now ∷ []) (map option_copied cuts.old.items)
        (map option_copied cuts.new.items) }
{
    let place = counts.total();
    if place < cuts.len() as u64 {
        cuts[place as usize] = Some(counts);
    }
}

/// Puts the views of a log at their places.
fn put_views<'c>(cuts: &mut Vec<Option<&'c Counts>>, log: &'c [Record])
    ensures { AreAdded (map (λ x. x.view) log.now) (map option_copied cuts.old.items)
        (map option_copied cuts.new.items) }
{
    for record in log {
        put_cut(cuts, &record.view);
    }
}

/// Puts the cut at which a receipt stands at its place, if it stands at one.
pub(crate) fn put_cut_at<'c>(cuts: &mut Vec<Option<&'c Counts>>, at: &'c At)
    ensures { AreAdded (cons_option (cut_at at.now) []) (map option_copied cuts.old.items)
        (map option_copied cuts.new.items) }
{
    match at {
        At::Cut(counts) => put_cut(cuts, counts),
        At::Own(_) | At::Round { .. } | At::Previous => {}
    }
}

/// Puts the cuts at which receipts stand at their places.
fn put_cuts<'c>(cuts: &mut Vec<Option<&'c Counts>>, receipts: &'c [Receipt])
    ensures { AreAdded (filter_map (λ r. cut_at r.at) receipts.now)
        (map option_copied cuts.old.items) (map option_copied cuts.new.items) }
{
    for receipt in receipts {
        put_cut_at(cuts, &receipt.at);
    }
}

/// Puts the views of all logs at their places.
pub(crate) fn put_all_views<'c>(cuts: &mut Vec<Option<&'c Counts>>, closing: &'c Closing)
    ensures { AreAdded (flat_map (λ log. map (λ x. x.view) log) closing.now.logs)
        (map option_copied cuts.old.items) (map option_copied cuts.new.items) }
{
    for p in 0..closing.processes() {
        put_views(cuts, closing.log(p));
    }
}

/// Puts the cuts at which the receipts of all processes stand at their places.
fn put_all_cuts<'c>(cuts: &mut Vec<Option<&'c Counts>>, closing: &'c Closing)
    ensures { AreAdded
        (flat_map (λ receipts. filter_map (λ r. cut_at r.at) receipts) closing.now.receipts)
        (map option_copied cuts.old.items) (map option_copied cuts.new.items) }
{
    for p in 0..closing.processes() {
        put_cuts(cuts, closing.receipts(p));
    }
}

/// The held cuts by their places. The views come last, so they are the ones that are kept: what reads the order next
/// reads their records.
pub(crate) fn held_cuts<'c>(
    alloc: Global,
    closing: &'c Closing,
    total: u64,
) -> Result<Vec<Option<&'c Counts>>, AllocError>
    requires total { total ≡ sum (log_lengths closing.now) }
    ensures { IfOk result (λ cuts. AreHeld closing.now (map option_copied cuts.items)) }
{
    let mut cuts = Vec::new(alloc);
    cuts.resize(total as usize, None)?;
    put_all_cuts(&mut cuts, closing);
    put_all_views(&mut cuts, closing);
    Ok(cuts)
}
