//! Cuts by their places and the calls that stand at them.

ghost use Rattle.std.specs.Prelude.{◌≡◌, ◌≢◌, ◌++◌, ◌^◌, ◌<◌, [], length, map, slice_index_or, true, None, IfOk, IfSome, OnOk};
ghost use Rattle.at_journal.specs.Prelude.{cons_option, filter_map, option_copied, place, cut_at};
ghost use Rattle.at_journal.specs.Held.{AreAdded, NameCuts, cut_of, named_by};

use crate::cuts::put_cut_at;
use at_base::Counts;
use at_log::{At, Receipt};
use std::alloc::{AllocError, Global};

/// A cut at which a call stands: how many records it counts, and the number of the call from 0.
#[derive(Drop)]
pub(crate) struct CutAt {
    place: u64,
    number: u32,
}

/// Names the cut at which the call of a number stands, if it stands at one.
fn name_cut(list: &mut Vec<CutAt>, at: &At, number: u32) -> Result<(), AllocError>
    ensures { OnOk result (list.new.items ≡ list.old.items ++ named_by number (cut_at at.now)) }
{
    match at {
        At::Cut(counts) => list.push(CutAt {
            place: counts.total(),
            number,
        })?,
        At::Own(_) | At::Round { .. } | At::Previous => {}
    }
    Ok(())
}

/// The cuts at which the calls of these receipts stand.
pub(crate) fn cuts_named(alloc: Global, receipts: &[Receipt]) -> Result<Vec<CutAt>, AllocError>
    requires { length receipts.now < 2 ^ 32 }
    ensures { IfOk result (λ list. NameCuts receipts.now list.items) }
{
    let mut list = Vec::with_capacity(alloc, receipts.len())?;
    for number in 0..receipts.len() as u32 {
        name_cut(&mut list, &receipts[number as usize].at, number)?;
    }
    Ok(list)
}

/// Whether a cut is held at a place.
fn is_held(cuts: &[Option<&Counts>], place: u64) -> bool
    ensures within { result ≡ true → place < length cuts.now }
    ensures held { result ≡ true → slice_index_or (map option_copied cuts.now) place None ≢ None }
{
    place < cuts.len() as u64 && cuts[place as usize].is_some()
}

/// Puts a cut that was named at its place, unless one is held there.
fn put_named<'c>(cuts: &mut Vec<Option<&'c Counts>>, receipts: &'c [Receipt], one: &CutAt)
    requires within { one.now.number < length receipts.now }
    requires placed { IfSome (cut_of receipts.now one.now) (λ view. place view ≡ one.now.place) }
    ensures { AreAdded (cons_option (cut_of receipts.now one.now) [])
        (map option_copied cuts.old.items) (map option_copied cuts.new.items) }
{
    if !is_held(cuts.as_slice(), one.place) {
        put_cut_at(cuts, &receipts[one.number as usize].at);
    }
}

/// Puts cuts that were named at their places.
pub(crate) fn put_all_named<'c>(
    cuts: &mut Vec<Option<&'c Counts>>,
    receipts: &'c [Receipt],
    list: &[CutAt],
)
    requires { NameCuts receipts.now list.now }
    ensures { AreAdded (filter_map (λ r. cut_at r.at) receipts.now)
        (map option_copied cuts.old.items) (map option_copied cuts.new.items) }
{
    for one in list {
        put_named(cuts, receipts, one);
    }
}
