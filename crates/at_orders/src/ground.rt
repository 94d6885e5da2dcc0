//! What the stages of a walk stand on.

ghost use Rattle.std.specs.Prelude.{◌≡◌, ◌^◌, ◌<◌, ◌≤◌, [], All, IfOk, None, Some, length, slice_get, slice_index_or, take};
ghost use Rattle.at_orders.specs.Prelude.{IsPlayable, contents_of, most_calls, IsCallOn, first_account, Call};
ghost use Rattle.at_orders.specs.Parts.{files_of_part};
ghost use Rattle.at_orders.specs.Stages.{payments_from};
ghost use Rattle.at_orders.specs.Walk.{AreAllCountedBefore, AreCountedBefore, HasFirstPlace, HasPlace, IsGround};

use crate::places::Places;
use at_ledger::{Book, Call};
use std::alloc::{AllocError, Global};
use std::marker::Model;

/// The book and the files of the part that is walked, for each call how many payments from the account that it names first stand before
/// it in its file, and where the balances of the accounts are kept that calls of all files name first.
pub(crate) struct Ground<'a> {
    book: &'a Book,
    files: &'a [Vec<Call>],
    parts: &'a [u32],
    part: u32,
    before: Vec<Vec<u32>>,
    places: Places,
}

impl<'a> Drop for Ground<'a> {
    fn drop(self) {
        let Ground {
            book: _,
            files: _,
            parts: _,
            part: _,
            before: _,
            places: _,
        } = self;
    }
}

impl<'a> Model for Ground<'a> {
    ghost use Rattle.std.specs.Prelude.{◌≡◌, length};
    ghost use Rattle.at_orders.specs.Prelude.{contents_of};
    ghost use Rattle.at_orders.specs.Parts.{files_of_part};
    ghost use Rattle.at_orders.specs.Stages.{GroundTerms};
    ghost use Rattle.at_orders.specs.Walk.{AreAllCountedBefore, IsGround};

    ghost Value = { GroundTerms };

    ghost view = { λ g. record {
      book = g.book.now;
      files = files_of_part (contents_of g.files.now) g.parts.now g.part;
      named = g.places.named.items;
      places = g.places.of.items;
    } };

    ghost invariant = { λ g. IsGround (record {
      book = g.book.now;
      files = files_of_part (contents_of g.files.now) g.parts.now g.part;
      named = g.places.named.items;
      places = g.places.of.items;
    }) × AreAllCountedBefore (contents_of g.files.now) (contents_of g.before.items)
        × (length g.parts.now ≡ length g.files.now) };
}

impl<'a> Ground<'a> {
    /// Counts the payments, and gives a place to each account that a call of all files names first. There is a file for each process.
    pub(crate) fn new(
        alloc: Global,
        book: &'a Book,
        files: &'a [Vec<Call>],
        parts: &'a [u32],
        part: u32,
    ) -> Result<Ground<'a>, AllocError>
        requires processes { length files.now ≡ book.now.processes }
        requires files { All (IsPlayable (length book.now.accounts)) (contents_of files.now) }
        requires parts { length parts.now ≡ length files.now }
        ensures book { IfOk result (λ g. g.book ≡ book.now) }
        ensures files { IfOk result
            (λ g. g.files ≡ files_of_part (contents_of files.now) parts.now part) }
        ensures named { IfOk result
            (λ g. All (All (HasFirstPlace g.places)) (contents_of files.now)) }
    {
        let accounts = book.accounts();
        let before = count_all_before(alloc, accounts, files)?;
        let places = Places::new(alloc, accounts, files)?;
        Ok(Ground {
            book,
            files,
            parts,
            part,
            before,
            places,
        })
    }

    /// The book.
    pub(crate) fn book(&self) -> &Book
        ensures book { result.now ≡ self.now.book }
        ensures known { IsGround self.now }
    {
        self.book
    }

    /// The calls of the process, if it is of the part, and else none.
    pub(crate) fn file(&self, process: u32) -> &[Call]
        requires { process < self.now.book.processes }
        ensures calls { result.now ≡ slice_index_or self.now.files process [] }
        ensures known { IsGround self.now }
    {
        if self.parts[process as usize] == self.part {
            self.files[process as usize].as_slice()
        } else {
            &[]
        }
    }

    /// How many payments from the account that call i of the process names first stand before it in its file.
    pub(crate) fn payments_before(&self, process: u32, i: u32) -> u32
        requires process_in { process < self.now.book.processes }
        requires call_in { i < length (slice_index_or self.now.files process []) }
        ensures count { (call : Call)
            → slice_get (slice_index_or self.now.files process []) i ≡ Some call
            → result ≡ payments_from (first_account call)
            (take i (slice_index_or self.now.files process [])) }
    {
        self.before[process as usize][i as usize]
    }

    /// The accounts whose balances are kept, in their places.
    pub(crate) fn named(&self) -> &[u32]
        ensures named { result.now ≡ self.now.named }
        ensures known { IsGround self.now }
    {
        self.places.named.as_slice()
    }

    /// Where the account's balance is kept, if it is.
    pub(crate) fn find(&self, account: u32) -> Option<usize>
        requires { account < length self.now.book.accounts }
        ensures place { result ≡ slice_index_or self.now.places account None }
    {
        self.places.of[account as usize]
    }

    /// Where the account's balance is kept.
    pub(crate) fn place(&self, account: u32) -> usize
        requires { HasPlace self.now.places account }
        ensures place { slice_index_or self.now.places account None ≡ Some result }
        ensures within { result < length self.now.named }
    {
        self.places.of[account as usize].unwrap_or(0)
    }
}

/// For each call how many payments from the account that it names first stand before it.
fn count_before(alloc: Global, accounts: u32, file: &[Call]) -> Result<Vec<u32>, AllocError>
    requires small { accounts ≤ 2 ^ 16 }
    requires playable { IsPlayable accounts file.now }
    ensures { IfOk result (λ before. AreCountedBefore file.now before.items) }
{
    let mut counts = vec![in alloc; 0u32; accounts as usize]?;
    let mut before = Vec::new(alloc);
    for call in file {
        let account = call.first_account() as usize;
        before.push(counts[account])?;
        if call.payout().is_some() {
            counts[account] += 1;
        }
    }
    Ok(before)
}

/// The same of the calls of each file.
fn count_all_before(
    alloc: Global,
    accounts: u32,
    files: &[Vec<Call>],
) -> Result<Vec<Vec<u32>>, AllocError>
    requires small { accounts ≤ 2 ^ 16 }
    requires playable { All (IsPlayable accounts) (contents_of files.now) }
    ensures { IfOk result
        (λ before. AreAllCountedBefore (contents_of files.now) (contents_of before.items)) }
{
    let mut before = Vec::new(alloc);
    for file in files {
        before.push(count_before(alloc, accounts, file.as_slice())?)?;
    }
    Ok(before)
}
