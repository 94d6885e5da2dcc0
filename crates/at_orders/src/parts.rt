//! Which processes are of one part.

ghost use Rattle.std.specs.Prelude.{◌≡◌, ℕ, ◌<◌, List, All, IfOk, length, slice_index};
ghost use Rattle.at_orders.specs.Prelude.{Call, IsPlayable, contents_of, IsCallOn, AreTargetsOn};
ghost use Rattle.at_orders.specs.Parts.{AreJoined, AreParts, CanTouch, IsTarget, PaysAt, PaysIn, Touch, renamed};

use crate::covered::left_of_all;
use at_ledger::{Book, Call, Targets};
use std::alloc::{AllocError, Global};

/// The part of each process so far, and of each account that isn't covered a process that was found to use it.
#[derive(Drop)]
pub(crate) struct Parts {
    pub(crate) of: Vec<u32>,
    pub(crate) users: Vec<Option<u32>>,
}

/// The name of the part, where one name is given up for another.
fn rename(from: u32, to: u32, part: u32) -> u32
    ensures { result ≡ renamed from to part }
{
    if part == from {
        return to;
    }
    part
}

/// The processes of the second's part are of the first's.
fn unite(parts: &mut [u32], first: u32, second: u32)
    requires first_in { first < length parts.old }
    requires second_in { second < length parts.old }
    ensures len { length parts.new ≡ length parts.old }
    ensures names { (p : ℕ) → p < length parts.old → slice_index parts.new p
        ≡ renamed (slice_index parts.old second) (slice_index parts.old first) (slice_index parts.old p) }
{
    let to = parts[first as usize];
    let from = parts[second as usize];
    for p in 0..parts.len() {
        parts[p] = rename(from, to, parts[p]);
    }
}

impl Parts {
    /// Each process is a part of its own.
    fn new(alloc: Global, book: &Book) -> Result<Parts, AllocError>
        ensures { IfOk result (λ parts. (files : List (List Call)) → length files ≡ book.now.processes
            → AreJoined book.now files parts) }
    {
        let mut of = Vec::new(alloc);
        for process in 0..book.processes() {
            of.push(process)?;
        }
        let users = vec![in alloc; None; book.accounts() as usize]?;
        Ok(Parts { of, users })
    }

    /// The process makes a payment from or to the account. If that isn't covered, the process is of one part with its user.
    fn touch(&mut self, book: &Book, process: u32, account: u32, left: &[Option<u64>])
        requires joining { CanTouch book.now left.now process (λ a. account ≡ a) self.old }
        requires account_in { account < length book.now.accounts }
        ensures { Touch book.now left.now process (λ a. account ≡ a) self.old self.new }
    {
        if left[account as usize].is_some() {
            return;
        }
        match self.users[account as usize] {
            Some(user) => unite(self.of.as_mut_slice(), user, process),
            None => self.users[account as usize] = Some(process),
        }
    }

    /// The same of the accounts of the targets.
    fn touch_all(&mut self, book: &Book, process: u32, targets: &Targets, left: &[Option<u64>])
        requires joining { CanTouch book.now left.now process (IsTarget targets.now) self.old }
        requires targets_in { AreTargetsOn (length book.now.accounts) targets.now }
        ensures { Touch book.now left.now process (IsTarget targets.now) self.old self.new }
    {
        for i in 0..targets.len() {
            self.touch(book, process, targets.to(i), left);
        }
    }

    /// The same of the accounts that the call names, if it is a payment by an owner of its source.
    fn add(&mut self, book: &Book, process: u32, call: &Call, left: &[Option<u64>])
        requires joining { CanTouch book.now left.now process
            (λ a. PaysAt book.now process a call.now) self.old }
        requires call_in { IsCallOn (length book.now.accounts) call.now }
        ensures { Touch book.now left.now process (λ a. PaysAt book.now process a call.now) self.old
            self.new }
    {
        book.known();
        let Some((source, targets)) = call.payout() else {
            return;
        };
        if book.slot_of(source, process).is_none() {
            return;
        }
        self.touch(book, process, source, left);
        self.touch_all(book, process, &targets, left);
    }

    /// The same of all calls of the file.
    fn add_file(&mut self, book: &Book, process: u32, file: &[Call], left: &[Option<u64>])
        requires joining { CanTouch book.now left.now process (PaysIn book.now process file.now) self.old }
        requires calls { All (IsCallOn (length book.now.accounts)) file.now }
        ensures { Touch book.now left.now process (PaysIn book.now process file.now) self.old self.new }
    {
        for call in file {
            self.add(book, process, call, left);
        }
    }
}

/// The part of each process. Takes time in proportion to the calls and the accounts.
pub(crate) fn parts_of(
    alloc: Global,
    book: &Book,
    files: &[Vec<Call>],
) -> Result<Vec<u32>, AllocError>
    requires processes { length files.now ≡ book.now.processes }
    requires files { All (IsPlayable (length book.now.accounts)) (contents_of files.now) }
    ensures { IfOk result (λ parts. AreParts book.now (contents_of files.now) parts.items) }
{
    let left = left_of_all(alloc, book, files)?;
    let mut parts = Parts::new(alloc, book)?;
    for process in 0..book.processes() {
        let file = files[process as usize].as_slice();
        parts.add_file(book, process, file, left.as_slice());
    }
    let Parts { of, users } = parts;
    drop(users);
    Ok(of)
}
