//! How many calls the files of a form have. The calls themselves aren't kept.

ghost use Rattle.std.specs.Prelude.{◌≡◌, ℕ, ◌≤◌, All, IfOk, IfErr, OnOk, Err, length, sum, sum_by};
ghost use Rattle.at_commands.specs.Prelude.{SameFiles, contents_of};
ghost use Rattle.at_commands.specs.Counting.{CountsBytes, CountsRead, IsCount, counted_given};
ghost use Rattle.at_commands.specs.Faults.{HasFileNumbers, Kind, MayRefuse};
ghost use Rattle.at_commands.specs.Loading.{MayReach, loaded};
ghost use Rattle.at_commands.specs.Words.{form_shown};

use crate::file_forms::{FileForm, Payments};
use crate::loading::{Loaded, load_all};
use crate::words::Form;
use at_files::Names;
use at_io::Shelf;
use at_ledger::Book;
use at_report::Status;
use std::alloc::Global;

/// The number of a process's calls, which are let go once they are counted.
pub(crate) struct CountedPayments;

impl FileForm for CountedPayments {
    type Item = u32;

    ghost given = { counted_given };

    ghost spells = { CountsBytes };

    ghost kind = { Kind.payments };

    fn read(
        alloc: Global,
        book: &Book,
        names: &Names,
        process: u32,
        bytes: &[u8],
    ) -> Result<Vec<u32>, Status> {
        let calls = match Payments::read(alloc, book, names, process, bytes) {
            Ok(calls) => calls,
            Err(refusal) => return Err(refusal),
        };
        match vec![in alloc; calls.len() as u32] {
            Ok(count) => Ok(count),
            Err(_) => Err(Status::NoMemory),
        }
    }
}

/// The sum of the files' numbers, of which each has one.
fn total(files: &[Vec<u32>]) -> u32
    requires processes { length files.now ≤ 16 }
    requires counts { All IsCount (contents_of files.now) }
    ensures { result ≡ sum_by sum (contents_of files.now) }
{
    let mut calls = 0;
    for file in files {
        calls += file[0];
    }
    calls
}

/// A book, and how many calls its files have together.
#[derive(Drop)]
pub struct Counted {
    pub book: Book,
    pub calls: u32,
}

/// The book that the files of the form spell, and how many calls, or the first refusal. The calls of one file at a time are held.
pub fn count<F: Shelf>(alloc: Global, shelf: &mut F, form: &Form<'_>) -> Result<Counted, Status>
    ensures files { SameFiles (F.tells shelf.old) (F.tells shelf.new) (F.file shelf.old)
        (F.file shelf.new) }
    ensures later { F.faults shelf.old ≤ F.faults shelf.new }
    ensures kept { OnOk result (F.faults shelf.new ≡ F.faults shelf.old) }
    ensures counts { IfOk result
        (λ c. CountsRead (F.tells shelf.old) (F.file shelf.old) (form_shown form.now) c.book
        c.calls) }
    ensures err { IfErr result
        (λ refusal. MayRefuse (F.tells shelf.old) (loaded (F.file shelf.old) (form_shown form.now))
        (F.faults shelf.old) (F.faults shelf.new) refusal) }
    ensures reached { (file : ℕ) → result ≡ Err (Status.ReadFault file)
        → MayReach (F.tells shelf.old) (F.file shelf.old) (form_shown form.now) file }
    ensures numbered { IfErr result (HasFileNumbers (length form.now.files.now)) }
{
    let Loaded {
        book,
        names: _,
        files,
    } = match load_all::<F, CountedPayments>(alloc, shelf, form.book, form.files) {
        Ok(loaded) => loaded,
        Err(refusal) => return Err(refusal),
    };
    let _known = book.accounts();
    let calls = total(files.as_slice());
    Ok(Counted { book, calls })
}
