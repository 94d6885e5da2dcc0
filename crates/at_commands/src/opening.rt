//! Opening a ledger while the calls for it are read.

ghost use Rattle.std.specs.Prelude.{◌≡◌, ◌≤◌, ◌⊎◌, ℕ, length, true, All, Ok, Err, IfOk, IfErr, IsErr, IsOk, OnOk};
ghost use Rattle.at_commands.specs.Running.{HasNewPasses};
ghost use Rattle.at_commands.specs.Prelude.{SameFiles, contents_of};
ghost use Rattle.at_commands.specs.Faults.{HasFileNumbers, MayRefuse};
ghost use Rattle.at_commands.specs.Loading.{IsBookRead, IsSpelled, MayReach, PaysBytes, Spelled, loaded, loaded_beside, named_book};
ghost use Rattle.at_commands.specs.Words.{form_shown, words_of};

use crate::loading::load_payments;
use crate::words::Form;
use at_files::Names;
use at_io::Shelf;
use at_ledger::{Book, Call};
use at_object::{Ledger, Pass};
use at_report::Status;
use std::alloc::{AllocError, Global};
use std::thread::{Threads, join_mut};

/// A new ledger of the book with its passes. A board takes memory for all room that its book has, so the ledger is made for the own room
/// that can be used.
fn open(alloc: Global, book: &Book) -> Result<(Ledger, Vec<Pass>), AllocError>
    ensures { IfOk result (λ r. HasNewPasses book.now r.0 r.1.items) }
{
    let usable = book.with_usable_room(alloc)?;
    Ledger::new(alloc, &usable)
}

/// A new ledger of the book with its passes, and the calls of the payment files, each of which may be refused. The files are read in
/// this thread, and the ledger is made in another, or after them where no thread can be had.
pub(crate) fn open_and_load<R: Threads, F: Shelf>(
    rt: &R,
    alloc: Global,
    book: &Book,
    names: &Names,
    form: &Form<'_>,
    shelf: &mut F,
) -> (
    Result<(Ledger, Vec<Pass>), AllocError>,
    Result<Vec<Vec<Call>>, Status>,
)
    requires { IsBookRead (F.tells shelf.old) (F.file shelf.old) form.now.book.now
        (words_of form.now.files.now) (named_book book.now names.now) }
    ensures opened { IfOk result.0 (λ r. HasNewPasses book.now r.0 r.1.items) }
    ensures files { SameFiles (F.tells shelf.old) (F.tells shelf.new) (F.file shelf.old)
        (F.file shelf.new) }
    ensures later { F.faults shelf.old ≤ F.faults shelf.new }
    ensures kept { OnOk result.1 (F.faults shelf.new ≡ F.faults shelf.old) }
    ensures ok { F.tells shelf.old ≡ true
        → IfOk result.1 (λ files. loaded (F.file shelf.old) (form_shown form.now) ≡ Ok
        (loaded_beside (named_book book.now names.now) (contents_of files.items))) }
    ensures spelled { F.tells shelf.old ≡ true
        → IfOk result.1 (λ files. Spelled (F.file shelf.old) (form_shown form.now)
        (loaded_beside (named_book book.now names.now) (contents_of files.items))) }
    ensures known { IfOk result.1
        (λ files. All (IsSpelled (PaysBytes (named_book book.now names.now)))
        (contents_of files.items)) }
    ensures count { IfOk result.1 (λ files. length files.items ≡ book.now.processes) }
    ensures err { IfErr result.1
        (λ refusal. MayRefuse (F.tells shelf.old) (loaded (F.file shelf.old) (form_shown form.now))
        (F.faults shelf.old) (F.faults shelf.new) refusal) }
    ensures reached { (file : ℕ) → result.1 ≡ Err (Status.ReadFault file)
        → MayReach (F.tells shelf.old) (F.file shelf.old) (form_shown form.now) file }
    ensures numbered { IfErr result.1 (HasFileNumbers (length form.now.files.now)) }
{
    join_mut(
        rt,
        &mut move || open(alloc, book),
        &mut || load_payments(alloc, book, names, form, shelf),
    )
}

/// The ledger and the calls, where both could be had. A refusal of the files is told first, whatever memory there was for the ledger:
/// that this had none is told only where each file was read and accepted.
pub(crate) fn files_first(
    opened: Result<(Ledger, Vec<Pass>), AllocError>,
    files: Result<Vec<Vec<Call>>, Status>,
) -> Result<((Ledger, Vec<Pass>), Vec<Vec<Call>>), Status>
    ensures both { IfOk result (λ b. (opened ≡ Ok b.0) × (files ≡ Ok b.1)) }
    ensures refused { IfErr result (λ refusal. (files ≡ Err refusal)
        ⊎ (IsOk files × IsErr opened × (refusal ≡ Status.NoMemory))) }
{
    match files {
        Ok(files) => match opened {
            Ok(opened) => Ok((opened, files)),
            Err(AllocError) => Err(Status::NoMemory),
        },
        Err(refusal) => Err(refusal),
    }
}
