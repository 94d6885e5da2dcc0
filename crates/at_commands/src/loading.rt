//! Reading the files that the words name.

ghost use Rattle.std.specs.Prelude.{◌≡◌, ℕ, ◌+◌, ◌^◌, ◌<◌, ◌≤◌, true, length, All, IfOk, IfErr, OnOk, Ok, Err};
ghost use Rattle.at_commands.specs.Prelude.{SameFiles, IsPlayable, contents_of, NamedBook, AreNamesOf, IsBook, most_file_bytes};
ghost use Rattle.at_commands.specs.Words.{words_of, form_shown};
ghost use Rattle.at_commands.specs.Faults.{HasFileNumbers, IsUnfetched, Kind, MayRefuse, MayRefuseOf};
ghost use Rattle.at_commands.specs.Loading.{EachSpells, HoldsFile, IsBookRead, IsFileReached, IsSpelled, MayReach, MayReachOf, PaysBytes, Spelled, SpelledOf, SpellsBook, SpellsFile, all_loaded, loaded_beside, loaded_shown, book_loaded, fetched, file_loaded, files_loaded, loaded, named_book};

use crate::file_forms::{FileForm, Payments};
use crate::words::Form;
use at_files::{Names, ReadBookFault, location_of, read_book};
use at_io::{FetchError, Shelf, fetch};
use at_ledger::{Book, Call};
use at_report::{Status, UsageFault};
use std::alloc::Global;

/// The bytes for which a file's memory is asked at once; a longer file's grows. Room that nothing comes to lie in costs nothing, since no
/// byte of it is touched.
const USUAL_ROOM: usize = 524_288;

/// A book with its names, and what the file of each process gave.
#[derive(Drop)]
pub struct Loaded<T> {
    pub book: Book,
    pub names: Names,
    pub files: Vec<Vec<T>>,
}

/// The bytes of the file with this number.
pub fn fetch_file<F: Shelf>(
    alloc: Global,
    shelf: &mut F,
    name: &str,
    number: u32,
) -> Result<Vec<u8>, Status>
    ensures files { SameFiles (F.tells shelf.old) (F.tells shelf.new) (F.file shelf.old)
        (F.file shelf.new) }
    ensures later { F.faults shelf.old ≤ F.faults shelf.new }
    ensures kept { OnOk result (F.faults shelf.new ≡ F.faults shelf.old) }
    ensures ok { F.tells shelf.old ≡ true
        → IfOk result (λ bytes. fetched (F.file shelf.old name.now) number ≡ Ok bytes.items) }
    ensures held { F.tells shelf.old ≡ true
        → IfOk result (λ bytes. HoldsFile (F.file shelf.old) name.now bytes.items) }
    ensures err { (kind : Kind) → IfErr result
        (λ refusal. MayRefuseOf kind (F.tells shelf.old)
        (fetched (F.file shelf.old name.now) number) (F.faults shelf.old) (F.faults shelf.new)
        refusal) }
    ensures size { IfOk result (λ bytes. length bytes.items ≤ most_file_bytes) }
    ensures why { IfErr result (IsUnfetched number) }
    ensures file { (file : ℕ) → result ≡ Err (Status.ReadFault file) → file ≡ number }
    ensures numbered { (files : ℕ) → number ≤ files → IfErr result (HasFileNumbers files) }
{
    let Ok(mut bytes) = Vec::with_capacity(alloc, USUAL_ROOM) else {
        return Err(Status::NoMemory);
    };
    match fetch(shelf, name, &mut bytes) {
        Ok(()) => Ok(bytes),
        Err(FetchError::Failed) => Err(Status::ReadFault { file: number }),
        Err(FetchError::TooLong) => Err(Status::TooLong { file: number }),
        Err(FetchError::NoMemory) => Err(Status::NoMemory),
    }
}

/// The book of file 0, with its names.
fn fetch_book<F: Shelf>(alloc: Global, shelf: &mut F, name: &str) -> Result<(Book, Names), Status>
    ensures files { SameFiles (F.tells shelf.old) (F.tells shelf.new) (F.file shelf.old)
        (F.file shelf.new) }
    ensures later { F.faults shelf.old ≤ F.faults shelf.new }
    ensures kept { OnOk result (F.faults shelf.new ≡ F.faults shelf.old) }
    ensures ok { F.tells shelf.old ≡ true
        → IfOk result
        (λ l. book_loaded (F.file shelf.old) name.now ≡ Ok (record { book = l.0; names = l.1 })) }
    ensures spelled { F.tells shelf.old ≡ true
        → IfOk result (λ l. SpellsBook (F.file shelf.old) name.now l.0 l.1) }
    ensures names { IfOk result (λ l. AreNamesOf l.0 l.1) }
    ensures err { (kind : Kind) → IfErr result
        (λ refusal. MayRefuseOf kind (F.tells shelf.old) (book_loaded (F.file shelf.old) name.now)
        (F.faults shelf.old) (F.faults shelf.new) refusal) }
    ensures file { (file : ℕ) → result ≡ Err (Status.ReadFault file) → file ≡ 0 }
    ensures numbered { (files : ℕ) → IfErr result (HasFileNumbers files) }
{
    let bytes = match fetch_file(alloc, shelf, name, 0) {
        Ok(bytes) => bytes,
        Err(refusal) => return Err(refusal),
    };
    match read_book(alloc, bytes.as_slice()) {
        Ok(read) => Ok(read),
        Err(ReadBookFault::Bad(bad)) => Err(Status::BadBook {
            at: location_of(bytes.as_slice(), bad.line),
            why: bad.why,
        }),
        Err(ReadBookFault::NoMemory) => Err(Status::NoMemory),
    }
}

/// The book of file 0, with its names, beside which each process has a file: or the refusal of the book, or that of the number of
/// files.
fn load_book_for<F: Shelf, P: FileForm>(
    alloc: Global,
    shelf: &mut F,
    name: &str,
    words: &[String],
) -> Result<(Book, Names), Status>
    ensures files { SameFiles (F.tells shelf.old) (F.tells shelf.new) (F.file shelf.old)
        (F.file shelf.new) }
    ensures later { F.faults shelf.old ≤ F.faults shelf.new }
    ensures kept { OnOk result (F.faults shelf.new ≡ F.faults shelf.old) }
    ensures read { IfOk result
        (λ l. IsBookRead (F.tells shelf.old) (F.file shelf.old) name.now (words_of words.now)
        (named_book l.0 l.1)) }
    ensures err { IfErr result
        (λ refusal. MayRefuseOf P.kind (F.tells shelf.old)
        (all_loaded P.given (F.file shelf.old) name.now (words_of words.now)) (F.faults shelf.old)
        (F.faults shelf.new) refusal) }
    ensures reached { (file : ℕ) → result ≡ Err (Status.ReadFault file)
        → MayReachOf P.given (F.tells shelf.old) (F.file shelf.old) name.now (words_of words.now)
        file }
    ensures numbered { IfErr result (HasFileNumbers (length words.now)) }
{
    let (book, names) = match fetch_book(alloc, shelf, name) {
        Ok(read) => read,
        Err(refusal) => return Err(refusal),
    };
    let wanted = book.processes();
    let given = words.len() as u64;
    if given != u64::from(wanted) {
        return Err(Status::Usage(UsageFault::Files { wanted, given }));
    }
    Ok((book, names))
}

/// What the file of this name holds, which is a process's and of this form.
fn load_file<F: Shelf, P: FileForm>(
    alloc: Global,
    shelf: &mut F,
    book: &Book,
    names: &Names,
    process: u32,
    name: &str,
) -> Result<Vec<P::Item>, Status>
    requires names { AreNamesOf book.now names.now }
    requires process { process < 2 ^ 31 }
    requires of { process < book.now.processes }
    ensures files { SameFiles (F.tells shelf.old) (F.tells shelf.new) (F.file shelf.old)
        (F.file shelf.new) }
    ensures later { F.faults shelf.old ≤ F.faults shelf.new }
    ensures kept { OnOk result (F.faults shelf.new ≡ F.faults shelf.old) }
    ensures ok { F.tells shelf.old ≡ true
        → IfOk result
        (λ items. file_loaded (P.given (named_book book.now names.now))
        (F.file shelf.old) process name.now ≡ Ok items.items) }
    ensures spelled { F.tells shelf.old ≡ true
        → IfOk result
        (λ items. SpellsFile (P.spells (named_book book.now names.now) process)
        (F.file shelf.old) name.now items.items) }
    ensures known { IfOk result
        (λ items. IsSpelled (P.spells (named_book book.now names.now)) items.items) }
    ensures err { IfErr result
        (λ refusal. MayRefuseOf P.kind (F.tells shelf.old)
        (file_loaded (P.given (named_book book.now names.now)) (F.file shelf.old)
        process name.now) (F.faults shelf.old) (F.faults shelf.new) refusal) }
    ensures file { (file : ℕ) → result ≡ Err (Status.ReadFault file) → file ≡ process + 1 }
    ensures numbered { (files : ℕ) → process < files → IfErr result (HasFileNumbers files) }
{
    let bytes = match fetch_file(alloc, shelf, name, process + 1) {
        Ok(bytes) => bytes,
        Err(refusal) => return Err(refusal),
    };
    P::read(alloc, book, names, process, bytes.as_slice())
}

/// What the file of each process holds, from the files of these names, one after another.
fn load_files<F: Shelf, P: FileForm>(
    alloc: Global,
    shelf: &mut F,
    book: &Book,
    names: &Names,
    words: &[String],
) -> Result<Vec<Vec<P::Item>>, Status>
    requires names { AreNamesOf book.now names.now }
    requires few { length words.now < 2 ^ 31 }
    requires enough { length words.now ≡ book.now.processes }
    ensures files { SameFiles (F.tells shelf.old) (F.tells shelf.new) (F.file shelf.old)
        (F.file shelf.new) }
    ensures later { F.faults shelf.old ≤ F.faults shelf.new }
    ensures kept { OnOk result (F.faults shelf.new ≡ F.faults shelf.old) }
    ensures ok { F.tells shelf.old ≡ true
        → IfOk result
        (λ files. files_loaded (P.given (named_book book.now names.now))
        (F.file shelf.old) 0 (words_of words.now) ≡ Ok (contents_of files.items)) }
    ensures count { IfOk result (λ files. length files.items ≡ length words.now) }
    ensures spelled { F.tells shelf.old ≡ true
        → IfOk result
        (λ files. EachSpells (P.spells (named_book book.now names.now))
        (F.file shelf.old) (words_of words.now) (contents_of files.items)) }
    ensures known { IfOk result
        (λ files. All (IsSpelled (P.spells (named_book book.now names.now)))
        (contents_of files.items)) }
    ensures err { IfErr result
        (λ refusal. MayRefuseOf P.kind (F.tells shelf.old)
        (files_loaded (P.given (named_book book.now names.now)) (F.file shelf.old) 0
        (words_of words.now)) (F.faults shelf.old) (F.faults shelf.new) refusal) }
    ensures file { (file : ℕ) → result ≡ Err (Status.ReadFault file)
        → IsFileReached (P.given (named_book book.now names.now))
        (F.tells shelf.old) (F.file shelf.old) (words_of words.now) file }
    ensures numbered { IfErr result (HasFileNumbers (length words.now)) }
{
    let mut files = Vec::new(alloc);
    for (process, name) in words.iter().enumerate() {
        let items = match load_file::<F, P>(
            alloc,
            shelf,
            book,
            names,
            process as u32,
            name.as_str(),
        ) {
            Ok(items) => items,
            Err(refusal) => return Err(refusal),
        };
        let Ok(()) = files.push(items) else {
            return Err(Status::NoMemory);
        };
    }
    Ok(files)
}

/// What the book and the files of these names hold, or the first refusal: the book's, that of the number of files, or
/// that of each file in turn. Each file is read before the next is fetched.
pub fn load_all<F: Shelf, P: FileForm>(
    alloc: Global,
    shelf: &mut F,
    name: &str,
    words: &[String],
) -> Result<Loaded<P::Item>, Status>
    ensures files { SameFiles (F.tells shelf.old) (F.tells shelf.new) (F.file shelf.old)
        (F.file shelf.new) }
    ensures later { F.faults shelf.old ≤ F.faults shelf.new }
    ensures kept { OnOk result (F.faults shelf.new ≡ F.faults shelf.old) }
    ensures ok { F.tells shelf.old ≡ true
        → IfOk result
        (λ l. all_loaded P.given (F.file shelf.old) name.now (words_of words.now) ≡ Ok
        (loaded_shown l)) }
    ensures spelled { F.tells shelf.old ≡ true
        → IfOk result
        (λ l. SpelledOf P.spells (F.file shelf.old) name.now (words_of words.now)
        (loaded_shown l)) }
    ensures book { IfOk result (λ l. IsBook l.book) }
    ensures names { IfOk result (λ l. AreNamesOf l.book l.names) }
    ensures known { IfOk result
        (λ l. All (IsSpelled (P.spells (named_book l.book l.names)))
        (contents_of l.files.items)) }
    ensures count { IfOk result (λ l. length l.files.items ≡ l.book.processes) }
    ensures given { IfOk result (λ l. length words.now ≡ l.book.processes) }
    ensures err { IfErr result
        (λ refusal. MayRefuseOf P.kind (F.tells shelf.old)
        (all_loaded P.given (F.file shelf.old) name.now (words_of words.now)) (F.faults shelf.old)
        (F.faults shelf.new) refusal) }
    ensures reached { (file : ℕ) → result ≡ Err (Status.ReadFault file)
        → MayReachOf P.given (F.tells shelf.old) (F.file shelf.old) name.now (words_of words.now)
        file }
    ensures numbered { IfErr result (HasFileNumbers (length words.now)) }
{
    let (book, names) = match load_book_for::<F, P>(alloc, shelf, name, words) {
        Ok(read) => read,
        Err(refusal) => return Err(refusal),
    };
    book.known();
    match load_files::<F, P>(alloc, shelf, &book, &names, words) {
        Ok(files) => Ok(Loaded { book, names, files }),
        Err(refusal) => Err(refusal),
    }
}

/// The first half of reading a form of payments: the book that it names, with its names, or the first refusal. Each of its processes has a payment
/// file. Whoever has something to do with the book may do it while `load_payments` reads the rest.
pub fn load_book<F: Shelf>(
    alloc: Global,
    shelf: &mut F,
    form: &Form<'_>,
) -> Result<(Book, Names), Status>
    ensures files { SameFiles (F.tells shelf.old) (F.tells shelf.new) (F.file shelf.old)
        (F.file shelf.new) }
    ensures later { F.faults shelf.old ≤ F.faults shelf.new }
    ensures kept { OnOk result (F.faults shelf.new ≡ F.faults shelf.old) }
    ensures read { IfOk result
        (λ l. IsBookRead (F.tells shelf.old) (F.file shelf.old) form.now.book.now
        (words_of form.now.files.now) (named_book l.0 l.1)) }
    ensures err { IfErr result
        (λ refusal. MayRefuse (F.tells shelf.old) (loaded (F.file shelf.old) (form_shown form.now))
        (F.faults shelf.old) (F.faults shelf.new) refusal) }
    ensures reached { (file : ℕ) → result ≡ Err (Status.ReadFault file)
        → MayReach (F.tells shelf.old) (F.file shelf.old) (form_shown form.now) file }
    ensures numbered { IfErr result (HasFileNumbers (length form.now.files.now)) }
{
    load_book_for::<F, Payments>(alloc, shelf, form.book, form.files)
}

/// The second half: the calls that the payment files spell beside the book that `load_book` gave, or the first refusal.
pub fn load_payments<F: Shelf>(
    alloc: Global,
    book: &Book,
    names: &Names,
    form: &Form<'_>,
    shelf: &mut F,
) -> Result<Vec<Vec<Call>>, Status>
    requires { IsBookRead (F.tells shelf.old) (F.file shelf.old) form.now.book.now
        (words_of form.now.files.now) (named_book book.now names.now) }
    ensures files { SameFiles (F.tells shelf.old) (F.tells shelf.new) (F.file shelf.old)
        (F.file shelf.new) }
    ensures later { F.faults shelf.old ≤ F.faults shelf.new }
    ensures kept { OnOk result (F.faults shelf.new ≡ F.faults shelf.old) }
    ensures ok { F.tells shelf.old ≡ true
        → IfOk result (λ files. loaded (F.file shelf.old) (form_shown form.now) ≡ Ok
        (loaded_beside (named_book book.now names.now) (contents_of files.items))) }
    ensures spelled { F.tells shelf.old ≡ true
        → IfOk result (λ files. Spelled (F.file shelf.old) (form_shown form.now)
        (loaded_beside (named_book book.now names.now) (contents_of files.items))) }
    ensures known { IfOk result
        (λ files. All (IsSpelled (PaysBytes (named_book book.now names.now)))
        (contents_of files.items)) }
    ensures count { IfOk result (λ files. length files.items ≡ book.now.processes) }
    ensures err { IfErr result
        (λ refusal. MayRefuse (F.tells shelf.old) (loaded (F.file shelf.old) (form_shown form.now))
        (F.faults shelf.old) (F.faults shelf.new) refusal) }
    ensures reached { (file : ℕ) → result ≡ Err (Status.ReadFault file)
        → MayReach (F.tells shelf.old) (F.file shelf.old) (form_shown form.now) file }
    ensures numbered { IfErr result (HasFileNumbers (length form.now.files.now)) }
{
    book.known();
    match load_files::<F, Payments>(alloc, shelf, book, names, form.files) {
        Ok(files) => Ok(files),
        Err(refusal) => Err(refusal),
    }
}
