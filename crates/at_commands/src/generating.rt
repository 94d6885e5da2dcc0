//! The book and the calls that a number gives.

ghost use Rattle.std.specs.Prelude.{◌≡◌, ◌+◌, ◌*◌, ◌<◌, ◌≤◌, None, length, All, IfOk, OnOk};
ghost use Rattle.at_commands.specs.Prelude.{IsPlayable, contents_of, range_with_len, IsBook, account_fault, terms_with, with_account};
ghost use Rattle.at_commands.specs.Limits.{MayMake, most_made_processes};
ghost use Rattle.at_commands.specs.Generator.{book_of_own_accounts, book_made, call_drawn, calls_drawn, drawn, files_made, next_state, state_after_call, state_after_calls};
ghost use Rattle.at_commands.specs.Made.{AllDone, AllSum, made};

use at_ledger::{Book, BookBuilder, BookFault, Call};
use std::alloc::{AllocError, Global};

const MULTIPLIER: u64 = 6_364_136_223_846_793_005;

const INCREMENT: u64 = 1_442_695_040_888_963_407;

/// A book, and the calls of each process.
#[derive(Drop)]
pub struct Made {
    pub book: Book,
    pub files: Vec<Vec<Call>>,
}

/// Numbers drawn one after another.
#[derive(Drop)]
struct Draws {
    state: u64,
}

impl Draws {
    /// The next number, below 2^31.
    fn draw(&mut self) -> u64
        ensures number { result ≡ drawn self.new.state }
        ensures state { self.new.state ≡ next_state self.old.state }
    {
        let product = self.state.wrapping_mul(MULTIPLIER);
        self.state = product.wrapping_add(INCREMENT);
        self.state >> 33
    }

    /// The next call of the process.
    fn call(&mut self, processes: u32, process: u32) -> Call
        requires { processes ≤ most_made_processes }
        ensures call { result ≡ call_drawn processes process self.old.state }
        ensures state { self.new.state ≡ state_after_call self.old.state }
    {
        let kind = self.draw() % 4;
        let account = (self.draw() % u64::from(processes + 1)) as u32;
        if kind == 0 {
            return Call::Read { account };
        }
        Call::Transfer {
            from: if kind == 1 { processes } else { process },
            to: account,
            amount: 1 + self.draw() % 100,
        }
    }

    /// The calls of the process.
    fn calls(
        &mut self,
        alloc: Global,
        processes: u32,
        process: u32,
        calls: u32,
    ) -> Result<Vec<Call>, AllocError>
        requires { processes ≤ most_made_processes }
        ensures calls { IfOk result
            (λ file. file.items ≡ calls_drawn processes process calls self.old.state) }
        ensures state { OnOk result (self.new.state ≡ state_after_calls self.old.state calls) }
    {
        let mut file = Vec::new(alloc);
        for _ in 0..calls {
            file.push(self.call(processes, process))?;
        }
        Ok(file)
    }
}

/// Adds an account without a fault.
fn add_account(builder: &mut BookBuilder, opening: u64, owners: &[u64]) -> Result<(), AllocError>
    requires { account_fault builder.old (terms_with opening owners.now) ≡ None }
    ensures { OnOk result (builder.new ≡ with_account builder.old (terms_with opening owners.now)) }
{
    match builder.add(opening, owners) {
        Ok(()) => Ok(()),
        Err(BookFault::NoMemory) => Err(AllocError),
        // The caller's account has no fault.
        Err(BookFault::Bad(_)) => unreachable!(),
    }
}

/// An account for each process alone, with room for all calls.
fn own_accounts(alloc: Global, processes: u32, calls: u32) -> Result<BookBuilder, AllocError>
    requires { MayMake processes calls }
    ensures { IfOk result (λ b. b ≡ book_of_own_accounts processes calls processes) }
{
    let room = u64::from(calls);
    let Ok(mut builder) = BookBuilder::new(alloc, u64::from(processes), room, room) else {
        // The numbers of `make` are within a book's limits.
        unreachable!()
    };
    for process in 0..processes {
        add_account(&mut builder, 100 * room, &[u64::from(process)])?;
    }
    Ok(builder)
}

/// All processes, from the lowest up.
fn all_processes(alloc: Global, processes: u32) -> Result<Vec<u64>, AllocError>
    ensures { IfOk result (λ owners. owners.items ≡ range_with_len 0 processes) }
{
    let mut owners = Vec::new(alloc);
    for process in 0..processes {
        owners.push(u64::from(process))?;
    }
    Ok(owners)
}

/// The book: an account for each process alone, and one of all of them.
fn make_book(alloc: Global, processes: u32, calls: u32) -> Result<Book, AllocError>
    requires { MayMake processes calls }
    ensures book { IfOk result (λ b. b ≡ book_made processes calls) }
    ensures checked { IfOk result IsBook }
{
    let mut builder = own_accounts(alloc, processes, calls)?;
    let owners = all_processes(alloc, processes)?;
    let opening = 100 * u64::from(calls) * u64::from(processes);
    add_account(&mut builder, opening, owners.as_slice())?;
    let Ok(book) = builder.finish() else {
        // It has processes and accounts.
        unreachable!()
    };
    Ok(book)
}

/// The calls of each process, those of process 0 first.
fn draw_files(
    alloc: Global,
    first: u64,
    processes: u32,
    calls: u32,
) -> Result<Vec<Vec<Call>>, AllocError>
    requires { processes ≤ most_made_processes }
    ensures { IfOk result (λ files. contents_of files.items ≡ files_made first processes calls) }
{
    let mut draws = Draws { state: first };
    let mut files = Vec::new(alloc);
    for process in 0..processes {
        let file = draws.calls(alloc, processes, process, calls)?;
        files.push(file)?;
    }
    Ok(files)
}

/// The book and the files that a number gives. Whatever the order in which the calls of the files are made, all
/// transfers succeed, and the summary is the same. The work and the memory grow with the calls.
pub fn generate(alloc: Global, first: u64, processes: u32, calls: u32) -> Result<Made, AllocError>
    requires { MayMake processes calls }
    ensures book { IfOk result (λ m. m.book ≡ book_made processes calls) }
    ensures files { IfOk result (λ m. contents_of m.files.items ≡ files_made first processes calls) }
    ensures count { IfOk result (λ m. length m.files.items ≡ m.book.processes) }
    ensures known { IfOk result
        (λ m. All (IsPlayable (length m.book.accounts)) (contents_of m.files.items)) }
    ensures all_done { IfOk result (λ m. AllDone m.book (contents_of m.files.items)) }
    ensures all_sum { IfOk result
        (λ m. AllSum m.book (contents_of m.files.items) first calls (made first processes calls)) }
{
    let book = make_book(alloc, processes, calls)?;
    let files = draw_files(alloc, first, processes, calls)?;
    Ok(Made { book, files })
}
