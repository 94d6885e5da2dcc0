//! The words of the commands.

/// What the words have to be.
pub(crate) const USAGE: &str =
    "usage: run BOOK PAY... | check BOOK PAY... | kinds BOOK PAY... | needs BOOK PAY... | orders BOOK PAY... | costs BOOK PAY... | ledger BOOK PAY... | make NUMBER PROCESSES CALLS | replay BOOK SCHEDULE PAY... | trace BOOK SCHEDULE PAY... | show BOOK SCHEDULE PAY... | verify BOOK REPORT PAY... | agree VALUE... | deliver BOOK ORDER MSG...";

/// A command that reads a book and the files of the processes.
#[derive(Clone, Copy, Debug, PartialEq, Eq)]
pub enum FormCommand {
    /// Make the calls of the payment files, and print the report.
    Run,
    /// Read the files, and print how many calls they have.
    Check,
    /// Print which payments need agreement, and of whom. Nothing is run.
    Kinds,
    /// Print what the owners of each account ask of it, beside what it opens with. Nothing is run.
    Needs,
    /// Print the replies that each call has in some order of all calls. Nothing is run.
    Orders,
    /// Make the calls, and print what each of them cost, beside the most that it may cost.
    Costs,
    /// Make the calls, and print the journal for hledger and ledger-cli.
    Ledger,
}

/// A command that reads one further file after a book and the files of the processes.
#[derive(Clone, Copy, Debug, PartialEq, Eq)]
pub enum FurtherCommand {
    /// Make the calls by the turns of a schedule, and print the report.
    Replay,
    /// Make them so, and print what each turn did.
    Trace,
    /// Make them so, and print the run as one page.
    Show,
    /// Say whether a report is that of a legal run of the payment files.
    Verify,
    /// Give messages to nodes by a file of deliveries, and print what each of them has validated.
    Deliver,
}

/// The files of a command: the book's, and those of the processes in their order.
#[derive(Clone, Copy)]
pub struct Form<'a> {
    pub book: &'a str,
    pub files: &'a [String],
}

/// The same, and one further file, which is read after them.
#[derive(Clone, Copy)]
pub struct FurtherForm<'a> {
    pub book: &'a str,
    pub further: &'a str,
    pub files: &'a [String],
}
