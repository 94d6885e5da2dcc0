//! The kind of a call.

ghost use Rattle.std.specs.Prelude.{◌≡◌, ◌<◌, length};
ghost use Rattle.at_tables.specs.Prelude.{account_of, IsCallOn};
ghost use Rattle.at_tables.specs.Kinds.{kind_of, payment_kind};

use at_ledger::{Book, Call};

/// What a call needs, by its process and the owners of its account alone.
#[derive(Clone, Copy, Debug, PartialEq, Eq)]
pub enum Kind {
    /// It is a read.
    Read,
    /// A payment by a process that doesn't own the source.
    Refused,
    /// A payment by the one owner of the source.
    Alone,
    /// A payment by one of two or more owners of the source.
    Agreed,
}

/// The kind of a payment from the account.
fn payment_kind(book: &Book, process: u32, source: u32) -> Kind
    requires { source < length book.now.accounts }
    ensures { result ≡ payment_kind (account_of book.now source) process }
{
    if book.slot_of(source, process).is_none() {
        return Kind::Refused;
    }
    if 2 <= book.owner_count(source) {
        Kind::Agreed
    } else {
        Kind::Alone
    }
}

/// The kind of a call of the process.
pub fn kind_of(book: &Book, process: u32, call: &Call) -> Kind
    requires { IsCallOn (length book.now.accounts) call.now }
    ensures { result ≡ kind_of book.now process call.now }
{
    match call {
        Call::Read { .. } => Kind::Read,
        Call::Transfer { .. } | Call::Pay { .. } => {
            payment_kind(book, process, call.first_account())
        }
    }
}
