//! The fields of a call in a CSV record.

ghost use Rattle.std.specs.Prelude.{◌≡◌, ◌++◌, OnOk, length};
ghost use Rattle.at_tables.specs.Prelude.{IsCallOn, comma_led};
ghost use Rattle.at_tables.specs.CallFields.{call_fields, call_word, kind_word};

use crate::kind::{Kind, kind_of};
use at_files::Names;
use at_ledger::{Book, Call};
use at_report::push_field;
use std::alloc::AllocError;

/// What is called.
pub fn call_word(call: &Call) -> &'static [u8]
    ensures { result.now ≡ call_word call.now }
{
    match call {
        Call::Transfer { .. } => b"transfer",
        Call::Read { .. } => b"read",
        Call::Pay { .. } => b"pay",
    }
}

/// The word of a kind.
pub fn kind_word(kind: Kind) -> &'static [u8]
    ensures { result.now ≡ kind_word kind }
{
    match kind {
        Kind::Read => b"read",
        Kind::Refused => b"refused",
        Kind::Alone => b"alone",
        Kind::Agreed => b"agreed",
    }
}

/// Adds what the process calls, the account that it names first, and the kind of the call, each after a comma.
pub fn push_call_fields(
    out: &mut Vec<u8>,
    book: &Book,
    names: &Names,
    process: u32,
    call: &Call,
) -> Result<(), AllocError>
    requires accounts { length names.now.accounts ≡ length book.now.accounts }
    requires call { IsCallOn (length book.now.accounts) call.now }
    ensures { OnOk result (out.new.items ≡ out.old.items
        ++ comma_led (call_fields book.now names.now process call.now)) }
{
    push_field(out, call_word(call))?;
    push_field(out, names.account(call.first_account()))?;
    push_field(out, kind_word(kind_of(book, process, call)))
}
