//! A posting to an account of the book.

ghost use Rattle.std.specs.Prelude.{◌≡◌, ◌<◌, ◌++◌, length, codes, OnOk};
ghost use Rattle.at_tables.specs.Entries.{Posts};
ghost use Rattle.at_tables.specs.LedgerText.{amount_text, asserted_text, declaration_text, posting_text};

use at_files::Names;
use std::alloc::AllocError;

/// An amount with its sign: what an account gets, or what it gives up.
#[derive(Clone, Copy)]
pub(crate) enum Amount {
    Plus(u128),
    Minus(u128),
}

/// Adds an amount.
fn push_amount(out: &mut Vec<u8>, amount: Amount) -> Result<(), AllocError>
    ensures { OnOk result (out.new.items ≡ out.old.items ++ amount_text amount) }
{
    match amount {
        Amount::Plus(n) => out.extend_from_slice(itoa::Buffer::new().format(n).as_bytes()),
        Amount::Minus(n) => {
            out.push(b'-')?;
            out.extend_from_slice(itoa::Buffer::new().format(n).as_bytes())
        }
    }
}

/// Adds the balance that is asserted, if one is.
fn push_asserted(out: &mut Vec<u8>, asserted: Option<u64>) -> Result<(), AllocError>
    ensures { OnOk result (out.new.items ≡ out.old.items ++ asserted_text asserted) }
{
    match asserted {
        None => Ok(()),
        Some(balance) => {
            out.extend_from_slice(b" = ")?;
            out.extend_from_slice(itoa::Buffer::new().format(balance).as_bytes())
        }
    }
}

/// Adds a posting.
pub(crate) fn push_posting(
    out: &mut Vec<u8>,
    names: &Names,
    account: u32,
    amount: Amount,
    asserted: Option<u64>,
) -> Result<(), AllocError>
    requires { account < length names.now.accounts }
    ensures { OnOk result
        (out.new.items ≡ out.old.items ++ posting_text names.now (Posts account amount asserted)) }
{
    out.extend_from_slice(b"    account:")?;
    out.extend_from_slice(names.account(account))?;
    out.extend_from_slice(b"  ")?;
    push_amount(out, amount)?;
    push_asserted(out, asserted)?;
    out.push(b'\n')?;
    Ok(())
}

/// Adds the declaration of an account.
pub(crate) fn push_declaration(
    out: &mut Vec<u8>,
    names: &Names,
    account: u32,
) -> Result<(), AllocError>
    requires { account < length names.now.accounts }
    ensures { OnOk result
        (out.new.items ≡ out.old.items ++ declaration_text names.now account) }
{
    out.extend_from_slice(b"account account:")?;
    out.extend_from_slice(names.account(account))?;
    out.push(b'\n')?;
    Ok(())
}
