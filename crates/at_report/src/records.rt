//! Records of printed CSV texts, field by field.

ghost use Rattle.std.specs.Prelude.{◌≡◌, [], ◌∷◌, ◌++◌, decimal, OnOk};
ghost use Rattle.at_report.specs.Lines.{reply_word};
ghost use Rattle.at_report.specs.Records.{comma_led};

use crate::lines::push_reply_word;
use at_ledger::Reply;
use std::alloc::AllocError;

/// Adds a field that follows another in its record.
pub fn push_field(out: &mut Vec<u8>, field: &[u8]) -> Result<(), AllocError>
    ensures { OnOk result (out.new.items ≡ out.old.items ++ comma_led (field.now ∷ [])) }
{
    out.push(b',')?;
    out.extend_from_slice(field)
}

/// Adds a number that follows a field in its record.
pub fn push_number_field(out: &mut Vec<u8>, n: u64) -> Result<(), AllocError>
    ensures { OnOk result (out.new.items ≡ out.old.items ++ comma_led (decimal n ∷ [])) }
{
    out.push(b',')?;
    at_base::push_number(out, n)
}

/// Adds the word of a reply that follows a field in its record.
pub fn push_reply_field(out: &mut Vec<u8>, reply: Reply) -> Result<(), AllocError>
    ensures { OnOk result (out.new.items ≡ out.old.items ++ comma_led (reply_word reply ∷ [])) }
{
    out.push(b',')?;
    push_reply_word(out, reply)
}
