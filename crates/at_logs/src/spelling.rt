//! Entries as bytes.

ghost use Rattle.std.specs.Prelude.{◌≡◌, ◌+◌, ◌<◌, ◌≤◌, ◌^◌, ◌++◌, All, length, IfOk, OnOk};
ghost use Rattle.std.specs.Int.{w32, to_be_bytes};
ghost use Rattle.at_logs.specs.Prelude.{flat_map, most_targets, sha256};
ghost use Rattle.at_logs.specs.Entry.{AreBytes, HasBytes, HasMessageBytes, entry_bytes, listed_bytes, message_bytes, most_entry_bytes, most_in_entry, target_bytes};

use crate::entry::{Entry, EntryMessage};
use at_broadcast::LogCounts;
use at_ledger::Targets;
use sha2::{Digest, Sha256};
use std::alloc::{AllocError, Global};

/// The first byte of an entry, the version of the form.
pub const ENTRY_VERSION: u8 = 1;

/// The one form of an entry as bytes.
pub fn entry_bytes(alloc: Global, entry: &Entry) -> Result<Vec<u8>, AllocError>
    ensures spelled { IfOk result (λ bytes. bytes.items ≡ entry_bytes entry.now) }
    ensures small { IfOk result (λ bytes. length bytes.items ≤ most_entry_bytes) }
    ensures fits { IfOk result (λ bytes. HasBytes entry.now) }
{
    let mut out = Vec::new(alloc);
    out.push(ENTRY_VERSION)?;
    out.extend_from_slice(&entry.writer().to_be_bytes())?;
    put_counts(&mut out, entry.deps())?;
    put_raw(&mut out, &entry.book())?;
    put_raw(&mut out, &entry.before())?;
    put_messages(&mut out, entry.messages())?;
    Ok(out)
}

/// The SHA-256 of bytes.
pub fn hash_of(bytes: &[u8]) -> [u8; 32]
    ensures { result ≡ sha256 bytes.now }
{
    Sha256::digest(bytes)
}

pub(crate) fn put_counts(out: &mut Vec<u8>, counts: &LogCounts) -> Result<(), AllocError>
    ensures spelled { OnOk result (out.new.items ≡ out.old.items ++ flat_map (to_be_bytes w32) counts.now) }
    ensures small { OnOk result (length out.new.items ≤ length out.old.items + 256) }
    ensures fits { OnOk result (All (λ n. n < 2 ^ 32) counts.now) }
{
    for log in 0..counts.len() {
        out.extend_from_slice(&counts.get(log).to_be_bytes())?;
    }
    Ok(())
}

pub(crate) fn put_targets(out: &mut Vec<u8>, targets: &Targets) -> Result<(), AllocError>
    ensures spelled { OnOk result (out.new.items ≡ out.old.items ++ listed_bytes target_bytes targets.now) }
    ensures small { OnOk result (length out.new.items ≤ length out.old.items + 49) }
    ensures some { OnOk result (1 ≤ length targets.now) }
    ensures few { OnOk result (length targets.now ≤ most_targets) }
    ensures fits { OnOk result (All (λ t. t.1 < 2 ^ 64) targets.now) }
{
    out.push(targets.len() as u8)?;
    for i in 0..targets.len() {
        put_target(out, targets.to(i), targets.amount(i))?;
    }
    Ok(())
}

fn put_target(out: &mut Vec<u8>, to: u32, amount: u64) -> Result<(), AllocError>
    ensures { OnOk result (out.new.items ≡ out.old.items ++ target_bytes (to, amount)) }
{
    out.extend_from_slice(&to.to_be_bytes())?;
    out.extend_from_slice(&amount.to_be_bytes())?;
    Ok(())
}

fn put_message(out: &mut Vec<u8>, message: &EntryMessage) -> Result<(), AllocError>
    ensures spelled { OnOk result (out.new.items ≡ out.old.items ++ message_bytes message.now) }
    ensures small { OnOk result (length out.new.items ≤ length out.old.items + 69) }
    ensures fits { OnOk result (HasMessageBytes message.now) }
{
    out.extend_from_slice(&message.from.to_be_bytes())?;
    put_targets(out, &message.targets)?;
    put_raw(out, &message.reference)
}

pub(crate) fn put_raw<const N: usize>(out: &mut Vec<u8>, raw: &[u8; N]) -> Result<(), AllocError>
    ensures spelled { OnOk result (out.new.items ≡ out.old.items ++ raw.now) }
    ensures fits { OnOk result (AreBytes N raw.now) }
{
    out.extend_from_slice(raw)?;
    Ok(())
}

fn put_messages(out: &mut Vec<u8>, messages: &[EntryMessage]) -> Result<(), AllocError>
    requires { length messages.now ≤ most_in_entry }
    ensures spelled { OnOk result (out.new.items ≡ out.old.items ++ listed_bytes message_bytes messages.now) }
    ensures small { OnOk result (length out.new.items ≤ length out.old.items + 4417) }
    ensures fits { OnOk result (All HasMessageBytes messages.now) }
{
    out.push(messages.len() as u8)?;
    for message in messages {
        put_message(out, message)?;
    }
    Ok(())
}
