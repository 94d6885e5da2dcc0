//! Snapshots: what a node keeps, as bytes.

ghost use Rattle.std.specs.Prelude.{◌≡◌, ◌++◌, ◌<◌, ◌^◌, All, OnOk, length};
ghost use Rattle.std.specs.Int.{w64, to_be_bytes};
ghost use Rattle.at_logs.specs.Prelude.{flat_map};
ghost use Rattle.at_logs.specs.Snapshot.{HasCreditBytes, HasKeptMessageBytes, HasTailBytes, amounts_bytes, credit_bytes, kept_message_bytes, many_bytes, tail_bytes};

use crate::credits::Credit;
use crate::spelling::{put_counts, put_raw, put_targets};
use crate::tail::Tail;
use at_broadcast::Message;
use std::alloc::AllocError;
use std::collections::VecDeque;

/// The first byte of a snapshot, the version of the form.
pub const SNAPSHOT_VERSION: u8 = 1;

pub(crate) fn put_amounts(out: &mut Vec<u8>, amounts: &[u64]) -> Result<(), AllocError>
    ensures spelled { OnOk result (out.new.items ≡ out.old.items ++ amounts_bytes amounts.now) }
    ensures fits { OnOk result (All (λ n. n < 2 ^ 64) amounts.now) }
{
    for amount in amounts {
        out.extend_from_slice(&amount.to_be_bytes())?;
    }
    Ok(())
}

fn put_length(out: &mut Vec<u8>, length: usize) -> Result<(), AllocError>
    ensures spelled { OnOk result (out.new.items ≡ out.old.items ++ to_be_bytes w64 length) }
    ensures fits { OnOk result (length < 2 ^ 64) }
{
    out.extend_from_slice(&(length as u64).to_be_bytes())?;
    Ok(())
}

fn put_message(out: &mut Vec<u8>, message: &Message) -> Result<(), AllocError>
    ensures spelled { OnOk result (out.new.items ≡ out.old.items ++ kept_message_bytes message.now) }
    ensures fits { OnOk result (HasKeptMessageBytes message.now) }
{
    out.extend_from_slice(&message.from.to_be_bytes())?;
    put_targets(out, &message.targets)?;
    put_raw(out, &message.reference)?;
    put_counts(out, &message.deps)
}

pub(crate) fn put_messages(
    out: &mut Vec<u8>,
    messages: &VecDeque<Message>,
) -> Result<(), AllocError>
    ensures spelled { OnOk result (out.new.items ≡ out.old.items ++ many_bytes kept_message_bytes messages.now.items) }
    ensures few { OnOk result (length messages.now.items < 2 ^ 64) }
    ensures fits { OnOk result (All HasKeptMessageBytes messages.now.items) }
{
    put_length(out, messages.len())?;
    for i in 0..messages.len() {
        put_message(out, &messages[i])?;
    }
    Ok(())
}

fn put_credit(out: &mut Vec<u8>, credit: &Credit) -> Result<(), AllocError>
    ensures spelled { OnOk result (out.new.items ≡ out.old.items ++ credit_bytes credit.now) }
    ensures fits { OnOk result (HasCreditBytes credit.now) }
{
    out.extend_from_slice(&credit.account.to_be_bytes())?;
    out.extend_from_slice(&credit.log.to_be_bytes())?;
    out.extend_from_slice(&credit.number.to_be_bytes())?;
    out.extend_from_slice(&credit.amount.to_be_bytes())?;
    Ok(())
}

pub(crate) fn put_credits(out: &mut Vec<u8>, credits: &[Credit]) -> Result<(), AllocError>
    ensures spelled { OnOk result (out.new.items ≡ out.old.items ++ many_bytes credit_bytes credits.now) }
    ensures few { OnOk result (length credits.now < 2 ^ 64) }
    ensures fits { OnOk result (All HasCreditBytes credits.now) }
{
    put_length(out, credits.len())?;
    for credit in credits {
        put_credit(out, credit)?;
    }
    Ok(())
}

fn put_tail(out: &mut Vec<u8>, tail: &Tail) -> Result<(), AllocError>
    ensures spelled { OnOk result (out.new.items ≡ out.old.items ++ tail_bytes tail.now) }
    ensures fits { OnOk result (HasTailBytes tail.now) }
{
    out.extend_from_slice(&tail.entries.to_be_bytes())?;
    out.extend_from_slice(&tail.messages.to_be_bytes())?;
    put_counts(out, &tail.deps)?;
    put_raw(out, &tail.hash)
}

pub(crate) fn put_tails(out: &mut Vec<u8>, tails: &[Tail]) -> Result<(), AllocError>
    ensures spelled { OnOk result (out.new.items ≡ out.old.items ++ flat_map tail_bytes tails.now) }
    ensures fits { OnOk result (All HasTailBytes tails.now) }
{
    for tail in tails {
        put_tail(out, tail)?;
    }
    Ok(())
}
