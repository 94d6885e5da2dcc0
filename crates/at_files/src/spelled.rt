//! Files of which each record spells one thing.

ghost use Rattle.std.specs.Prelude.{◌≡◌, ◌+◌, ◌^◌, ◌<◌, ◌≤◌, Result, Err, Ok, IfOk, OnOk, []};
ghost use Rattle.at_files.specs.Records.{Fields, file_records};
ghost use Rattle.at_files.specs.Spelled.{items_from, items_of, next_and_rest, with_item};

use crate::record::Record;
use crate::records::Records;
use std::alloc::Global;
use std::fmt::{Debug, Display};
use thiserror::Error;

/// A file's first fault. A line is the number of a record, from 1.
#[derive(Clone, Copy, Debug, PartialEq, Eq, Drop, Error)]
#[error_bound(W: Debug + Display)]
#[error("line {line}: {why}")]
pub struct BadRecord<W> {
    pub line: u32,
    pub why: W,
}

/// Why nothing came of a file.
#[derive(Clone, Copy, Debug, PartialEq, Eq, Drop, Error)]
#[error_bound(W: Debug + Display)]
pub enum ReadFault<W> {
    #[error(transparent)]
    Bad(BadRecord<W>),
    #[error("no memory")]
    NoMemory,
}

/// What a record has to be, to spell an item.
pub(crate) trait RecordForm {
    type Item: Drop;

    type Why: Copy;

    // what a record spells, or the cause of its fault
    ghost item: { Self → Fields → Result Self.Item Self.Why };

    /// What the record spells.
    fn item_of(&self, fields: &Record<'_>) -> Result<Self::Item, Self::Why>
        ensures { result ≡ item self.now fields.now };
}

/// Adds what the record of a line spells to the items.
fn add_item<F: RecordForm>(
    form: &F,
    line: u32,
    fields: &Record<'_>,
    items: &mut Vec<F::Item>,
) -> Result<(), ReadFault<F::Why>>
    ensures ok { OnOk result
        (with_item line items.old.items (F.item form.now fields.now)
        ≡ Ok items.new.items) }
    ensures bad { (b : BadRecord F.Why) → result ≡ Err (ReadFault.Bad b)
        → with_item line items.old.items (F.item form.now fields.now) ≡ Err b }
{
    let item = match form.item_of(fields) {
        Ok(item) => item,
        Err(why) => return Err(ReadFault::Bad(BadRecord { line, why })),
    };
    if items.push(item).is_err() {
        return Err(ReadFault::NoMemory);
    }
    Ok(())
}

/// Reads the records from the line `first` up to the line `last` into the items, of which there are none yet. The first of them, if it was
/// `found`, stands in `fields` already.
///
/// It holds only references: what is owned stands in its caller.
pub(crate) fn read_into<'a, F: RecordForm>(
    form: &F,
    first: u32,
    last: u32,
    over: F::Why,
    found: bool,
    records: &mut Records<'a>,
    fields: &mut Record<'a>,
    items: &mut Vec<F::Item>,
) -> Result<(), ReadFault<F::Why>>
    requires first { first ≤ last }
    requires last { last + 1 < 2 ^ 32 }
    requires none { items.old.items ≡ [] }
    ensures ok { OnOk result
        (items_from (F.item form.now) last over first (next_and_rest found fields.old records.old)
        ≡ Ok items.new.items) }
    ensures bad { (b : BadRecord F.Why) → result ≡ Err (ReadFault.Bad b)
        → items_from (F.item form.now) last over first
        (next_and_rest found fields.old records.old) ≡ Err b }
{
    let mut left = found;
    for line in first..last + 1 {
        if !left {
            return Ok(());
        }
        if let Err(fault) = add_item(form, line, fields, items) {
            return Err(fault);
        }
        let Ok(next) = records.next(fields) else {
            return Err(ReadFault::NoMemory);
        };
        left = next;
    }
    if left {
        return Err(ReadFault::Bad(BadRecord {
            line: last + 1,
            why: over,
        }));
    }
    Ok(())
}

/// How many records a file can have, of which at most `most` are read: each takes a byte, and a newline but for the last.
///
/// Room that no record comes to lie in costs nothing, since no byte of it is touched.
pub(crate) fn room_for(most: u32, bytes: &[u8]) -> usize {
    (most as usize).min(bytes.len() / 2 + 1)
}

/// Reads a file of at most `most` records; the fault of the record after these is `over`.
///
/// Fields are looked at where they lie; beside the items only one record is held at a time.
pub(crate) fn read_items<F: RecordForm>(
    alloc: Global,
    form: &F,
    most: u32,
    over: F::Why,
    bytes: &[u8],
) -> Result<Vec<F::Item>, ReadFault<F::Why>>
    requires some { 1 ≤ most }
    requires most { most + 1 < 2 ^ 32 }
    ensures ok { IfOk result
        (λ items. items_of (F.item form.now) most over (file_records bytes.now) ≡ Ok items.items) }
    ensures bad { (b : BadRecord F.Why) → result ≡ Err (ReadFault.Bad b)
        → items_of (F.item form.now) most over (file_records bytes.now) ≡ Err b }
{
    let Ok(mut items) = Vec::with_capacity(alloc, room_for(most, bytes)) else {
        return Err(ReadFault::NoMemory);
    };
    let mut records = Records::new(alloc, bytes);
    let mut fields = Record::new(alloc);
    let Ok(found) = records.next(&mut fields) else {
        return Err(ReadFault::NoMemory);
    };
    match read_into(
        form,
        1,
        most,
        over,
        found,
        &mut records,
        &mut fields,
        &mut items,
    ) {
        Ok(()) => Ok(items),
        Err(fault) => Err(fault),
    }
}
