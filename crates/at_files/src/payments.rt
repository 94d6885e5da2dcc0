//! The payments of one process.

ghost use Rattle.std.specs.Prelude.{◌≡◌, ◌<◌, [], List, length, Ok, Err, IfErr, IfOk};
ghost use Rattle.at_files.specs.Names.{AreNamesOf};
ghost use Rattle.at_files.specs.Records.{file_records};
ghost use Rattle.at_files.specs.Spelled.{next_and_rest};
ghost use Rattle.at_files.specs.Payments.{BeginsBehind, NamesAnother, call_of, before_calls, names_process, payments_fault, payments_of, Pays};

use crate::calls::call_of;
use crate::fields::{field_of, has_shape, is_word};
use crate::names::Names;
use crate::payments_fault::{BadPayments, CALLS_MAX, PaymentsWhy, ReadPaymentsFault};
use crate::record::Record;
use crate::records::Records;
use crate::spelled::{BadRecord, ReadFault, RecordForm, read_into, room_for};
use at_ledger::{Book, Call};
use std::alloc::Global;

/// What a record of a payment file has to be, beside the names of a book.
#[derive(Drop)]
struct CallForm<'a> {
    names: &'a Names,
}

impl<'a> RecordForm for CallForm<'a> {
    type Item = Call;

    type Why = PaymentsWhy;

    ghost item = { λ form. call_of form.names.now };

    fn item_of(&self, fields: &Record<'_>) -> Result<Call, PaymentsWhy> {
        call_of(self.names, fields)
    }
}

/// The file's fault that a fault of its records is.
fn payments_fault(bad: BadRecord<PaymentsWhy>) -> BadPayments
    ensures { result ≡ payments_fault bad }
{
    BadPayments {
        line: bad.line,
        why: bad.why,
    }
}

/// How a file begins: how many records stand before those of its calls, and whether there is a call's record.
#[derive(Drop)]
struct Beginning {
    skipped: u32,
    found: bool,
}

/// Whether the record names the process of its file.
fn names_process(fields: &Record<'_>) -> bool
    ensures { result ≡ names_process fields.now }
{
    has_shape(fields, b"process", 2)
}

/// Reads the records up to the first call's, which stands in `fields` then. A record that names the file's process stands before it, or
/// none.
fn begin<'a>(
    names: &Names,
    process: u32,
    records: &mut Records<'a>,
    fields: &mut Record<'a>,
) -> Result<Beginning, ReadFault<PaymentsWhy>>
    requires { process < length names.now.processes }
    ensures ok { IfOk result (λ b. BeginsBehind names.now process records.old b.skipped
        (next_and_rest b.found fields.new records.new)) }
    ensures bad { (b : BadRecord PaymentsWhy) → result ≡ Err (ReadFault.Bad b)
        → NamesAnother names.now process records.old b }
{
    let Ok(found) = records.next(fields) else {
        return Err(ReadFault::NoMemory);
    };
    if !found || !names_process(fields) {
        return Ok(Beginning { skipped: 0, found });
    }
    if !is_word(field_of(fields, 1), names.process(process)) {
        return Err(ReadFault::Bad(BadRecord {
            line: 1,
            why: PaymentsWhy::Process,
        }));
    }
    match records.next(fields) {
        Ok(found) => Ok(Beginning { skipped: 1, found }),
        Err(_) => Err(ReadFault::NoMemory),
    }
}

/// Reads all calls of a file, of which there are none yet, and answers how many records stand before theirs.
///
/// It holds only references: what is owned stands in its caller.
fn read_calls_into<'a>(
    form: &CallForm<'_>,
    process: u32,
    records: &mut Records<'a>,
    fields: &mut Record<'a>,
    calls: &mut Vec<Call>,
) -> Result<u32, ReadFault<PaymentsWhy>>
    requires process { process < length form.now.names.now.processes }
    requires none { calls.old.items ≡ [] }
    ensures ok { IfOk result (λ skipped. (skipped ≡ before_calls records.old)
        × (payments_of form.now.names.now process records.old ≡ Ok calls.new.items)) }
    ensures bad { (b : BadRecord PaymentsWhy) → result ≡ Err (ReadFault.Bad b)
        → payments_of form.now.names.now process records.old ≡ Err (payments_fault b) }
{
    let begun = match begin(form.names, process, records, fields) {
        Ok(begun) => begun,
        Err(fault) => return Err(fault),
    };
    let skipped = begun.skipped;
    match read_into(
        form,
        skipped + 1,
        skipped + CALLS_MAX,
        PaymentsWhy::TooManyCalls,
        begun.found,
        records,
        fields,
        calls,
    ) {
        Ok(()) => Ok(skipped),
        Err(fault) => Err(fault),
    }
}

/// The calls of a file, and how many records stand before theirs.
#[derive(Drop)]
pub(crate) struct FileCalls {
    pub(crate) skipped: u32,
    pub(crate) calls: Vec<Call>,
}

/// Reads the calls of a process's file.
pub(crate) fn read_calls(
    alloc: Global,
    names: &Names,
    process: u32,
    bytes: &[u8],
) -> Result<FileCalls, ReadPaymentsFault>
    requires { process < length names.now.processes }
    ensures ok { IfOk result (λ read. (read.skipped ≡ before_calls (file_records bytes.now))
        × (payments_of names.now process (file_records bytes.now) ≡ Ok read.calls.items)) }
    ensures bad { (b : BadPayments) → result ≡ Err (ReadPaymentsFault.Bad b)
        → payments_of names.now process (file_records bytes.now) ≡ Err b }
{
    let Ok(mut calls) = Vec::with_capacity(alloc, room_for(CALLS_MAX, bytes)) else {
        return Err(ReadPaymentsFault::NoMemory);
    };
    let form = CallForm { names };
    let mut records = Records::new(alloc, bytes);
    let mut fields = Record::new(alloc);
    match read_calls_into(&form, process, &mut records, &mut fields, &mut calls) {
        Ok(skipped) => Ok(FileCalls { skipped, calls }),
        Err(ReadFault::Bad(bad)) => Err(ReadPaymentsFault::Bad(payments_fault(bad))),
        Err(ReadFault::NoMemory) => Err(ReadPaymentsFault::NoMemory),
    }
}

/// Reads the payment file of a process. A file without records is a file without calls. Its first record may be `process` with the process's
/// name, which is its number beside a book of version 1: a file that names another process is refused.
///
/// Fields are looked at where they lie; beside the calls only one record is held at a time.
pub fn read_payments(
    alloc: Global,
    book: &Book,
    names: &Names,
    process: u32,
    bytes: &[u8],
) -> Result<Vec<Call>, ReadPaymentsFault>
    requires names { AreNamesOf book.now names.now }
    requires process { process < book.now.processes }
    ensures ok { IfOk result
        (λ calls. payments_of names.now process (file_records bytes.now) ≡ Ok calls.items) }
    ensures pays { IfOk result
        (λ calls. Pays book.now names.now process (file_records bytes.now) calls.items) }
    ensures accepts { (calls : List Call) → Pays book.now names.now process (file_records bytes.now) calls
        → IfErr result (λ fault. fault ≡ ReadPaymentsFault.NoMemory) }
    ensures bad { (b : BadPayments) → result ≡ Err (ReadPaymentsFault.Bad b)
        → payments_of names.now process (file_records bytes.now) ≡ Err b }
{
    match read_calls(alloc, names, process, bytes) {
        Ok(FileCalls { skipped: _, calls }) => Ok(calls),
        Err(fault) => Err(fault),
    }
}
