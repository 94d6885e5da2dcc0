//! Records that are lines: nothing in them is quoted.

ghost use Rattle.std.specs.Prelude.{◌≡◌, ◌≢◌, ◌∷◌, [], ◌<◌, ◌≤◌, drop, length, slice_index, if◌then◌else◌, IfOk, OnErr};
ghost use Rattle.at_files.specs.Reading.{IsPlain, line_records, texts_of};

use crate::record::Record;
use std::alloc::AllocError;
use std::marker::Model;
use std::mem::replace;

/// The lines that are left of a file.
#[derive(Drop)]
pub(crate) struct Lines<'a> {
    rest: &'a [u8],
}

impl<'a> Model for Lines<'a> {
    ghost use Rattle.std.specs.Prelude.{List};
    ghost use Rattle.at_files.specs.Reading.{IsPlain, line_records};
    ghost use Rattle.at_files.specs.Records.{Fields};

    ghost Value = { List Fields };

    ghost view = { λ l. line_records l.rest.now };

    ghost invariant = { λ l. IsPlain l.rest.now };
}

impl<'a> Lines<'a> {
    /// All lines of a file.
    pub(crate) fn new(bytes: &'a [u8]) -> Lines<'a>
        requires { IsPlain bytes.now }
        ensures { result ≡ line_records bytes.now }
    {
        Lines { rest: bytes }
    }

    /// Reads the next record into `fields`, and answers whether there was one. Without memory there are no more.
    pub(crate) fn next(&mut self, fields: &mut Record<'a>) -> Result<bool, AllocError>
        ensures ok { IfOk result
            (λ found. self.old ≡ (if found then fields.new ∷ self.new else [])) }
        ensures err { OnErr result (self.new ≡ []) }
    {
        fields.is_copied = false;
        fields.slices.clear();
        let rest = replace(&mut self.rest, &[]);
        let text = &rest[blank_lines(rest)..];
        if text.is_empty() {
            return Ok(false);
        }
        let Ok(end) = split_line(text, &mut fields.slices) else {
            return Err(AllocError);
        };
        self.rest = &text[end..];
        Ok(true)
    }
}

/// How many newlines stand first. A line without bytes is no record.
fn blank_lines(text: &[u8]) -> usize
    ensures within { result ≤ length text.now }
    ensures same { line_records (drop result text.now) ≡ line_records text.now }
    ensures first { result < length text.now → slice_index text.now result ≢ 10 }
{
    for i in 0..text.len() {
        let blank = text[i] == b'\n';
        if !blank {
            return i;
        }
    }
    text.len()
}

/// Adds the fields of the first line to the slices, of which there are none yet, and answers where the next line begins.
fn split_line<'a>(text: &'a [u8], slices: &mut Vec<&'a [u8]>) -> Result<usize, AllocError>
    requires plain { IsPlain text.now }
    requires some { 0 < length text.now }
    requires first { slice_index text.now 0 ≢ 10 }
    requires none { slices.old.items ≡ [] }
    ensures within { IfOk result (λ end. end ≤ length text.now) }
    ensures split { IfOk result
        (λ end. line_records text.now ≡ texts_of slices.new.items ∷ line_records
        (drop end text.now)) }
{
    let mut start = 0;
    for i in 0..text.len() {
        // most bytes are letters and digits, which stand above the comma
        if text[i] <= b',' {
            if text[i] == b',' {
                slices.push(&text[start..i])?;
                start = i + 1;
            } else if text[i] == b'\n' {
                slices.push(&text[start..i])?;
                return Ok(i + 1);
            }
        }
    }
    slices.push(&text[start..])?;
    Ok(text.len())
}
