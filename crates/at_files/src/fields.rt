//! The fields of one record.

ghost use Rattle.std.specs.Prelude.{◌≡◌, bytes_eq};
ghost use Rattle.at_files.specs.Records.{field_of, has_shape, number_at};

use crate::record::Record;
use at_base::parse_number;

/// The field at a position, from 0. Past the last one there is no byte.
pub(crate) fn field_of<'r>(fields: &'r Record<'_>, i: usize) -> &'r [u8]
    ensures { result.now ≡ field_of fields.now i }
{
    if fields.is_copied {
        fields.copied.get(i).unwrap_or(&[])
    } else if i < fields.slices.len() {
        fields.slices[i]
    } else {
        &[]
    }
}

/// Whether the field is the word.
pub(crate) fn is_word(field: &[u8], word: &[u8]) -> bool
    ensures { result ≡ bytes_eq field.now word.now }
{
    field == word
}

/// Whether the record has so many fields and begins with the word.
pub(crate) fn has_shape(fields: &Record<'_>, word: &[u8], count: usize) -> bool
    ensures { result ≡ has_shape word.now count fields.now }
{
    fields.len() == count && is_word(field_of(fields, 0), word)
}

/// The number that the field at a position is.
pub(crate) fn number_at(fields: &Record<'_>, i: usize) -> Option<u64>
    ensures { result ≡ number_at fields.now i }
{
    parse_number(field_of(fields, i))
}
