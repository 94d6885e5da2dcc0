//! Where a record stands in a file, as an editor counts.

ghost use Rattle.std.specs.Prelude.{◌≡◌};
ghost use Rattle.at_files.specs.Locations.{begins_line, ends_line, is_line_end, line_from, location_of};
ghost use Rattle.at_files.specs.Prelude.{strip_bom};

/// The number of a record, from 1, and of the line that it stands on, counted with the blank ones.
#[derive(Clone, Copy, Debug, PartialEq, Eq)]
pub struct Location {
    pub number: u32,
    pub line: u64,
}

/// The bytes of a file behind its mark of order.
fn without_mark(bytes: &[u8]) -> &[u8]
    ensures { result.now ≡ strip_bom bytes.now }
{
    match bytes.strip_prefix(&[0xEF, 0xBB, 0xBF]) {
        Some(rest) => rest,
        None => bytes,
    }
}

fn is_line_end(byte: u8) -> bool
    ensures { result ≡ is_line_end byte }
{
    byte == b'\n' || byte == b'\r'
}

/// Whether a line with bytes begins at a byte that stands behind this one.
fn begins_line(last: u8, byte: u8) -> bool
    ensures { result ≡ begins_line last byte }
{
    is_line_end(last) && !is_line_end(byte)
}

/// Whether a line ends at a byte that stands behind this one.
fn ends_line(last: u8, byte: u8) -> bool
    ensures { result ≡ ends_line last byte }
{
    byte == b'\r' || byte == b'\n' && last != b'\r'
}

/// The line of the record behind so many others.
fn line_behind(records: u32, bytes: &[u8]) -> u64
    ensures { result ≡ line_from records 1 10 bytes.now }
{
    let mut records = records;
    let mut line = 1;
    let mut last = b'\n';
    for byte in bytes {
        let byte = *byte;
        if begins_line(last, byte) {
            if records == 0 {
                return line;
            }
            records -= 1;
        } else if ends_line(last, byte) {
            line += 1;
        }
        last = byte;
    }
    if is_line_end(last) { line } else { line + 1 }
}

/// Where the record of this number stands, or would stand behind the last one. It reads the bytes up to there.
pub fn location_of(bytes: &[u8], number: u32) -> Location
    ensures { result ≡ location_of bytes.now number }
{
    Location {
        number,
        line: line_behind(number.saturating_sub(1), without_mark(bytes)),
    }
}
