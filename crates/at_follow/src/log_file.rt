//! The file of a log.

ghost use Rattle.std.specs.Prelude.{◌≡◌, ◌+◌, ◌≤◌, ℕ, Err, Ok, IfOk, IsErr, length};
ghost use Rattle.at_follow.specs.LogFile.{IsFirstBadLine, SpellsEntries, log_read, without_return};
ghost use Rattle.at_follow.specs.Prelude.{contents_of, decode_of};

use hex::FromHexError;
use std::alloc::Global;

/// Why no entries came of a file.
#[derive(Clone, Copy, Debug, PartialEq, Eq, Drop)]
pub enum ReadLogFault {
    /// The line of this number is neither blank nor hex. Lines are counted from 1, as an editor counts them.
    NotHex { line: u64 },
    NoMemory,
}

/// The line without the carriage return at its end.
fn without_return(line: &[u8]) -> &[u8]
    ensures { result.now ≡ without_return line.now }
{
    if line.is_empty() || line[line.len() - 1] != b'\r' {
        return line;
    }
    &line[..line.len() - 1]
}

/// The bytes that a line spells in hex.
fn decoded(alloc: Global, text: &[u8], line: u64) -> Result<Vec<u8>, ReadLogFault>
    ensures ok { IfOk result (λ entry. decode_of text.now ≡ Ok entry.items) }
    ensures bad { (n : ℕ) → result ≡ Err (ReadLogFault.NotHex n) → (n ≡ line) × IsErr (decode_of text.now) }
{
    match hex::decode(alloc, text) {
        Ok(entry) => Ok(entry),
        Err(FromHexError::OutOfMemory) => Err(ReadLogFault::NoMemory),
        Err(_) => Err(ReadLogFault::NotHex { line }),
    }
}

/// Reads the file of a log: an entry a line, in hex of either case. Blank lines are passed over, and a
/// line may end with a carriage return. The first line that is no hex is the fault.
pub fn read_log(alloc: Global, bytes: &[u8]) -> Result<Vec<Vec<u8>>, ReadLogFault>
    ensures ok { IfOk result (λ entries. log_read bytes.now ≡ Ok (contents_of entries.items)) }
    ensures entries { IfOk result (λ entries. SpellsEntries bytes.now (contents_of entries.items)) }
    ensures few { IfOk result (λ entries. length entries.items ≤ length bytes.now + 1) }
    ensures err { (line : ℕ) → result ≡ Err (ReadLogFault.NotHex line) → log_read bytes.now ≡ Err line }
    ensures bad { (line : ℕ) → result ≡ Err (ReadLogFault.NotHex line) → IsFirstBadLine bytes.now line }
{
    let mut entries = Vec::new(alloc);
    let mut line = 0;
    for text in bytes.split(|byte| *byte == b'\n') {
        line += 1;
        let text = without_return(text);
        if !text.is_empty() {
            let entry = match decoded(alloc, text, line) {
                Ok(entry) => entry,
                Err(fault) => return Err(fault),
            };
            if entries.push(entry).is_err() {
                return Err(ReadLogFault::NoMemory);
            }
        }
    }
    Ok(entries)
}
