ghost use Rattle.std.specs.Prelude.{◌≡◌, ◌≢◌, ◌≤◌, ◌<◌, ◌⊎◌, ◌+◌, true, [], ◌++◌, length, Some, IfOk, OnOk, OnErr};
ghost use Rattle.at_io.specs.Faults.{Rose};
ghost use Rattle.at_io.specs.Limits.{most_file_bytes};
ghost use Rattle.at_io.specs.Shelf.{SameFiles, LacksFile, IsLonger, IsReadPast};

use crate::shelf::Shelf;
use thiserror::Error;

/// The most bytes that a file may have to be fetched.
pub const FILE_MAX: usize = 8_388_608;

/// The most bytes that are asked of a shelf at once.
const READ_MAX: usize = 16_384;

/// Why a file was not fetched.
#[derive(Clone, Copy, Debug, PartialEq, Eq, Error)]
pub enum FetchError {
    /// The shelf failed, or does not hold the file.
    #[error("the file cannot be read")]
    Failed,
    /// The file has more than `FILE_MAX` bytes.
    #[error("the file is too long")]
    TooLong,
    /// There is no memory for its bytes.
    #[error("no memory is left")]
    NoMemory,
}

/// Reads the whole file of a name into `out`, which grows on its own allocator, and reads at most
/// one byte past `FILE_MAX`. Over a shelf that tells its files, with no fault counted and memory
/// found, a file that is held is answered by its bytes or, exactly where it has more than
/// `FILE_MAX`, by `TooLong`.
pub fn fetch<F: Shelf>(shelf: &mut F, name: &str, out: &mut Vec<u8>) -> Result<(), FetchError>
    requires { out.old.items ≡ [] }
    ensures files { SameFiles (F.tells shelf.old) (F.tells shelf.new)
        (F.file shelf.old) (F.file shelf.new) }
    ensures later { F.faults shelf.old ≤ F.faults shelf.new }
    ensures kept { OnOk result (F.faults shelf.new ≡ F.faults shelf.old) }
    ensures contents { F.tells shelf.old ≡ true →
        OnOk result (F.file shelf.old name.now ≡ Some out.new.items) }
    ensures size { OnOk result (length out.new.items ≤ most_file_bytes) }

    ensures failed { result ≡ Err FetchError.Failed →
        Rose (F.faults shelf.old) (F.faults shelf.new)
        ⊎ LacksFile (F.tells shelf.old) (F.file shelf.old name.now) }
    ensures too_long_kept { result ≡ Err FetchError.TooLong →
        F.faults shelf.new ≡ F.faults shelf.old }
    ensures too_long { F.tells shelf.old ≡ true → result ≡ Err FetchError.TooLong →
        IsLonger most_file_bytes (F.file shelf.old name.now) }
    ensures read_past { F.tells shelf.old ≡ true → result ≡ Err FetchError.TooLong →
        IsReadPast most_file_bytes (F.file shelf.old name.now) (F.rest shelf.new) }
    ensures no_memory_kept { result ≡ Err FetchError.NoMemory →
        F.faults shelf.new ≡ F.faults shelf.old }
    ensures emptied { OnErr result (out.new.items ≡ []) }
{
    if shelf.choose(name).is_err() {
        return Err(FetchError::Failed);
    }
    match read_whole(shelf, out) {
        Ok(()) => Ok(()),
        Err(error) => {
            out.clear();
            Err(error)
        }
    }
}

/// Reads the chosen file to its end, up to one byte past `FILE_MAX`, and adds its bytes to `out`.
fn read_whole<F: Shelf>(shelf: &mut F, out: &mut Vec<u8>) -> Result<(), FetchError>
    requires { out.old.items ≡ [] }
    ensures files { SameFiles (F.tells shelf.old) (F.tells shelf.new)
        (F.file shelf.old) (F.file shelf.new) }
    ensures later { F.faults shelf.old ≤ F.faults shelf.new }
    ensures kept { result ≢ Err FetchError.Failed → F.faults shelf.new ≡ F.faults shelf.old }
    ensures failed { result ≡ Err FetchError.Failed →
        Rose (F.faults shelf.old) (F.faults shelf.new) }
    ensures size { OnOk result (length out.new.items ≤ most_file_bytes) }
    ensures contents { F.tells shelf.old ≡ true → OnOk result (F.rest shelf.old ≡ out.new.items) }
    ensures too_long { F.tells shelf.old ≡ true → result ≡ Err FetchError.TooLong →
        (F.rest shelf.old ≡ out.new.items ++ F.rest shelf.new)
        × (length out.new.items ≡ most_file_bytes + 1) }
{
    let mut buffer = [0; READ_MAX];
    while out.len() <= FILE_MAX {
        let room = (FILE_MAX + 1 - out.len()).min(READ_MAX);
        let count = match read_some(shelf, &mut buffer[..room], out) {
            Ok(count) => count,
            Err(error) => return Err(error),
        };
        let ended = count == 0;
        if ended {
            return Ok(());
        }
    }
    Err(FetchError::TooLong)
}

/// Reads the next bytes of the chosen file through the buffer, adds them to `out`, and answers how
/// many they are.
fn read_some<F: Shelf>(
    shelf: &mut F,
    buffer: &mut [u8],
    out: &mut Vec<u8>,
) -> Result<usize, FetchError>
    requires { 0 < length buffer.old }
    ensures files { SameFiles (F.tells shelf.old) (F.tells shelf.new)
        (F.file shelf.old) (F.file shelf.new) }
    ensures later { F.faults shelf.old ≤ F.faults shelf.new }
    ensures kept { result ≢ Err FetchError.Failed → F.faults shelf.new ≡ F.faults shelf.old }
    ensures failed { result ≡ Err FetchError.Failed →
        Rose (F.faults shelf.old) (F.faults shelf.new) }
    ensures never_long { result ≢ Err FetchError.TooLong }
    ensures count { IfOk result (λ n. length out.new.items ≡ length out.old.items + n) }
    ensures bound { IfOk result (λ n. n ≤ length buffer.old) }
    ensures bytes { F.tells shelf.old ≡ true →
        OnOk result (out.old.items ++ F.rest shelf.old ≡ out.new.items ++ F.rest shelf.new) }
    ensures end { F.tells shelf.old ≡ true → IfOk result (λ n. n ≡ 0 → F.rest shelf.old ≡ []) }
{
    let Ok(count) = shelf.read(buffer) else {
        return Err(FetchError::Failed);
    };
    if out.extend_from_slice(&buffer[..count]).is_err() {
        return Err(FetchError::NoMemory);
    }
    Ok(count)
}
