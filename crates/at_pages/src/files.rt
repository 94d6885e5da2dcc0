//! The files' calls.

ghost use Rattle.std.specs.Prelude.{◌≡◌, ◌<◌, [], length, slice_index_or};
ghost use Rattle.at_pages.specs.Prelude.{contents_of};

use at_ledger::Call;

/// The calls of a process.
pub(crate) fn file_of(files: &[Vec<Call>], process: u32) -> &[Call]
    requires { process < length files.now }
    ensures { result.now ≡ slice_index_or (contents_of files.now) process [] }
{
    files[process as usize].as_slice()
}
