//! The payment files of all processes.

ghost use Rattle.std.specs.Prelude.{◌≡◌, ◌≤◌, All, length, sum_by};
ghost use Rattle.at_files.specs.Prelude.{contents_of};

use at_ledger::Call;

/// How many calls the files have together.
pub fn count_calls(files: &[Vec<Call>]) -> u32
    requires processes { length files.now ≤ 16 }
    requires calls { All (λ calls. length calls ≤ 16384) (contents_of files.now) }
    ensures { result ≡ sum_by length (contents_of files.now) }
{
    let mut calls = 0;
    for file in files {
        calls += file.len() as u32;
    }
    calls
}
