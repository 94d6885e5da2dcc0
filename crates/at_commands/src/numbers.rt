//! The words of the commands that read no file: `make` and `agree`.

ghost use Rattle.std.specs.Prelude.{◌≡◌, ◌^◌, ◌<◌, ◌≤◌, length, option_map, All, IfSome};
ghost use Rattle.at_commands.specs.Prelude.{number_of};
ghost use Rattle.at_commands.specs.Limits.{MayMake, most_made_calls, most_made_processes, most_values};
ghost use Rattle.at_commands.specs.Words.{making_of, small, values_named, within, words_of};

use arrayvec::ArrayVec;
use at_base::parse_number;

/// The most processes whose calls are made.
pub const MADE_PROCESSES_MAX: u32 = 8;

/// The most calls that are made for each process.
pub const MADE_CALLS_MAX: u32 = 1_000;

/// The fewest values that processes can agree on one of.
pub const VALUES_MIN: usize = 2;

/// The most.
pub const VALUES_MAX: usize = 8;

/// The largest of them.
pub const VALUE_MAX: u64 = 4_294_967_295;

/// What calls to make: those that the number `first` gives, `calls` of each process.
#[derive(Clone, Copy)]
pub struct Making {
    pub first: u64,
    pub processes: u32,
    pub calls: u32,
}

/// The number that the word is, where it is from 1 to `most`.
fn number_within(most: u32, word: &str) -> Option<u32>
    ensures { result ≡ within most (number_of word.now) }
{
    let n = parse_number(word.as_bytes())?;
    if 1 <= n && n <= u64::from(most) {
        Some(n as u32)
    } else {
        None
    }
}

/// What calls the three words ask for.
pub fn making_of(first: &str, processes: &str, calls: &str) -> Option<Making>
    ensures asked { result ≡ making_of (number_of first.now)
        (within most_made_processes (number_of processes.now))
        (within most_made_calls (number_of calls.now)) }
    ensures may { IfSome result (λ m. MayMake m.processes m.calls) }
{
    let first = parse_number(first.as_bytes())?;
    let processes = number_within(MADE_PROCESSES_MAX, processes)?;
    let calls = number_within(MADE_CALLS_MAX, calls)?;
    Some(Making {
        first,
        processes,
        calls,
    })
}

/// The values of `agree`, one for each process.
pub type Values = ArrayVec<u64, VALUES_MAX>;

/// The value that the word is, where it is one that a process can propose.
fn value_of(word: &str) -> Option<u64>
    ensures value { result ≡ small (number_of word.now) }
    ensures below { IfSome result (λ value. value < 2 ^ 32) }
{
    let n = parse_number(word.as_bytes())?;
    if n <= VALUE_MAX { Some(n) } else { None }
}

/// The values that the words are, if each is one.
pub fn values_of(words: &[String]) -> Option<Values>
    requires { length words.now ≤ most_values }
    ensures values { option_map (λ v. v.items) result ≡ values_named (words_of words.now) }
    ensures count { IfSome result (λ v. length v.items ≡ length words.now) }
    ensures below { IfSome result (λ v. All (λ value. value < 2 ^ 32) v.items) }
{
    let mut values = ArrayVec::new();
    for word in words {
        values.push(value_of(word.as_str())?);
    }
    Some(values)
}
