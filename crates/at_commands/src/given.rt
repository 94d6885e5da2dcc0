//! The words that a program was given.

ghost use Rattle.std.specs.Prelude.{◌≢◌, IfErr};

use at_report::{Status, UsageFault};
use std::io;
use std::rt::Env;

/// The words after the program's name. Words that are not text have no form.
pub fn words_given(rt: &(impl Env + AllocGlobal)) -> Result<Vec<String>, Status>
    ensures { IfErr result (λ refusal. refusal ≢ Status.Done) }
{
    let given = match std::env::args(rt) {
        Ok(given) => given,
        Err(error) if error.kind() == io::ErrorKind::OutOfMemory => return Err(Status::NoMemory),
        Err(_) => return Err(Status::Usage(UsageFault::Words)),
    };
    let mut words = Vec::new(rt.alloc());
    for word in given.skip(1) {
        if words.push(word).is_err() {
            return Err(Status::NoMemory);
        }
    }
    Ok(words)
}
