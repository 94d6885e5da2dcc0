//! The asset transfer object at the command line: what the words ask, from the bytes of the files to the bytes of
//! the report.
//!
//! `serve` does it all, over any shelf and sinks, for every command. Over a shelf and sinks that tell what they hold, what `run` prints
//! is one legal run of the calls that the files' bytes spell, however the threads' steps fall, and each refusal names the first fault.
#![tactic(auto)]

#[cfg(test)]
mod gate_tests;
mod serving;
#[cfg(test)]
mod tests;

use crate::serving::serve;
use at_commands::{tell, words_given};
use at_io::{DirShelf, StdSink};
use at_workers::OpenGate;
use std::mem;
use std::process::ExitCode;

fn main(rt: HostRuntime) -> ExitCode {
    let mut err = StdSink::new(rt.stderr());
    let status = match words_given(&rt) {
        Ok(words) => {
            let mut shelf = DirShelf::new(&rt);
            let mut out = StdSink::new(rt.stdout());
            let mut kept = None;
            let status = serve(
                &rt,
                rt.alloc(),
                words.as_slice(),
                &mut shelf,
                &mut out,
                &mut err,
                &OpenGate,
                &mut kept,
            );
            // The process ends here, and all its memory is given back at once: no receipt is dropped by itself.
            mem::forget(kept);
            status
        }
        Err(status) => {
            tell(&mut err, &None, &status);
            status
        }
    };
    ExitCode::from(status.code())
}
