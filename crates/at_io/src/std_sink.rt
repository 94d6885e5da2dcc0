ghost use Rattle.std.specs.Prelude.{◌≡◌, ◌≤◌, length};

use crate::faults::raised;
use crate::sink::{Sink, WriteFailed};
use std::io;
use std::marker::Model;

/// The real one, over a writer such as the standard output. It tells nothing of what was taken.
/// What it answers as taken was flushed: a write that fails or takes nothing of a piece is a fault,
/// and so is a flush that fails.
#[derive(Drop)]
pub struct StdSink<W: io::Write + Drop> {
    writer: W,
    faults: u64,
}

impl<W: io::Write + Drop> Model for StdSink<W> {
    ghost use Rattle.std.specs.Prelude.{ℕ};

    ghost Value = { ℕ };

    ghost view = { λ s. s.faults };
}

impl<W: io::Write + Drop> StdSink<W> {
    /// A sink over the writer, with no fault counted.
    pub fn new(w: W) -> StdSink<W>
        ensures { result ≡ 0 }
    {
        StdSink {
            writer: w,
            faults: 0,
        }
    }
}

impl<W: io::Write + Drop> Sink for StdSink<W> {
    ghost use Rattle.std.specs.Prelude.{false, []};

    ghost tells = { λ _. false };

    ghost taken = { λ _. [] };

    ghost faults = { λ s. s };

    fn write(&mut self, piece: &[u8]) -> Result<usize, WriteFailed> {
        if piece.is_empty() {
            return Ok(0);
        }
        let count = write_through(&mut self.writer, piece);
        if count == 0 {
            self.faults = raised(self.faults);
            return Err(WriteFailed);
        }
        Ok(count)
    }
}

/// Writes a prefix of the piece and flushes it, and answers its length, or 0 where either failed.
fn write_through<W: io::Write>(writer: &mut W, piece: &[u8]) -> usize
    ensures { result ≤ length piece.now }
{
    let Ok(count) = writer.write(piece) else {
        return 0;
    };
    if writer.flush().is_err() {
        return 0;
    }
    count
}
