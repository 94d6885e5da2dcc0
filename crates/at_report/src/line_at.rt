//! Lines that are looked at where their calls stand.

ghost use Rattle.std.specs.Prelude.{◌≡◌, ◌<◌, List, length, slice_index_or};
ghost use Rattle.at_report.specs.Prelude.{Line};
ghost use Rattle.at_report.specs.Lines.{line_shown};

use at_ledger::{Call, Line, Reply};

/// A line whose call stands elsewhere.
#[derive(Clone, Copy)]
pub struct LineAt<'l> {
    pub process: u32,
    pub number: u32,
    pub call: &'l Call,
    pub reply: Reply,
}

/// Lines in one order, each looked at where its call stands.
pub trait Journal {
    // the lines
    ghost lines: { Self → List Line };

    /// How many lines there are.
    fn len(&self) -> usize
        ensures { result ≡ length (lines self.now) };

    /// The line at a position, from 0.
    fn line(&self, i: usize) -> LineAt<'_>
        requires { i < length (lines self.now) }
        ensures { line_shown result ≡ slice_index_or (lines self.now) i (line_shown result) };
}

impl<'l> Journal for &'l [Line] {
    ghost lines = { λ s. s.now };

    fn len(&self) -> usize {
        let lines: &[Line] = *self;
        lines.len()
    }

    fn line(&self, i: usize) -> LineAt<'_> {
        let lines: &[Line] = *self;
        at_line(&lines[i])
    }
}

/// A line as it stands.
pub(crate) fn at_line(line: &Line) -> LineAt<'_>
    ensures { line_shown result ≡ line.now }
{
    LineAt {
        process: line.process,
        number: line.number,
        call: &line.call,
        reply: line.reply,
    }
}
