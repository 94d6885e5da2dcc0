//! A line of a report that is kept without memory.

ghost use Rattle.std.specs.Prelude.{◌≡◌, ◌+◌, ◌-◌, ◌≤◌, ◌++◌, length, min, take};

/// The most bytes of a line that are kept.
pub const LINE_MAX: usize = 256;

/// The first bytes of a line of a report, without its newline.
#[derive(Clone, Copy, Debug, PartialEq, Eq)]
pub struct ReportLine {
    bytes: [u8; 256],
    length: u16,
}

/// Puts the first bytes of a part at this place, as far as there is room, and tells where they end.
fn put(bytes: &mut [u8; 256], at: usize, part: &[u8]) -> usize
    requires { at ≤ 256 }
    ensures end { result ≡ at + min (256 - at) (length part.now) }
    ensures bytes { take result bytes.new ≡ take at bytes.old ++ take (256 - at) part.now }
{
    let most = part.len().min(LINE_MAX - at);
    for i in 0..most {
        bytes[at + i] = part[i];
    }
    at + most
}

impl ReportLine {
    ghost use Rattle.at_report.specs.ReportLines.{line_bytes};

    /// The line of two parts.
    pub fn of(first: &[u8], second: &[u8]) -> ReportLine
        ensures { line_bytes result ≡ take LINE_MAX (first.now ++ second.now) }
    {
        let mut bytes = [0; 256];
        let at = put(&mut bytes, 0, first);
        let length = put(&mut bytes, at, second);
        ReportLine {
            bytes,
            length: length as u16,
        }
    }

    /// Its bytes.
    pub fn bytes(&self) -> &[u8]
        ensures text { result.now ≡ line_bytes self.now }
        ensures short { length result.now ≤ LINE_MAX }
    {
        &self.bytes[..usize::from(self.length).min(LINE_MAX)]
    }
}
