//! The line that was expected where a text parts from the reports.

ghost use Rattle.std.specs.Prelude.{◌≡◌, ◌≤◌, None, IfSome, drop, length, take};
ghost use Rattle.at_verify.specs.Right.{first_lines, newlines};
ghost use Rattle.at_verify.specs.Walk.{IsAcross};

use at_report::ReportLine;
use memchr::{memchr, memrchr};

/// Where the text's last line begins: after its last newline.
fn last_line(text: &[u8]) -> usize
    ensures within { result ≤ length text.now }
    ensures lines { first_lines (newlines text.now) text.now ≡ take result text.now }
    ensures line { newlines (drop result text.now) ≡ 0 }
{
    match memrchr(b'\n', text) {
        Some(last) => last + 1,
        None => 0,
    }
}

/// The line that begins in the first text and ends in the rest, or nothing where the rest ends no line.
pub(crate) fn expected_line(text: &[u8], rest: &[u8]) -> Option<ReportLine>
    ensures line { IfSome result (λ e. IsAcross text.now rest.now e) }
    ensures none { result ≡ None → newlines rest.now ≡ 0 }
{
    let end = memchr(b'\n', rest)?;
    Some(ReportLine::of(&text[last_line(text)..], &rest[..end]))
}
