//! The lanes, and in them the bars of the calls with their words and replies.

ghost use Rattle.std.specs.Prelude.{◌≡◌, ◌<◌, ◌++◌, All, IfOk, OnOk, length};
ghost use Rattle.at_pages.specs.Prelude.{IsCallOn, IsPlayable, contents_of, reply_field};
ghost use Rattle.at_pages.specs.Bars.{answer_text, bar_text, bars_text, begins_next, spanned_call, fits, label_if, label_text, lane_text, lanes_text, range_text, rect_begin, rect_text, span_title, words_text};

use crate::files::file_of;
use crate::parts::{
    bar_left, bar_right, bar_top, bar_width, lane_place, lane_width, name_line, push_place,
    push_size, reply_line, words_line,
};
use crate::spans::Span;
use at_files::Names;
use at_ledger::{Call, Reply};
use std::alloc::{AllocError, Global};

/// Adds a lane of so many turns, with its process's name.
fn push_lane(out: &mut Vec<u8>, names: &Names, turns: usize, process: u32) -> Result<(), AllocError>
    requires { process < length names.now.processes }
    ensures { OnOk result (out.new.items ≡ out.old.items ++ lane_text names.now turns process) }
{
    out.extend_from_slice(b"<rect class='lane'")?;
    push_place(out, 124, lane_place(process))?;
    out.extend_from_slice(b" width='")?;
    push_size(out, lane_width(turns))?;
    out.extend_from_slice(b"' height='1'/><text class='name'")?;
    push_place(out, 8, name_line(process))?;
    out.extend_from_slice(b">")?;
    out.extend_from_slice(names.process(process))?;
    out.extend_from_slice(b"</text>\n")?;
    Ok(())
}

/// Adds the lanes of so many processes.
pub(crate) fn push_lanes(
    out: &mut Vec<u8>,
    names: &Names,
    turns: usize,
    processes: u32,
) -> Result<(), AllocError>
    requires { processes ≡ length names.now.processes }
    ensures { OnOk result (out.new.items ≡ out.old.items ++ lanes_text names.now turns processes) }
{
    for process in 0..processes {
        push_lane(out, names, turns, process)?;
    }
    Ok(())
}

/// Adds a call in few words.
fn push_label(out: &mut Vec<u8>, names: &Names, call: &Call) -> Result<(), AllocError>
    requires { IsCallOn (length names.now.accounts) call.now }
    ensures { OnOk result (out.new.items ≡ out.old.items ++ label_text names.now call.now) }
{
    match call {
        Call::Transfer { from, to, amount } => {
            at_base::push_number(out, *amount)?;
            out.extend_from_slice(b" from ")?;
            out.extend_from_slice(names.account(*from))?;
            out.extend_from_slice(b" to ")?;
            out.extend_from_slice(names.account(*to))
        }
        Call::Read { account } => {
            out.extend_from_slice(b"read ")?;
            out.extend_from_slice(names.account(*account))
        }
        Call::Pay { from, targets } => {
            push_size(out, targets.sum())?;
            out.extend_from_slice(b" paid from ")?;
            out.extend_from_slice(names.account(*from))
        }
    }
}

/// Adds the label of the call of these turns, if the files have it.
fn push_label_of(
    out: &mut Vec<u8>,
    names: &Names,
    files: &[Vec<Call>],
    span: &Span,
) -> Result<(), AllocError>
    requires process { span.now.process < length files.now }
    requires files { All (IsPlayable (length names.now.accounts)) (contents_of files.now) }
    ensures { OnOk result (out.new.items
        ≡ out.old.items ++ label_if names.now (spanned_call (contents_of files.now) span.now)) }
{
    let file = file_of(files, span.process);
    let number = span.number;
    if number < file.len() {
        push_label(out, names, &file[number])
    } else {
        Ok(())
    }
}

/// Adds the word of a reply.
pub(crate) fn push_reply(out: &mut Vec<u8>, reply: Option<Reply>) -> Result<(), AllocError>
    ensures { OnOk result (out.new.items ≡ out.old.items ++ reply_field reply) }
{
    match reply {
        None => Ok(()),
        Some(Reply::Done) => out.extend_from_slice(b"done"),
        Some(Reply::Short) => out.extend_from_slice(b"short"),
        Some(Reply::NotOwner) => out.extend_from_slice(b"not-owner"),
        Some(Reply::Full) => out.extend_from_slice(b"full"),
        Some(Reply::Balance(n)) => at_base::push_number(out, n),
    }
}

/// Adds which call it is, of whom, what it asks, what it is answered, and its first and last turn.
fn push_title(out: &mut Vec<u8>, names: &Names, label: &[u8], span: &Span) -> Result<(), AllocError>
    requires { span.now.process < length names.now.processes }
    ensures { OnOk result (out.new.items ≡ out.old.items ++ span_title names.now label.now span.now) }
{
    out.extend_from_slice(b"call ")?;
    push_size(out, span.number as u128 + 1)?;
    out.extend_from_slice(b" of ")?;
    out.extend_from_slice(names.process(span.process))?;
    out.extend_from_slice(b": ")?;
    out.extend_from_slice(label)?;
    out.extend_from_slice(b", ")?;
    push_reply(out, span.reply)?;
    push_range(out, span.first, span.last)
}

/// Adds the first turn and the last.
fn push_range(out: &mut Vec<u8>, first: usize, last: usize) -> Result<(), AllocError>
    ensures { OnOk result (out.new.items ≡ out.old.items ++ range_text first last) }
{
    out.extend_from_slice(b", turns ")?;
    push_size(out, first as u128 + 1)?;
    out.extend_from_slice(b" to ")?;
    push_size(out, last as u128 + 1)
}

/// Adds the begin of a bar: its place and its width.
fn push_rect_begin(out: &mut Vec<u8>, span: &Span) -> Result<(), AllocError>
    ensures { OnOk result (out.new.items ≡ out.old.items ++ rect_begin span.now) }
{
    out.extend_from_slice(b"<rect class='bar'")?;
    push_place(out, bar_left(span.first), bar_top(span.process))?;
    out.extend_from_slice(b" width='")?;
    push_size(out, bar_width(span.first, span.last))?;
    out.extend_from_slice(b"' height='26'><title>")?;
    Ok(())
}

/// Adds the bar itself.
fn push_rect(out: &mut Vec<u8>, names: &Names, label: &[u8], span: &Span) -> Result<(), AllocError>
    requires { span.now.process < length names.now.processes }
    ensures { OnOk result (out.new.items ≡ out.old.items ++ rect_text names.now label.now span.now) }
{
    push_rect_begin(out, span)?;
    push_title(out, names, label, span)?;
    out.extend_from_slice(
        b"</title></rect>
",
    )
}

/// Whether a text ends within so much room.
fn fits(text: &[u8], room: u128) -> bool
    ensures { result ≡ fits text.now room }
{
    7 * text.len() as u128 <= room
}

/// Adds the call's words, where they end before the lane's next bar begins.
fn push_words(out: &mut Vec<u8>, label: &[u8], after: usize, span: &Span) -> Result<(), AllocError>
    ensures { OnOk result (out.new.items ≡ out.old.items ++ words_text label.now after span.now) }
{
    if !fits(label, 6 * after.saturating_sub(span.first) as u128) {
        return Ok(());
    }
    out.extend_from_slice(b"<text")?;
    push_place(out, bar_left(span.first), words_line(span.process))?;
    out.extend_from_slice(b">")?;
    out.extend_from_slice(label)?;
    out.extend_from_slice(
        b"</text>
",
    )
}

/// Adds its reply, where that is no longer than the bar.
fn push_answer(out: &mut Vec<u8>, reply: &[u8], span: &Span) -> Result<(), AllocError>
    ensures { OnOk result (out.new.items ≡ out.old.items ++ answer_text reply.now span.now) }
{
    if !fits(reply, bar_width(span.first, span.last)) {
        return Ok(());
    }
    out.extend_from_slice(b"<text class='reply'")?;
    push_place(out, bar_right(span.last), reply_line(span.process))?;
    out.extend_from_slice(b">")?;
    out.extend_from_slice(reply)?;
    out.extend_from_slice(
        b"</text>
",
    )
}

/// Adds the bar of a call with its words and its reply, where the lane's next bar begins at this turn.
fn push_bar(
    alloc: Global,
    out: &mut Vec<u8>,
    names: &Names,
    files: &[Vec<Call>],
    after: usize,
    span: &Span,
) -> Result<(), AllocError>
    requires names { span.now.process < length names.now.processes }
    requires process { span.now.process < length files.now }
    requires files { All (IsPlayable (length names.now.accounts)) (contents_of files.now) }
    ensures { OnOk result (out.new.items
        ≡ out.old.items ++ bar_text names.now (contents_of files.now) after span.now) }
{
    let mut label = Vec::new(alloc);
    push_label_of(&mut label, names, files, span)?;
    let mut reply = Vec::new(alloc);
    push_reply(&mut reply, span.reply)?;
    push_rect(out, names, label.as_slice(), span)?;
    push_words(out, label.as_slice(), after, span)?;
    push_answer(out, reply.as_slice(), span)?;
    Ok(())
}

/// The turn at which the lane's next bar begins, and the end of all turns where there is none.
fn begins_next(turns: usize, spans: &[Span], k: usize) -> usize
    requires { k < length spans.now }
    ensures { result ≡ begins_next turns spans.now k }
{
    if k + 1 < spans.len() && spans[k + 1].process == spans[k].process {
        spans[k + 1].first
    } else {
        turns
    }
}

/// Adds the bars of all calls, in a picture of so many turns.
pub(crate) fn push_bars(
    alloc: Global,
    out: &mut Vec<u8>,
    names: &Names,
    files: &[Vec<Call>],
    turns: usize,
    spans: &[Span],
) -> Result<(), AllocError>
    requires names { length names.now.processes ≡ length files.now }
    requires process { All (λ s. s.process < length files.now) spans.now }
    requires files { All (IsPlayable (length names.now.accounts)) (contents_of files.now) }
    ensures { OnOk result (out.new.items
        ≡ out.old.items ++ bars_text names.now (contents_of files.now) turns spans.now) }
{
    for k in 0..spans.len() {
        let after = begins_next(turns, spans, k);
        push_bar(alloc, out, names, files, after, &spans[k])?;
    }
    Ok(())
}
