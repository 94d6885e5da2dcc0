//! The parts of the page that are the same for all runs, and the places of its elements.

ghost use Rattle.std.specs.Prelude.{◌≡◌, ◌++◌, OnOk, decimal};
ghost use Rattle.at_pages.specs.Places.{bar_left, bar_right, bar_top, bar_width, borrow_line, facing_edge, lane_place, lane_width, middle_of, name_line, caption_line, caption_place, picture_height, picture_width, place_text, reply_line, time_place, words_line};

use std::alloc::AllocError;

/// All that stands before the sentence.
pub(crate) const HEAD: &[u8] = b"<!DOCTYPE html>
<html lang='en'>
<head>
<meta charset='utf-8'/>
<meta name='viewport' content='width=device-width'/>
<title>A run, turn by turn</title>
<style>
:root{color-scheme:light dark;--ink:#1b1f24;--soft:#57606a;--lane:#d0d7de;--bar:#eef2f6;--load:#6e7781;--store:#0969da;--swap:#bc4c00;--page:#fff}
@media (prefers-color-scheme:dark){:root{--ink:#e6edf3;--soft:#9aa4af;--lane:#30363d;--bar:#1c222a;--load:#8b949e;--store:#58a6ff;--swap:#f0883e;--page:#0d1117}}
body{margin:0;padding:1rem;background:var(--page);color:var(--ink);font:1rem/1.5 system-ui,sans-serif}
h1{font-size:1.5rem}
h2{font-size:1.2rem}
.wide{overflow-x:auto}
svg{display:block}
text{fill:var(--ink);font-size:12px}
.name{font-weight:600}
.reply{fill:var(--soft);text-anchor:end}
.caption{fill:var(--soft);stroke:var(--page);stroke-width:3;paint-order:stroke}
.lane{fill:var(--lane)}
.bar{fill:var(--bar);stroke:var(--lane)}
#load{stroke:var(--load)}
#store{stroke:var(--store);stroke-width:3}
#publication{fill:var(--store)}
#exchange{fill:var(--swap)}
#none{fill:none;stroke:var(--load)}
#head{fill:var(--swap)}
#tip{fill:var(--store)}
.sees{fill:none;stroke:var(--store);opacity:.8;marker-end:url(#tip)}
.helps{fill:none;stroke:var(--swap);stroke-dasharray:4 3;marker-end:url(#head)}
.key{display:flex;flex-wrap:wrap;gap:0 1.5rem;margin:0;padding:0;list-style:none}
.key svg{display:inline-block;vertical-align:middle}
table{border-collapse:collapse}
caption{text-align:left}
th,td{padding:.2rem .8rem .2rem 0;border-bottom:1px solid var(--lane);text-align:left}
</style>
</head>
<body>
<main>
<h1>A run, turn by turn</h1>
<p>";

/// What stands between the sentence and the picture.
pub(crate) const PICTURE: &[u8] = b"</p>
<h2>The turns</h2>
<div class='wide' tabindex='0'>
";

/// The rest of the picture's first element, with the shapes of the marks.
pub(crate) const SHAPES: &[u8] =
    b" role='group' aria-label='A lane for each process, in it a bar for each call with a mark for each turn, and between lanes who loads whose records and who decides for whom'>
<defs>
<path id='load' d='M0 -5V5'/>
<path id='store' d='M0 -9V9'/>
<circle id='publication' r='6'/>
<path id='exchange' d='M0 -10L6 0L0 10L-6 0z'/>
<circle id='none' r='4'/>
<marker id='head' viewBox='0 0 8 8' refX='8' refY='4' markerWidth='8' markerHeight='8' orient='auto'><path d='M0 0L8 4L0 8z'/></marker>
<marker id='tip' viewBox='0 0 8 8' refX='8' refY='4' markerWidth='8' markerHeight='8' orient='auto'><path d='M0 0L8 4L0 8z'/></marker>
</defs>
";

/// The end of the picture, and what its marks mean.
pub(crate) const KEY: &[u8] = b"</svg>
</div>
<ul class='key'>
<li><svg width='20' height='24' aria-hidden='true'><use href='#load' x='10' y='12'/></svg> loads a word</li>
<li><svg width='20' height='24' aria-hidden='true'><use href='#store' x='10' y='12'/></svg> stores a word</li>
<li><svg width='20' height='24' aria-hidden='true'><use href='#publication' x='10' y='12'/></svg> publishes a record</li>
<li><svg width='20' height='24' aria-hidden='true'><use href='#exchange' x='10' y='12'/></svg> exchanges a cell</li>
<li><svg width='20' height='24' aria-hidden='true'><use href='#none' x='10' y='12'/></svg> answers without a step</li>
<li><svg width='20' height='24' aria-hidden='true'><path class='sees' d='M10 2V22'/></svg> from a publication to its first load by each other process; <em>borrows</em>: what is loaded is the record's view</li>
<li><svg width='20' height='24' aria-hidden='true'><path class='helps' d='M10 2V22'/></svg> decides for another owner</li>
<li>no mark: a turn of another process</li>
</ul>
";

/// The heading of the table, and its first row.
pub(crate) const CALLS: &[u8] = b"<h2>The calls</h2>
<div class='wide' tabindex='0'>
<table>
<thead>
<tr><th>process</th><th>line</th><th>call</th><th>account</th><th>kind</th><th>reply</th><th>steps</th><th>exchanges</th><th>new</th><th>most_steps</th><th>most_exchanges</th></tr>
</thead>
<tbody>
";

/// The end of the table, and the heading of the journal.
pub(crate) const JOURNAL: &[u8] = b"</tbody>
</table>
</div>
<h2>The journal</h2>
<ol>
";

/// The end of the page.
pub(crate) const END: &[u8] = b"</ol>
</main>
</body>
</html>
";

/// The place of a turn.
pub(crate) fn time_place(turn: usize) -> u128
    ensures { result ≡ time_place turn }
{
    136 + 6 * turn as u128
}

/// The place of a process's lane.
pub(crate) fn lane_place(process: u32) -> u128
    ensures { result ≡ lane_place process }
{
    64 + 132 * u128::from(process)
}

/// The left end of a bar from this turn on.
pub(crate) fn bar_left(first: usize) -> u128
    ensures { result ≡ bar_left first }
{
    133 + 6 * first as u128
}

/// The right end of a bar to this turn.
pub(crate) fn bar_right(last: usize) -> u128
    ensures { result ≡ bar_right last }
{
    139 + 6 * last as u128
}

/// The width of a bar from one turn to another.
pub(crate) fn bar_width(first: usize, last: usize) -> u128
    ensures { result ≡ bar_width first last }
{
    6 * last.saturating_sub(first) as u128 + 6
}

/// The top of a bar of the process.
pub(crate) fn bar_top(process: u32) -> u128
    ensures { result ≡ bar_top process }
{
    51 + 132 * u128::from(process)
}

/// The line of the words above a bar of the process.
pub(crate) fn words_line(process: u32) -> u128
    ensures { result ≡ words_line process }
{
    45 + 132 * u128::from(process)
}

/// The line of the replies below it.
pub(crate) fn reply_line(process: u32) -> u128
    ensures { result ≡ reply_line process }
{
    92 + 132 * u128::from(process)
}

/// The line of the process's name.
pub(crate) fn name_line(process: u32) -> u128
    ensures { result ≡ name_line process }
{
    68 + 132 * u128::from(process)
}

/// The edge of a lane's bars that faces another lane.
pub(crate) fn facing_edge(process: u32, other: u32) -> u128
    ensures { result ≡ facing_edge process other }
{
    if process < other {
        lane_place(process) + 13
    } else {
        lane_place(process) - 13
    }
}

/// The place of the words beside an arrow from this turn.
pub(crate) fn caption_place(turn: usize) -> u128
    ensures { result ≡ caption_place turn }
{
    141 + 6 * turn as u128
}

/// The line of the words beside an arrow from one lane to another.
pub(crate) fn caption_line(process: u32, other: u32) -> u128
    ensures { result ≡ caption_line process other }
{
    if process < other {
        lane_place(process) + 58
    } else {
        lane_place(process) - 54
    }
}

/// The line of the word beside a curve from another lane.
pub(crate) fn borrow_line(process: u32, from: u32) -> u128
    ensures { result ≡ borrow_line process from }
{
    if process < from {
        lane_place(process) + 44
    } else {
        lane_place(process) - 38
    }
}

/// The middle between two lanes.
pub(crate) fn middle_of(process: u32, other: u32) -> u128
    ensures { result ≡ middle_of process other }
{
    64 + 66 * (u128::from(process) + u128::from(other))
}

/// How long the lanes of so many turns are.
pub(crate) fn lane_width(turns: usize) -> u128
    ensures { result ≡ lane_width turns }
{
    24 + 6 * turns as u128
}

/// How wide a picture of so many turns is.
pub(crate) fn picture_width(turns: usize) -> u128
    ensures { result ≡ picture_width turns }
{
    160 + 6 * turns as u128
}

/// How high one of so many processes is.
pub(crate) fn picture_height(processes: u32) -> u128
    ensures { result ≡ picture_height processes }
{
    132 * u128::from(processes)
}

/// Adds a number of any size that the picture has.
pub(crate) fn push_size(out: &mut Vec<u8>, n: u128) -> Result<(), AllocError>
    ensures { OnOk result (out.new.items ≡ out.old.items ++ decimal n) }
{
    out.extend_from_slice(itoa::Buffer::new().format(n).as_bytes())
}

/// Adds the place of an element.
pub(crate) fn push_place(out: &mut Vec<u8>, x: u128, y: u128) -> Result<(), AllocError>
    ensures { OnOk result (out.new.items ≡ out.old.items ++ place_text x y) }
{
    out.extend_from_slice(b" x='")?;
    push_size(out, x)?;
    out.extend_from_slice(b"' y='")?;
    push_size(out, y)?;
    out.extend_from_slice(b"'")
}
