//! Collects, and how a whole one compares with those before it.

ghost use Rattle.std.specs.Prelude.{◌≡◌, ℕ, ◌+◌, ◌<◌, ◌≤◌, ◌↔◌, length, slice_index, IsTrue, MatchOption, Option, Some};
ghost use Rattle.at_snapshot.specs.Prelude.{raised, stepped, count_of, IsOf};
ghost use Rattle.at_snapshot.specs.declared.collects.Collects.{Collects};
ghost use Rattle.at_snapshot.specs.Collected.{IsCollect, collect_of};
ghost use Rattle.at_snapshot.specs.Scans.{collects_after};
ghost use Rattle.at_snapshot.specs.Turns.{HasRisen, IsLeastRisen, view_steps};
ghost use Rattle.at_snapshot.specs.Verdicts.{AreAsLong, IsVerdictOn, answer_of};

use crate::scan::Turn;
use at_base::Counts;
use at_board::{Board, BoardSeat};
use at_log::load_view;

/// The first collect of a snapshot and the last one so far.
#[derive(Drop)]
pub struct Collects {
    pub(crate) first: Counts,
    pub(crate) last: Counts,
}

/// What a whole collect says beside those before it.
#[derive(Drop)]
pub enum Verdict {
    /// It equals the last one, and its counts serve.
    Repeated,
    /// This process has published twice since the first one, and the view of the last record counted of it serves.
    Lent(u32),
    /// One more is needed.
    Undecided,
}

/// Loads each length once, in the order of the processes.
pub(crate) fn collect(board: &Board, seat: &mut BoardSeat) -> Counts
    requires { IsOf seat.old board.now }
    ensures collect { IsCollect board.now.book seat.old.knows seat.new.knows }
    ensures counts { result ≡ collect_of seat.new.knows }
    ensures board { IsOf seat.new board.now }
    ensures steps { seat.new.steps ≡ raised seat.old.steps board.now.book.processes }
    ensures exchanges { seat.new.exchanges ≡ seat.old.exchanges }
{
    seat.known();
    board.book().known();
    let n = board.book().processes();
    let mut counts = Counts::zeros(n);
    for p in 0..n {
        counts.set(p, board.load_length(seat, p));
    }
    counts
}

/// Whether two lists of equally many counts are equal.
fn are_equal(counts: &Counts, others: &Counts) -> bool
    requires { length counts.now ≡ length others.now }
    ensures { IsTrue result ↔ (counts.now ≡ others.now) }
{
    for p in 0..counts.len() {
        if counts.get(p) != others.get(p) {
            return false;
        }
    }
    true
}

/// The least process, other than the given one, whose count is at least two above the first.
fn risen(first: &Counts, now: &Counts, process: u32) -> Option<u32>
    requires { length first.now ≡ length now.now }
    ensures { MatchOption result
        ((p : ℕ) → ¬ HasRisen process first.now now.now p)
        (λ p. IsLeastRisen process first.now now.now p) }
{
    for p in 0..now.len() {
        if p != process && 2 <= now.get(p).saturating_sub(first.get(p)) {
            return Some(p);
        }
    }
    None
}

/// What a whole collect of a process says, by those before it: nothing yet where there are none.
pub fn compare(collects: &Option<Collects>, now: &Counts, process: u32) -> Verdict
    requires { AreAsLong collects.now now.now }
    ensures { IsVerdictOn collects.now process now.now result }
{
    let Some(collects) = collects else {
        return Verdict::Undecided;
    };
    if are_equal(&collects.last, now) {
        return Verdict::Repeated;
    }
    match risen(&collects.first, now, process) {
        Some(p) => Verdict::Lent(p),
        None => Verdict::Undecided,
    }
}

/// Takes in one more collect, which is the first where there was none. Of those between the first and the last nothing is kept.
pub fn add_collect(collects: &mut Option<Collects>, now: Counts)
    ensures { collects.new ≡ Some (collects_after collects.old now) }
{
    match collects {
        None => {
            *collects = Some(Collects {
                first: now.copy(),
                last: now,
            });
        }
        Some(collects) => collects.last = now,
    }
}

impl Verdict {
    /// What a scan's turn answers by it. A view that is lent is loaded.
    pub(crate) fn answer(self, board: &Board, seat: &mut BoardSeat, now: &Counts) -> Turn
        requires board { IsOf seat.old board.now }
        requires verdict { (collects : Option Collects)
            × IsVerdictOn collects seat.old.knows.first now.now self }
        requires seen { (p : ℕ) → p < length now.now
            → slice_index now.now p ≤ count_of p seat.old.knows.seen }
        ensures answer { result ≡ answer_of self seat.old.knows now.now }
        ensures same { seat.new ≡ stepped seat.old (view_steps board.now.book.processes result) }
    {
        match self {
            Verdict::Repeated => Turn::Clean(now.copy()),
            Verdict::Lent(p) => Turn::Borrowed(load_view(board, seat, p, now.get(p) - 1)),
            Verdict::Undecided => Turn::Again,
        }
    }
}
