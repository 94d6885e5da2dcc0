//! Counting what was published since, a load a turn.

ghost use Rattle.std.specs.Prelude.{◌≡◌, ℕ, ◌+◌, ◌-◌, ◌*◌, ◌<◌, ◌≤◌, ◌↔◌, IfSome, IsSome, IsTrue, None, Some, [], length, slice_index, sum};
ghost use Rattle.at_machines.specs.Prelude.{Covers, stepped, IsOf, RECORD_WORDS, IsCatchingUp, HasCounted, HasRecords, StaysCounted, count_of};
ghost use Rattle.at_machines.specs.CatchingUp.{FollowsLoad, LoadsNextWord, MayLoadLeft, catch_step, loads_left};
ghost use Rattle.at_machines.specs.Loading.{starting_loading};

use crate::loading_entry::LoadingEntry;
use at_base::Counts;
use at_board::{Board, BoardSeat, BoardStep};
use at_fold::Totals;
use std::marker::Model;
use std::snapshot::Snapshot;

/// Totals on their way to counts: a load of each word of each record that the counts count and the totals don't, by process and
/// then by rising number. A record is counted when its entry is whole.
#[derive(Drop)]
pub struct CatchingUp {
    counts: Counts,
    /// The process whose record is loaded.
    process: u32,
    loading: Option<LoadingEntry>,
    /// The seat, for contracts alone. These loads leave it as it is.
    seat: Snapshot<BoardSeat>,
    /// The totals after the last turn.
    totals: Snapshot<Totals>,
}

impl Model for CatchingUp {
    ghost use Rattle.at_machines.specs.CatchingUp.{CatchingUpTerms, loaded_of, words_held};
    ghost use Rattle.at_machines.specs.KeptCatchingUp.{IsCatchingUpSo};

    ghost Value = { CatchingUpTerms };

    ghost view = { λ c. record {
      counts = c.counts;
      knows = c.seat.value.knows;
      totals = c.totals.value;
      process = c.process;
      loaded = loaded_of c.loading;
      words = words_held c.loading;
    } };

    ghost invariant = { λ c. IsCatchingUpSo c.seat.value.knows c.counts c.totals.value c.process
        c.loading };
}

impl CatchingUp {
    /// Starts counting all records that `counts` counts, which the seat has seen, in no step.
    pub fn start(board: &Board, seat: &BoardSeat, totals: &Totals, counts: Counts) -> CatchingUp
        requires board { IsOf seat.now board.now }
        requires counted { HasCounted totals.now board.now.book seat.now.knows.seen }
        requires more { Covers counts totals.now.upto }
        requires seen { HasRecords board.now.book seat.now.knows.seen counts }
        ensures counts { result.counts ≡ counts }
        ensures knows { result.knows ≡ seat.now.knows }
        ensures totals { result.totals ≡ totals.now }
        ensures left { loads_left result ≡ RECORD_WORDS * (sum counts - sum totals.now.upto) }
        ensures loaded { result.loaded ≡ 0 }
        ensures words { result.words ≡ [] }
    {
        seat.known();
        CatchingUp::at(seat, totals, counts, 0)
    }

    /// Goes on at this process: of those before it nothing is left.
    fn at(seat: &BoardSeat, totals: &Totals, counts: Counts, process: u32) -> CatchingUp
        requires process { process ≤ length counts }
        requires so_far { IsCatchingUp seat.now.knows.book seat.now.knows.seen counts
            totals.now.upto totals.now process }
        ensures counts { result.counts ≡ counts }
        ensures knows { result.knows ≡ seat.now.knows }
        ensures totals { result.totals ≡ totals.now }
        ensures loaded { result.loaded ≡ 0 }
        ensures words { result.words ≡ [] }
    {
        seat.known();
        let process = first_left(&counts, totals, process);
        let loading = next_record(seat, totals, &counts, process);
        CatchingUp {
            counts,
            process,
            loading,
            seat: Snapshot::of(seat),
            totals: Snapshot::of(totals),
        }
    }

    /// Whether all are counted.
    pub fn is_ended(&self) -> bool
        ensures ended { IsTrue result ↔ (loads_left self.now ≡ 0) }
        ensures upto { IsTrue result → self.now.totals.upto ≡ self.now.counts }
    {
        self.loading.is_none()
    }

    /// The step that the next turn makes, if some load is left.
    pub fn next(&self) -> Option<BoardStep>
        ensures { result ≡ catch_step self.now }
    {
        match &self.loading {
            Some(loading) => loading.next(),
            None => None,
        }
    }

    /// Loads the next word of the next record, in one step, and counts the record once its entry is whole. After the last one it
    /// answers the counts.
    pub fn turn(
        &mut self,
        board: &Board,
        seat: &mut BoardSeat,
        totals: &mut Totals,
    ) -> Option<Counts>
        requires board { IsOf seat.old board.now }
        requires mark { seat.old.knows ≡ self.old.knows }
        requires totals { totals.old ≡ self.old.totals }
        requires left { 0 < loads_left self.old }
        ensures counts { self.new.counts ≡ self.old.counts }
        ensures knows { self.new.knows ≡ self.old.knows }
        ensures totals { self.new.totals ≡ totals.new }
        ensures word { LoadsNextWord self.old totals.new }
        ensures follows { FollowsLoad self.old self.new }
        ensures record { MayLoadLeft board.now.book seat.old.knows self.old }
        ensures left { loads_left self.new + 1 ≡ loads_left self.old }
        ensures part { self.new.loaded < RECORD_WORDS }
        ensures ends { IsSome result ↔ (loads_left self.new ≡ 0) }
        ensures counted { HasCounted totals.new board.now.book seat.new.knows.seen }
        ensures stays { StaysCounted totals.new board.now.book seat.new.knows.seen }
        ensures upto { IfSome result (λ counts. totals.new.upto ≡ counts) }
        ensures whole { IfSome result (λ counts. counts ≡ self.old.counts) }
        ensures same { seat.new ≡ stepped seat.old 1 }
    {
        seat.known();
        let Some(loading) = &mut self.loading else {
            // Some load is left.
            unreachable!()
        };
        let entry = loading.turn(board, seat)?;
        let upto = totals.counted(self.process) + 1;
        totals.count(self.process, upto, &entry);
        *self = CatchingUp::at(seat, totals, self.counts.copy(), self.process);
        self.answer()
    }

    /// The counts, where all are counted.
    fn answer(&self) -> Option<Counts>
        ensures ends { IsSome result ↔ (loads_left self.now ≡ 0) }
        ensures upto { IfSome result (λ counts. self.now.totals.upto ≡ counts) }
        ensures whole { IfSome result (λ counts. counts ≡ self.now.counts) }
    {
        if self.is_ended() {
            Some(self.counts.copy())
        } else {
            None
        }
    }
}

/// The first process, from this one on, of which the counts count more records than the totals. It is the number of processes
/// where there is none.
fn first_left(counts: &Counts, totals: &Totals, from: u32) -> u32
    requires sized { length totals.now.upto ≡ length counts.now }
    requires from { from ≤ length counts.now }
    ensures from { from ≤ result }
    ensures within { result ≤ length counts.now }
    ensures done { (q : ℕ) → from ≤ q → q < result
        → slice_index counts.now q ≤ slice_index totals.now.upto q }
    ensures left { result < length counts.now → slice_index totals.now.upto result
        < slice_index counts.now result }
{
    for p in from..counts.len() {
        if totals.counted(p) < counts.get(p) {
            return p;
        }
    }
    counts.len()
}

/// A load of the next record of this process, if there is such a process.
fn next_record(seat: &BoardSeat, totals: &Totals, counts: &Counts, p: u32) -> Option<LoadingEntry>
    requires sized { length totals.now.upto ≡ length counts.now }
    requires seen { p < length counts.now → slice_index totals.now.upto p
        < count_of p seat.now.knows.seen }
    ensures none { length counts.now ≤ p → result ≡ None }
    ensures some { p < length counts.now → result
        ≡ Some (starting_loading seat.now.knows p (slice_index totals.now.upto p)) }
{
    if p < counts.len() {
        Some(LoadingEntry::start(seat, p, totals.counted(p)))
    } else {
        None
    }
}
