//! A payment from a single account, a step a turn.

ghost use Rattle.std.specs.Prelude.{◌≡◌, ◌+◌, ◌<◌, ◌↔◌, List, IfSome, IsSome, length};
ghost use Rattle.at_calling.specs.Prelude.{raised, IsOverviewOf, IsOf, record_width, HasCounted, StaysCounted, IsPrefix, owns_of, Publication, AreTargetsOn, AppendingTerms, IsWithinOneMore, LookingTerms, first_load, single_steps, IsOnlyOwner};
ghost use Rattle.at_calling.specs.KeptPayingAlone.{TakesPayTurn};
ghost use Rattle.at_calling.specs.PayingAlone.{AnswersAlone, FollowsPay, HasSameAsking, IsPayWithin, MakesPayStep, append_steps, pay_step_at, pay_turns_left, turns_made};
ghost use Rattle.at_calling.specs.Reading.{LeavesTotals, counted_so_far, newly_seen};

use crate::pay_stage::PayStage;
use at_base::Counts;
use at_board::{Board, BoardSeat, BoardStep, Entry, Overview};
use at_fold::Totals;
use at_ledger::{Reply, Targets};
use at_log::{At, Record};
use at_machines::{Appending, Looking, become_next};
use at_payments::covers;
use std::marker::Model;
use std::snapshot::Snapshot;

/// A payment in the making: a look, and where the balance at its cut covers the payment, the append of its record.
#[derive(Drop)]
pub struct PayingAlone {
    from: u32,
    targets: Targets,
    stage: PayStage,
    /// How many turns the look had, once it has ended.
    looked: u64,
    /// The seat at the start, for contracts alone.
    start: Snapshot<BoardSeat>,
    /// The seat after the last turn.
    mark: Snapshot<BoardSeat>,
    /// The totals at the start.
    was: Snapshot<Totals>,
    /// The totals after the last turn.
    totals: Snapshot<Totals>,
}

impl Model for PayingAlone {
    ghost use Rattle.at_calling.specs.PayingAlone.{PayingAloneTerms};

    ghost Value = { PayingAloneTerms };

    ghost use Rattle.at_calling.specs.KeptPayingAlone.{IsPayingAloneSo, paying_alone_of};

    ghost view = { paying_alone_of };

    ghost invariant = { λ p. IsPayingAloneSo (paying_alone_of p) };
}

impl PayingAlone {
    /// Starts a payment by the only owner of its source, in no step.
    pub fn start(
        board: &Board,
        seat: &BoardSeat,
        totals: &Totals,
        from: u32,
        targets: Targets,
    ) -> PayingAlone
        requires board { IsOf seat.now board.now }
        requires counted { HasCounted totals.now board.now.book seat.now.knows.seen }
        requires from { from < length board.now.book.accounts }
        requires targets { AreTargetsOn (length board.now.book.accounts) targets }
        requires owner { IsOnlyOwner board.now.book seat.now.knows.first from }
        requires room { owns_of seat.now.knows.first seat.now.knows.seen < board.now.book.own_room }
        ensures from { result.from ≡ from }
        ensures targets { result.targets ≡ targets }
        ensures start { result.start ≡ seat.now.knows }
        ensures mark { result.mark ≡ seat.now.knows }
        ensures was { result.was ≡ totals.now }
        ensures totals { result.totals ≡ totals.now }
        ensures turns { turns_made result ≡ 0 }
        ensures left { 0 < pay_turns_left (record_width board.now.book) result.stage }
        ensures first { pay_step_at board.now.book result.stage ≡ first_load }
    {
        seat.known();
        // There are one to four targets, as their type keeps.
        let _count = targets.len();
        PayingAlone {
            from,
            targets,
            stage: PayStage::Look(Looking::start(board, seat, totals)),
            looked: 0,
            start: Snapshot::of(seat),
            mark: Snapshot::of(seat),
            was: Snapshot::of(totals),
            totals: Snapshot::of(totals),
        }
    }

    /// The step that the next turn makes.
    pub fn next(&self, board: &Board, seat: &BoardSeat) -> Option<BoardStep>
        requires board { IsOf seat.now board.now }
        requires mark { seat.now.knows ≡ self.now.mark }
        requires left { 0 < pay_turns_left (record_width board.now.book) self.now.stage }
        ensures { result ≡ pay_step_at board.now.book self.now.stage }
    {
        match &self.stage {
            PayStage::Look(looking) => looking.next(),
            PayStage::Append(appending) => appending.next(board, seat),
            PayStage::Short => None,
        }
    }

    /// Makes the next step of the payment. Where the balance at the cut of the look is below the sum of the amounts, it answers
    /// with the look's last load, and else with the store that publishes its record.
    pub fn turn(
        &mut self,
        board: &Board,
        seat: &mut BoardSeat,
        overview: &mut Overview,
        totals: &mut Totals,
    ) -> Option<(Reply, At)>
        requires board { IsOf seat.old board.now }
        requires overview { IsOverviewOf overview.old board.now }
        requires mark { seat.old.knows ≡ self.old.mark }
        requires totals { totals.old ≡ self.old.totals }
        requires left { 0 < pay_turns_left (record_width board.now.book) self.old.stage }
        ensures from { self.new.from ≡ self.old.from }
        ensures targets { self.new.targets ≡ self.old.targets }
        ensures start { self.new.start ≡ self.old.start }
        ensures mark { self.new.mark ≡ seat.new.knows }
        ensures was { self.new.was ≡ self.old.was }
        ensures totals { self.new.totals ≡ totals.new }
        ensures turns { turns_made self.new ≡ turns_made self.old + 1 }
        ensures step { MakesPayStep board.now.book overview.old.seen self.old.stage seat.old
            seat.new totals.new }
        ensures follows { FollowsPay board.now.book.processes self.old.stage self.new.stage }
        ensures left { pay_turns_left (record_width board.now.book) self.new.stage
            < pay_turns_left (record_width board.now.book) self.old.stage }
        ensures ends { IsSome result ↔ (pay_turns_left (record_width board.now.book) self.new.stage
            ≡ 0) }
        ensures so_far { IsPayWithin board.now.book.processes
            (newly_seen self.old.start seat.new.knows self.old.was.upto) (turns_made self.new) }
        ensures counting { IsWithinOneMore (single_steps board.now.book.processes)
            (counted_so_far self.old.start seat.new.knows self.old.was.upto totals.new.upto)
            (turns_made self.new) }
        ensures begins { IsPrefix self.old.start.seen seat.new.knows.seen }
        ensures asks { HasSameAsking self.old.start seat.new.knows }
        ensures answer { IfSome result (AnswersAlone board.now.book self.old.start seat.new.knows
            self.old.from self.old.targets) }
        ensures counted { IfSome result (λ r. StaysCounted totals.new board.now.book
            seat.new.knows.seen) }
        ensures leaves { IfSome result (λ r. LeavesTotals board.now.book self.old.start
            seat.new.knows self.old.was totals.new
            (append_steps (record_width board.now.book) r.0) (turns_made self.new)) }
        ensures board { IsOf seat.new board.now }
        ensures steps { seat.new.steps ≡ raised seat.old.steps 1 }
        ensures exchanges { seat.new.exchanges ≡ seat.old.exchanges }
        ensures overview { overview.new ≡ overview.old }
    {
        match &self.stage {
            PayStage::Look(_) => self.look_on(board, seat, overview, totals),
            PayStage::Append(_) => self.append_on(board, seat, totals),
            // Some turn is left, and of a short payment none is.
            PayStage::Short => unreachable!(),
        }
    }

    /// Makes the next load of the look. After the last one the payment is short, or the append of its record comes next.
    fn look_on(
        &mut self,
        board: &Board,
        seat: &mut BoardSeat,
        overview: &mut Overview,
        totals: &mut Totals,
    ) -> Option<(Reply, At)>
        requires board { IsOf seat.old board.now }
        requires overview { IsOverviewOf overview.old board.now }
        requires mark { seat.old.knows ≡ self.old.mark }
        requires totals { totals.old ≡ self.old.totals }
        requires looks { (l : LookingTerms) × (self.old.stage ≡ PayStage.Look l) }
        ensures turned { TakesPayTurn board.now.book overview.old.seen self.old self.new
            seat.old seat.new totals.new result }
        ensures board { IsOf seat.new board.now }
        ensures steps { seat.new.steps ≡ raised seat.old.steps 1 }
        ensures exchanges { seat.new.exchanges ≡ seat.old.exchanges }
        ensures overview { overview.new ≡ overview.old }
    {
        let PayStage::Look(looking) = &mut self.stage else {
            // The stage is a look, as is asked.
            unreachable!()
        };
        let looked = looking.turn(board, seat, overview, totals);
        self.looked = looking.turns();
        self.mark = Snapshot::of(seat);
        self.totals = Snapshot::of(totals);
        let cut = looked?;
        seat.known();
        if !covers(totals, self.from, &self.targets) {
            become_next(&mut self.stage, PayStage::Short);
            return Some((Reply::Short, At::Cut(cut)));
        }
        // The cut stays one, and what it covers stays covered, whatever others publish before this record.
        let rec = record_of(self.from, &self.targets, cut);
        become_next(
            &mut self.stage,
            PayStage::Append(Appending::start(seat, rec)),
        );
        None
    }

    /// Stores the next word of the payment's record, or publishes it.
    fn append_on(
        &mut self,
        board: &Board,
        seat: &mut BoardSeat,
        totals: &mut Totals,
    ) -> Option<(Reply, At)>
        requires board { IsOf seat.old board.now }
        requires mark { seat.old.knows ≡ self.old.mark }
        requires totals { totals.old ≡ self.old.totals }
        requires appends { (a : AppendingTerms) × (self.old.stage ≡ PayStage.Append a) }
        requires left { 0 < pay_turns_left (record_width board.now.book) self.old.stage }
        ensures turned { (seen : List Publication)
            → TakesPayTurn board.now.book seen self.old self.new seat.old seat.new totals.new
            result }
        ensures board { IsOf seat.new board.now }
        ensures steps { seat.new.steps ≡ raised seat.old.steps 1 }
        ensures exchanges { seat.new.exchanges ≡ seat.old.exchanges }
    {
        let PayStage::Append(appending) = &mut self.stage else {
            // The stage is an append, as is asked.
            unreachable!()
        };
        seat.known();
        let is_published = appending.turn(board, seat);
        self.mark = Snapshot::of(seat);
        if !is_published {
            return None;
        }
        totals.count_own(seat, appending.entry());
        self.totals = Snapshot::of(totals);
        let at = At::Own(seat.published() - 1);
        Some((Reply::Done, at))
    }
}

/// The record of a payment, with a cut as its view.
fn record_of(from: u32, targets: &Targets, view: Counts) -> Record
    ensures { result ≡ record { entry = Entry.Own from targets.now; view = view } }
{
    let entry = Entry::Own {
        from,
        targets: targets.copy(),
    };
    Record { entry, view }
}
