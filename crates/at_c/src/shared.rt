//! What the callers of one ledger share.

ghost use Rattle.std.specs.Prelude.{◌≡◌, ◌<◌, ◌/◌, ℕ, length, slice_index_or, IfErr, IfOk, IfSome};
ghost use Rattle.at_c.specs.Prelude.{IsOf, AreNamesOf, IsPassOf};
ghost use Rattle.at_c.specs.Given.{IsGivenBack};
ghost use Rattle.at_c.specs.Notes.{HasLearnedNote, LearnsNote, LeavesNote, one_note_more};
ghost use Rattle.at_c.specs.Shared.{AreOwned};
ghost use Rattle.at_c.specs.declared.given.Owner.{Owner};

use crate::given::{Given, LeftNote, Owner};
use crate::outcome::Outcome;
use at_files::Names;
use at_ledger::PROCESSES_MAX;
use at_object::{Ledger, Pass};
use counted_slot::{Counted, FREE, Fits, TAKEN};
use std::alloc::{AllocError, Global};
use std::marker::Model;
use std::snapshot::Snapshot;

/// A ledger, with the names of its book, a place for what the caller of each process gives back, and one for each two processes, for a
/// note from one to the other.
#[derive(Drop)]
pub struct Shared {
    pub(crate) ledger: Ledger,
    pub(crate) names: Names,
    given: Vec<Counted<Option<Given>>>,
    notes: Vec<Counted<Option<LeftNote>>>,
}

impl Model for Shared {
    ghost use Rattle.at_c.specs.Shared.{IsShared, SharedTerms};

    ghost Value = { SharedTerms };

    ghost view = { λ s. record { ledger = s.ledger; names = s.names } };

    ghost invariant = { λ s. IsShared (record { ledger = s.ledger; names = s.names })
        s.given.items s.notes.items };
}

/// Places in which nothing stands, so many for each process.
fn places_of<X: Fits<Tag = Owner> + Drop>(
    alloc: Global,
    ledger: &Ledger,
    count: u32,
    each: u32,
) -> Result<Vec<Counted<Option<X>>>, AllocError>
    requires { 0 < each }
    ensures count { IfOk result (λ places. length places.items ≡ count) }
    ensures owned { IfOk result (λ places. AreOwned ledger.now each places.items) }
{
    let mut places = Vec::with_capacity(alloc, count as usize)?;
    for i in 0..count {
        let owner = Owner {
            ledger: Snapshot::of(ledger),
            process: i / each,
            to: i % each,
        };
        places.push(Counted::new(None, &owner))?;
    }
    Ok(places)
}

impl Shared {
    /// Takes the memory of all places.
    pub(crate) fn new(alloc: Global, ledger: Ledger, names: Names) -> Result<Shared, AllocError>
        requires { AreNamesOf ledger.book names }
        ensures { IfOk result (λ s. (s.ledger ≡ ledger) × (s.names ≡ names)) }
    {
        let processes = ledger.book().processes();
        let given = places_of(alloc, &ledger, processes, 1)?;
        let notes = places_of(alloc, &ledger, PROCESSES_MAX * PROCESSES_MAX, PROCESSES_MAX)?;
        Ok(Shared {
            ledger,
            names,
            given,
            notes,
        })
    }

    /// The ledger and the names, when nothing else of it is used any more.
    pub(crate) fn into_parts(self) -> (Ledger, Names)
        ensures ledger { result.0 ≡ self.ledger }
        ensures names { result.1 ≡ self.names }
        ensures named { AreNamesOf self.ledger.book self.names }
    {
        let Shared {
            ledger,
            names,
            given: _,
            notes: _,
        } = self;
        (ledger, names)
    }

    /// What the caller of a process has given back, if it has. It isn't there any more then.
    pub(crate) fn take_given(&self, process: u32) -> Option<Given>
        requires { process < self.now.ledger.book.processes }
        ensures given { IfSome result
            (λ g. IsGivenBack self.now.ledger g.pass g.receipts.items) }
        ensures process { IfSome result (λ g. g.pass.knows.first ≡ process) }
    {
        let (found, claim) = self.given[process as usize].turn(FREE, TAKEN);
        if found != FREE {
            // Its caller is just giving it back.
            claim.done();
            return None;
        }
        claim.put(None, FREE)
    }

    /// Leaves what a caller gives back, for its process. Where another thread just reaches for the place, it comes back.
    pub(crate) fn give(&self, given: Given) -> Result<(), Given>
        requires given { IsGivenBack self.now.ledger given.pass given.receipts.items }
        requires process { given.pass.knows.first < self.now.ledger.book.processes }
        ensures { IfErr result (λ g. g ≡ given) }
    {
        let (found, claim) = self.given[given.pass.process() as usize].turn(FREE, TAKEN);
        if found != FREE {
            // Whoever closes the ledger just looks whether it is there.
            claim.done();
            return Err(given);
        }
        drop(claim.put(Some(given), FREE));
        Ok(())
    }

    /// The place for notes from one process to another.
    fn place_of(&self, from: u32, to: u32) -> &Counted<Option<LeftNote>>
        requires from { from < self.now.ledger.book.processes }
        requires to { to < self.now.ledger.book.processes }
        ensures ledger { result.now.ledger.value ≡ self.now.ledger }
        ensures process { result.now.process ≡ from }
        ensures to { result.now.to ≡ to }
    {
        self.ledger.book().known();
        &self.notes[(from * PROCESSES_MAX + to) as usize]
    }

    /// A note of what the pass has seen, for a process.
    fn noted(&self, pass: &mut Pass, to: u32) -> LeftNote
        requires { IsPassOf pass.old self.now.ledger }
        ensures ledger { IsOf result.note self.now.ledger }
        ensures process { result.note.knows.first ≡ pass.old.knows.first }
        ensures seen { result.note.knows.seen ≡ pass.old.knows.seen }
        ensures to { result.to ≡ to }
        ensures pass { pass.new ≡ one_note_more pass.old }
    {
        LeftNote {
            note: self.ledger.note(pass),
            to,
        }
    }

    /// Leaves a note of what the pass has seen for a process, in place of one that it left there before.
    pub(crate) fn note(&self, pass: &mut Pass, to: u32) -> Outcome
        requires pass { IsPassOf pass.old self.now.ledger }
        requires process { pass.old.knows.first < self.now.ledger.book.processes }
        ensures { LeavesNote self.now.ledger to pass.old pass.new result }
    {
        if to >= self.ledger.book().processes() {
            return Outcome::NoProcess;
        }
        let (found, claim) = self.place_of(pass.process(), to).turn(FREE, TAKEN);
        if found != FREE {
            // The other one just takes in what was left before.
            claim.done();
            return Outcome::Busy;
        }
        drop(claim.put(Some(self.noted(pass, to)), FREE));
        Outcome::Done
    }

    /// Takes in a note for its process, so that the pass's later calls come after all that it has seen.
    fn learned(&self, pass: &mut Pass, left: LeftNote)
        requires pass { IsPassOf pass.old self.now.ledger }
        requires note { IsOf left.note self.now.ledger }
        requires to { left.to ≡ pass.old.knows.first }
        ensures { HasLearnedNote self.now.ledger left.note pass.old pass.new }
    {
        self.ledger.learn(pass, left.note);
    }

    /// Takes in the note that a process has left for the process of the pass.
    pub(crate) fn learn(&self, pass: &mut Pass, from: u32) -> Outcome
        requires pass { IsPassOf pass.old self.now.ledger }
        requires process { pass.old.knows.first < self.now.ledger.book.processes }
        ensures { LearnsNote self.now.ledger from pass.old pass.new result }
    {
        if from >= self.ledger.book().processes() {
            return Outcome::NoProcess;
        }
        let (found, claim) = self.place_of(from, pass.process()).turn(FREE, TAKEN);
        if found != FREE {
            // The other one is just leaving its note.
            claim.done();
            return Outcome::Busy;
        }
        let Some(left) = claim.put(None, FREE) else {
            return Outcome::NoNote;
        };
        self.learned(pass, left);
        Outcome::Done
    }
}
