//! The stages of a walk, where each is told by one before it: so a stage takes the same memory, however many accounts there are. A level
//! that is too large to be held whole has so many stages that few others may come, so none is more than some hundred calls behind one
//! that is held.

ghost use Rattle.std.specs.Prelude.{◌≡◌, ℕ, ◌+◌, ◌-◌, ◌<◌, ◌≤◌, ◌∷◌, [], List, Ok, IfOk, OnOk, true, false, length, slice_index_or};
ghost use Rattle.at_orders.specs.declared.stage.Stage.{Stage};
ghost use Rattle.at_orders.specs.Stages.{GroundTerms, first_stage};
ghost use Rattle.at_orders.specs.Walk.{IsSeen, IsStanding, StandsFor};
ghost use Rattle.at_orders.specs.Trail.{Adds, AreKeptWhole, AreLed, HasTwin, HaveSameNumbers, IsPushed, IsTrail, TurnsOver, no_link, hash_of};

use crate::ground::Ground;
use crate::stage::Stage;
use indexmap::IndexMap;
use std::alloc::{AllocError, Global};

/// How many words the stages of a level may take to be held whole.
const HELD_WORDS: usize = 12 * 1_048_576;

/// What a stage that is held whole takes beside its balances, in words.
const STAGE_WORDS: usize = 40;

/// How a stage is come to: from which one, by the next call of which process. And the last one before it in its level that has the same
/// hash, if one has.
#[derive(Clone, Copy)]
pub(crate) struct Link {
    pub(crate) from: usize,
    pub(crate) process: u32,
    pub(crate) twin: Option<usize>,
}

/// Stages, by number: first those that are held whole, and then those that are told by one before them. Of the level that is looked at
/// and of the next one the first has this number, and of the next one the last stage with each hash is known.
#[derive(Drop)]
pub(crate) struct Trail {
    held: Vec<Stage>,
    links: Vec<Link>,
    looked: usize,
    begun: usize,
    latest: IndexMap<u64, usize>,
}

impl Trail {
    /// The first stage alone, which is a level.
    pub(crate) fn new(alloc: Global, ground: &Ground) -> Result<Trail, AllocError>
        ensures first { IfOk result (λ t. (s : Stage) × IsTrail ground.now t (s ∷ [])
            × StandsFor ground.now s (first_stage ground.now.book) × IsStanding ground.now s) }
        ensures looked { IfOk result (λ t. t.looked ≡ 0) }
        ensures begun { IfOk result (λ t. t.begun ≡ 1) }
    {
        let _known = ground.book();
        let mut held = Vec::new(alloc);
        held.push(Stage::first(alloc, ground)?)?;
        Ok(Trail {
            held,
            links: Vec::new(alloc),
            looked: 0,
            begun: 1,
            latest: IndexMap::new(alloc),
        })
    }

    /// How many stages there are.
    fn len(&self) -> usize
        ensures { result ≡ length self.now.held.items + length self.now.links.items }
    {
        self.held.len() + self.links.len()
    }

    /// The first number of the level that is looked at.
    pub(crate) fn looked(&self) -> usize
        ensures { result ≡ self.now.looked }
    {
        self.looked
    }

    /// The first number of the next level.
    pub(crate) fn begun(&self) -> usize
        ensures { result ≡ self.now.begun }
    {
        self.begun
    }

    /// How many stages of the next level there are.
    pub(crate) fn grown(&self) -> usize
        requires { (g : GroundTerms) × (stages : List Stage) × IsTrail g self.now stages }
        ensures { result + self.now.begun ≡ length self.now.held.items + length self.now.links.items }
    {
        self.len() - self.begun
    }

    /// The stage becomes the one with this number.
    pub(crate) fn recall(
        &self,
        ground: &Ground,
        i: usize,
        stage: &mut Stage,
    ) -> Result<(), AllocError>
        requires trail { (stages : List Stage) × IsTrail ground.now self.now stages }
        requires within { i < length self.now.held.items + length self.now.links.items }
        ensures { OnOk result ((stages : List Stage) (d : Stage) → IsTrail ground.now self.now stages
            → HaveSameNumbers stage.new (slice_index_or stages i d)) }
    {
        let _known = ground.book();
        if i < self.held.len() {
            return stage.set(&self.held[i]);
        }
        let link = self.links[i - self.held.len()];
        self.recall(ground, link.from, stage)?;
        let _led = stage.go_on(ground, link.process);
        Ok(())
    }

    /// The stage before it in its level with the same hash, if one has it.
    fn twin(&self, i: usize) -> Option<usize>
        requires told { length self.now.held.items ≤ i }
        requires within { i < length self.now.held.items + length self.now.links.items }
        ensures { result ≡ (slice_index_or self.now.links.items (i - length self.now.held.items) no_link).twin }
    {
        self.links[i - self.held.len()].twin
    }

    /// Whether a stage of the next level has the same numbers. The last one with this hash is looked at first.
    fn has(
        &self,
        ground: &Ground,
        hash: u64,
        stage: &Stage,
        other: &mut Stage,
    ) -> Result<bool, AllocError>
        requires trail { (stages : List Stage) × IsTrail ground.now self.now stages }
        requires hashed { hash ≡ hash_of stage.now }
        ensures found { result ≡ Ok true → (stages : List Stage) → IsTrail ground.now self.now stages
            → HasTwin stages self.now.begun stage.now }
        ensures none { result ≡ Ok false → (stages : List Stage) → IsTrail ground.now self.now stages
            → HasTwin stages self.now.begun stage.now → ⊥ }
    {
        let mut at = self.latest.get(&hash).copied();
        while let Some(i) = at {
            self.recall(ground, i, other)?;
            if *other == *stage {
                return Ok(true);
            }
            at = self.twin(i);
        }
        Ok(false)
    }

    /// One more stage of the next level.
    fn push(&mut self, from: usize, process: u32, hash: u64) -> Result<(), AllocError>
        ensures { OnOk result ((g : GroundTerms) (stages : List Stage) (s : Stage) → IsTrail g self.old stages
            → IsSeen g s → hash ≡ hash_of s → process < g.book.processes → AreLed g stages from process s
            → IsPushed g self.old self.new stages s) }
    {
        let number = self.len();
        let twin = self.latest.get(&hash).copied();
        self.links.push(Link {
            from,
            process,
            twin,
        })?;
        let Ok(_before) = self.latest.insert(hash, number) else {
            return Err(AllocError);
        };
        Ok(())
    }

    /// One more stage of the next level, if none has the same numbers. The other one is written over.
    pub(crate) fn add(
        &mut self,
        ground: &Ground,
        from: usize,
        process: u32,
        stage: &Stage,
        other: &mut Stage,
    ) -> Result<(), AllocError>
        requires trail { (stages : List Stage) × IsTrail ground.now self.old stages }
        requires seen { IsSeen ground.now stage.now }
        requires process_in { process < ground.now.book.processes }
        ensures { OnOk result ((stages : List Stage) → IsTrail ground.now self.old stages
            → AreLed ground.now stages from process stage.now
            → Adds ground.now self.old self.new stages stage.now) }
    {
        let hash = stage.hash();
        let has = self.has(ground, hash, stage, other)?;
        if has {
            return Ok(());
        }
        self.push(from, process, hash)
    }

    /// The next level is the one that is looked at. If it is small it is held whole, and all before it is let go.
    pub(crate) fn turn_over(&mut self, alloc: Global, ground: &Ground) -> Result<(), AllocError>
        requires { (stages : List Stage) × IsTrail ground.now self.old stages }
        ensures { OnOk result ((stages : List Stage) → IsTrail ground.now self.old stages
            → TurnsOver ground.now self.old self.new stages) }
    {
        let _known = ground.book();
        if self.grown() <= HELD_WORDS / (ground.named().len() + STAGE_WORDS) {
            self.hold(alloc, ground)?;
        }
        self.looked = self.begun;
        self.begun = self.len();
        self.latest = IndexMap::new(alloc);
        Ok(())
    }

    /// The next level alone, held whole.
    fn hold(&mut self, alloc: Global, ground: &Ground) -> Result<(), AllocError>
        requires { (stages : List Stage) × IsTrail ground.now self.old stages }
        ensures { OnOk result ((stages : List Stage) → IsTrail ground.now self.old stages
            → AreKeptWhole self.old.begun self.new stages) }
    {
        let mut held = Vec::with_capacity(alloc, self.grown())?;
        let mut stage = Stage::first(alloc, ground)?;
        for i in self.begun..self.len() {
            self.recall(ground, i, &mut stage)?;
            held.push(stage.copy(alloc)?)?;
        }
        self.held = held;
        self.links = Vec::new(alloc);
        self.begun = 0;
        Ok(())
    }
}
