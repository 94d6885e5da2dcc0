//! What a seat counts of its own steps.

ghost use Rattle.std.specs.Prelude.{◌≡◌};
ghost use Rattle.at_board.specs.Counting.{raised};

/// How many steps were made, and how many of them were exchanges. At its largest number each stays. Only this crate makes one
/// and counts on it, so that no step of a seat is left out.
#[derive(Drop)]
pub(crate) struct StepCounts {
    pub(crate) steps: u64,
    pub(crate) exchanges: u64,
}

impl StepCounts {
    /// None was made yet.
    pub(crate) fn none() -> StepCounts
        ensures steps { result.steps ≡ 0 }
        ensures exchanges { result.exchanges ≡ 0 }
    {
        StepCounts {
            steps: 0,
            exchanges: 0,
        }
    }

    /// One more step is made, a load or a store.
    pub(crate) fn count_step(&mut self)
        ensures steps { self.new.steps ≡ raised self.old.steps 1 }
        ensures exchanges { self.new.exchanges ≡ self.old.exchanges }
    {
        self.steps = self.steps.saturating_add(1);
    }

    /// One more step is made, an exchange.
    pub(crate) fn count_exchange(&mut self)
        ensures steps { self.new.steps ≡ raised self.old.steps 1 }
        ensures exchanges { self.new.exchanges ≡ raised self.old.exchanges 1 }
    {
        self.count_step();
        self.exchanges = self.exchanges.saturating_add(1);
    }
}
