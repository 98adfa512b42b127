//! A counter of steps.
use std::marker::Model;

/// Counts steps: calls of a plan for a slot, an item or a candidate, whatever is answered. The count saturates at 2^64 - 1.
#[derive(Drop)]
pub struct Meter {
    steps: u64,
}

impl Model for Meter {
    ghost use Rattle.std.specs.Prelude.{ℕ, ◌<◌, ◌^◌};

    ghost Value = { ℕ };

    ghost view = { λ m. m.steps };

    ghost invariant = { λ m. m.steps < 2 ^ 64 };
}

impl Meter {
    ghost use Rattle.std.specs.Prelude.{◌≡◌};
    ghost use Rattle.plan.specs.Samples.Steps.{counted};

    /// A meter at 0.
    pub(crate) fn new() -> Meter
        ensures { result ≡ 0 }
    {
        Meter { steps: 0 }
    }

    /// The number of steps.
    pub fn steps(&self) -> u64
        ensures { result ≡ self.now }
    {
        self.steps
    }

    /// Counts one step.
    pub(crate) fn step(&mut self)
        ensures { self.new ≡ counted self.old 1 }
    {
        self.steps = self.steps.saturating_add(1);
    }
}
