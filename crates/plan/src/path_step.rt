//! A step of the path of a field.
ghost use Rattle.std.specs.Prelude.{◌≡◌, IfOk, string_bytes};
ghost use Rattle.plan.specs.Samples.Site;

use explain::{Step, path_below};
use jtree::Text;
use std::alloc::{AllocError, Global};

/// A step of the path of a field.
#[derive(Drop)]
pub enum PathStep {
    /// To the field of this name.
    Field(Text),
    /// To the items of a list.
    Item,
    /// To the values of a map.
    Value,
}

impl PathStep {
    ghost use Rattle.plan.specs.Pools.PathSteps.{step_of};

    /// The text of the path of this text extended by the step. `AllocError` where an allocation fails.
    pub fn below(&self, alloc: Global, front: &str) -> Result<String, AllocError>
        ensures { IfOk result (λ s. string_bytes s ≡ Site.below front.now (step_of self.now)) }
    {
        match self {
            PathStep::Field(name) => path_below(alloc, front, Step::Field(name.as_str())),
            PathStep::Item => path_below(alloc, front, Step::Item),
            PathStep::Value => path_below(alloc, front, Step::Value),
        }
    }
}
