//! Runs.

ghost use Rattle.std.specs.Prelude.{◌≡◌};

use crate::step::Step;
use std::marker::Model;

/// A run: the steps of all vats, in one order. Contracts see it as the list of these.
#[derive(Debug)]
pub struct Run {
    steps: Vec<Step>,
}

impl Drop for Run {
    fn drop(self) {
        let Self { steps: _ } = self;
    }
}

impl Model for Run {
    ghost use Rattle.std.specs.Prelude.{List};
    ghost use Rattle.run_model.specs.declared.step.Step.{Step};

    ghost Value = { List Step };

    ghost view = { λ run. run.steps.items };
}

impl Run {
    /// The run of these steps. It takes no memory.
    pub fn new(steps: Vec<Step>) -> Run
        ensures { result ≡ steps.items }
    {
        Run { steps }
    }

    /// The steps, in their order.
    pub fn steps(&self) -> &[Step]
        ensures { result.now ≡ self.now }
    {
        &self.steps
    }
}
