//! The steps of each vat, counted.

ghost use Rattle.std.specs.Prelude.{◌≡◌, ◌+◌, ◌<◌, ◌^◌, ◌==◌, if◌then◌else◌, ℕ, OnOk, OnErr, IfOk};
ghost use Rattle.run_model.specs.StepNumbers.{step_count};

use std::alloc::{AllocError, Global};
use std::collections::BTreeMap;
use std::marker::Model;

/// How many steps of each vat were counted. Contracts see it as a list of vats, each with its number
/// (`specs/StepNumbers.antt`).
#[derive(Drop)]
pub struct StepNumbers {
    entries: BTreeMap<u32, u64>,
}

impl Model for StepNumbers {
    ghost use Rattle.std.specs.Prelude.{ℕ, List};

    ghost Value = { List (ℕ × ℕ) };

    ghost view = { λ numbers. numbers.entries.entries };
}

impl StepNumbers {
    /// No step was counted. It takes no memory.
    pub fn new(alloc: Global) -> StepNumbers
        ensures { (vat : ℕ) → step_count result vat ≡ 0 }
    {
        StepNumbers {
            entries: BTreeMap::new(alloc),
        }
    }

    /// Counts a step of this vat, and answers how many of its steps were counted before. The only error is that memory ran
    /// out: nothing is counted then.
    pub fn count(&mut self, vat: u32) -> Result<u64, AllocError>
        // No number is full.
        requires { step_count self.old vat + 1 < 2 ^ 64 }
        ensures answer { IfOk result (λ number. number ≡ step_count self.old vat) }
        ensures counts { OnOk result
            ((v : ℕ) → step_count self.new v ≡ step_count self.old v + (if vat == v then 1 else 0)) }
        ensures err { OnErr result (self.new ≡ self.old) }
    {
        match self.entries.get_mut(&vat) {
            Some(count) => {
                let number = *count;
                *count += 1;
                Ok(number)
            }
            None => {
                self.entries.insert(vat, 1)?;
                Ok(0)
            }
        }
    }
}
