//! Laws of runs and of what they tell of the calls of each vat.

ghost use Rattle.std.specs.Prelude.{◌≡◌, ◌↔◌, ℕ, List, reverse};
ghost use Rattle.run_model.specs.Early.{early as early_in_run};
ghost use Rattle.run_model.specs.Legal.{IsLegalRun};
ghost use Rattle.run_model.specs.Links.{IsLinkedRun};
ghost use Rattle.run_model.specs.Steps.{OneOf};
ghost use Rattle.run_model.specs.declared.step.Step.{Step};
ghost use Rattle.undelivered.specs.OfRuns.{moments_of};
ghost use Rattle.undelivered.specs.Order.{AreOnce, early};

/// Where each step of a run is legal and keeps to its link, what it tells of a vat's calls makes and delivers each of them once
/// (`once`), and a step is early in the run where it is early by what the run tells of one of the vats (`early`).
pub fn runs_break_where_their_vats_do()
    ensures once { (run : List Step) → IsLegalRun run → IsLinkedRun run → (vat : ℕ)
        → AreOnce (moments_of vat (reverse run)) }
    ensures early { (run : List Step) → IsLegalRun run → IsLinkedRun run → (place : ℕ × ℕ)
        → OneOf (λ p. p ≡ place) (early_in_run run)
        ↔ ((vat : ℕ) × OneOf (λ p. p ≡ place) (early (moments_of vat (reverse run)))) }
{}
