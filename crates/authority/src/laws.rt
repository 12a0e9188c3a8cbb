//! A law of edges, which holds of every legal run.

ghost use Rattle.std.specs.Prelude.{◌≡◌, ◌++◌, ◌∷◌, List, reverse};
ghost use Rattle.run_model.specs.Edges.{AreEdges, Edge, IsForeign};
ghost use Rattle.run_model.specs.Legal.{IsLegalRun, used_caps};
ghost use Rattle.run_model.specs.Steps.{OneOf, PastSteps, vat_of};
ghost use Rattle.run_model.specs.declared.cap.Cap.{Cap};
ghost use Rattle.run_model.specs.declared.step.Step.{Step};
ghost use Rattle.authority.specs.Explained.{IsExplained};

/// In a legal run, each capability of another vat that a step of a vat uses is a field of a call that the vat received
/// before, or has an edge of this vat from an earlier record. (A field of a call that the vat made is none of another vat's,
/// and a Receive uses nothing: what it binds is what edges tell.)
pub fn what_is_used_is_explained()
    ensures { (run : List Step) (edges : List Edge) → IsLegalRun run → AreEdges run edges
        → (later before : PastSteps) (s : Step) → reverse run ≡ later ++ s ∷ before → (a : Cap)
        → OneOf (λ b. b ≡ a) (used_caps s) → IsForeign (vat_of s) a
        → IsExplained edges before (vat_of s) a }
{}
