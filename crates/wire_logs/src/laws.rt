//! What a yes means.

ghost use Rattle.std.specs.Prelude.{◌≡◌, List, ℕ};
ghost use Rattle.wire_logs.specs.Found.{IsAnswer, HasRun};
ghost use Rattle.case_report.specs.declared.wire_answer.WireAnswer.{WireAnswer};
ghost use Rattle.case_report.specs.declared.wire_line.WireLine.TheVariants.{Yes};

/// Where the answer is a yes, there are two logs, an order that fits them and a run that have all that a yes of the audit means,
/// and in which the one end sends just the whole frames of the first file, in order and byte for byte, and the other end receives
/// them, and the other way round those of the second; neither log has frames on another connection. What stands behind the whole
/// frames is no frame, and isn't one that is too long.
pub fn a_wire_that_is_explained_has_a_run()
    ensures { (a b : List ℕ) (answer : WireAnswer) (frames_of_a frames_of_b delivered : ℕ)
        → IsAnswer a b answer → answer.line ≡ Yes frames_of_a frames_of_b delivered
        → HasRun a b frames_of_a frames_of_b }
{}
