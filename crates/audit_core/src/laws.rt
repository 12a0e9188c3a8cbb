//! Laws of reports.

ghost use Rattle.std.specs.Prelude.{◌≡◌, List, ℕ, Option, None, Bool, map, if◌then◌else◌};
ghost use Rattle.merge_order.specs.Fits.{IsFitting};
ghost use Rattle.run_model.specs.Edges.{AreEdges, Edge};
ghost use Rattle.run_model.specs.Led.{SendsLedTo};
ghost use Rattle.run_model.specs.Steps.{EachOf};
ghost use Rattle.run_model.specs.declared.step.Step.{Step};
ghost use Rattle.call_trace.specs.Findings.{logs_of, MayBeNamed};
ghost use Rattle.case_book.specs.Books.{AllFound};
ghost use Rattle.case_book.specs.Case.{Contents, IsCase};
ghost use Rattle.case_book.specs.Ties.{tie_fault_of};
ghost use Rattle.audit_core.specs.Headline.{Explains};
ghost use Rattle.audit_core.specs.Report.{IsReport, IsGoodCase, IsFittingIfGiven, line_in, AreGoodFindings};
ghost use Rattle.audit_core.specs.Versions.{AreSameButVersions, IsOfFirstEdition, with_raised};
ghost use Rattle.vat_log.specs.Log.{Log};
ghost use Rattle.vat_log.specs.Migrated.{migrated};
ghost use Rattle.case_report.specs.declared.report.Report.{Report};
ghost use Rattle.case_report.specs.declared.report.Report.TheVariants.{Yes};

/// A case that ties up has one line, by whatever order that fits, and where none is given: which order it is doesn't matter.
/// A yes by another order has a run with the steps in another order.
pub fn a_case_has_one_line()
    ensures { (held : Contents) → IsCase held → tie_fault_of held ≡ None
        → (given other_given : Option (List ℕ)) → IsFittingIfGiven held.logs given
        → IsFittingIfGiven held.logs other_given → (one other : Report) → IsReport held given one
        → IsReport held other_given other → line_in one ≡ line_in other }
{}

/// Of a case that ties up two reports are equal, with their runs, where the same order is given or none is: also where the
/// order that is given doesn't fit (`same`). By an order that fits, one run explains the logs (`runs`).
pub fn a_case_has_one_report()
    ensures same { (held : Contents) → IsCase held → tie_fault_of held ≡ None
        → (given : Option (List ℕ)) → (one other : Report) → IsReport held given one
        → IsReport held given other → one ≡ other }
    ensures runs { (held : Contents) → IsCase held → tie_fault_of held ≡ None → IsGoodCase held
        → (order : List ℕ) → IsFitting held.logs order → (run other : List Step)
        → Explains held.logs order run → Explains held.logs order other → run ≡ other }
{}

/// A case that ties up has one graph: the runs of two yeses for it, by whatever orders that fit, have the same edges, in the same
/// order.
pub fn a_case_has_one_graph()
    ensures { (held : Contents) → IsCase held → tie_fault_of held ≡ None → (given other_given : Option (List ℕ))
        → (vats records delivered under_way other_vats other_records other_delivered other_under_way : ℕ) (run other_run : List Step)
        → IsReport held given (Yes vats records delivered under_way run)
        → IsReport held other_given (Yes other_vats other_records other_delivered other_under_way other_run)
        → (edges other_edges : List Edge) → AreEdges run edges → AreEdges other_run other_edges → edges ≡ other_edges }
{}

/// The findings of a case that are good name a run, by any order that fits: two of its logs at most use each connection, and
/// either received there the beginning of what the other sent.
pub fn good_findings_name_a_run()
    ensures { (all : AllFound) (order : List ℕ) → AreGoodFindings all
        → IsFitting (logs_of all.vats) order → MayBeNamed all.vats order }
{}

/// Migrating changes nothing. Of two cases whose logs are the same once they are migrated, as a case and the case with any
/// of its logs migrated, both tie up or neither does, for the same reason, and each report of the one is a report of
/// the other, with its run. So where both have a report of the same given order, or of none, the two are equal (`same`),
/// and so are their graphs.
pub fn versions_change_nothing()
    ensures ties { (held other : Contents) → AreSameButVersions held other
        → tie_fault_of held ≡ tie_fault_of other }
    ensures reports { (held other : Contents) → AreSameButVersions held other
        → (given : Option (List ℕ)) (report : Report) → IsReport held given report
        → IsReport other given report }
    ensures same { (held other : Contents) → AreSameButVersions held other → IsCase held
        → tie_fault_of held ≡ None → (given : Option (List ℕ)) → (one two : Report)
        → IsReport held given one → IsReport other given two → one ≡ two }
    ensures graphs { (held other : Contents) → AreSameButVersions held other → IsCase held
        → tie_fault_of held ≡ None → (given : Option (List ℕ))
        → (vats records delivered under_way other_vats other_records other_delivered other_under_way : ℕ)
        (run other_run : List Step)
        → IsReport held given (Yes vats records delivered under_way run)
        → IsReport other given
        (Yes other_vats other_records other_delivered other_under_way other_run)
        → (edges other_edges : List Edge) → AreEdges run edges → AreEdges other_run other_edges
        → edges ≡ other_edges }
    // Migrating any logs of a case changes versions alone.
    ensures chosen { (held : Contents) (is_chosen : Log → Bool) → AreSameButVersions held
        (record held { logs = map (λ log. if is_chosen log then migrated log else log) held.logs }) }
{}

/// A log that is raised is judged by the later edition of rpc.capnp, which lets more pass. So where a case says yes, it
/// says the same yes with any of its logs raised: by the same order and with the same run. Then every report of the raised
/// case is that yes (`same`), and its graph is the same.
pub fn raising_keeps_a_yes()
    ensures ties { (held : Contents) (is_chosen : Log → Bool)
        → tie_fault_of held ≡ tie_fault_of (with_raised is_chosen held) }
    ensures reports { (held : Contents) (is_chosen : Log → Bool) (given : Option (List ℕ))
        (vats records delivered under_way : ℕ) (run : List Step)
        → IsReport held given (Yes vats records delivered under_way run)
        → IsReport (with_raised is_chosen held) given
        (Yes vats records delivered under_way run) }
    ensures same { (held : Contents) (is_chosen : Log → Bool) → IsCase held
        → tie_fault_of held ≡ None → (given : Option (List ℕ))
        → (vats records delivered under_way : ℕ) (run : List Step) (other : Report)
        → IsReport held given (Yes vats records delivered under_way run)
        → IsReport (with_raised is_chosen held) given other
        → Yes vats records delivered under_way run ≡ other }
    ensures graphs { (held : Contents) (is_chosen : Log → Bool) → IsCase held
        → tie_fault_of held ≡ None → (given : Option (List ℕ))
        → (vats records delivered under_way other_vats other_records other_delivered other_under_way : ℕ)
        (run other_run : List Step)
        → IsReport held given (Yes vats records delivered under_way run)
        → IsReport (with_raised is_chosen held) given
        (Yes other_vats other_records other_delivered other_under_way other_run)
        → (edges other_edges : List Edge) → AreEdges run edges → AreEdges other_run other_edges
        → edges ≡ other_edges }
{}

/// A yes for logs that are all of versions 1 and 2 says more: each step of its run sends what is led to, and not only what
/// is one with it ([`call_trace::first_editions_lead`]).
pub fn a_yes_of_first_editions_leads()
    ensures { (held : Contents) → IsCase held → tie_fault_of held ≡ None → IsOfFirstEdition held
        → (given : Option (List ℕ)) (vats records delivered under_way : ℕ) (run : List Step)
        → IsReport held given (Yes vats records delivered under_way run)
        → EachOf SendsLedTo run }
{}
