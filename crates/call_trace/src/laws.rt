//! Laws of runs and their logs.

ghost use Rattle.std.specs.Prelude.{◌≡◌, ◌∷◌, ◌++◌, ℕ, List, [], length, take, true, false, Option, Some, IsSome, IsTrue, Contains, Bool, map, reverse};
ghost use Rattle.rpc_view.specs.declared.message.Payload.{Payload};
ghost use Rattle.vat_rules.specs.Audit.{Found};
ghost use Rattle.vat_rules.specs.Judged.{IsGood};
ghost use Rattle.vat_rules.specs.OfCaps.{is_received};
ghost use Rattle.decoded_records.specs.Past.{Past, Each, id};
ghost use Rattle.decoded_records.specs.Bindings.{Refers, is_bound, is_bound_call};
ghost use Rattle.decoded_records.specs.Calls.{is_at_vat};
ghost use Rattle.vat_view.specs.Laws.{EachAfter};
ghost use Rattle.decoded_records.specs.Lives.{is_in_life};
ghost use Rattle.decoded_records.specs.Questions.{is_unfinished, is_unreturned, call_of};
ghost use Rattle.vat_view.specs.Walks.{turns, turn, Leads, AreOne, Became};
ghost use Rattle.agree.specs.Rows.{log_of_vat, IsShared};
ghost use Rattle.agree.specs.Agreeing.{AreLinked};
ghost use Rattle.agree.specs.Streams.{IsCut, IsPassed};
ghost use Rattle.agree.specs.Standing.{AgreeOneWay, Agree};
ghost use Rattle.run_model.specs.Legal.{is_present, MayCome, HasUsed, MayBind};
ghost use Rattle.run_model.specs.Legal.{Became as RunBecame};
ghost use Rattle.run_model.specs.Early.{IsOrderFault};
ghost use Rattle.run_model.specs.Edges.{Edge, AreEdges};
ghost use Rattle.run_model.specs.Has.{Has};
ghost use Rattle.run_model.specs.Reordered.{HaveSameSteps, KeepsReferences};
ghost use Rattle.run_model.specs.declared.cap.Cap.TheVariants.{Field as FieldCap};
ghost use Rattle.run_model.specs.Leads.{Meets};
ghost use Rattle.run_model.specs.Led.{SendsLedTo};
ghost use Rattle.run_model.specs.Steps.{EachOf};
ghost use Rattle.call_trace.specs.Types.{Outcome, Return, ReturnHead, Resolution, Resolve, DecodedRecord, Wire, View, Name, Cap, Step, Target, Call, CallHead, Deliver, Answer, AnswerBy, Fault, RpcMessage, Message};
ghost use Rattle.call_trace.specs.Naming.{call_named, cap_named, naming, message_at};
ghost use Rattle.call_trace.specs.Part.{reference_named, ReadsAsSent, Says, PairsOff};
ghost use Rattle.call_trace.specs.Running.{step_of, AreMet, steps_of_row};
ghost use Rattle.run_model.specs.declared.step.Step.TheVariants.{Receive};
ghost use Rattle.call_trace.specs.Said.{all_there};
ghost use Rattle.call_trace.specs.Tells.{TurnsNames};
ghost use Rattle.call_trace.specs.Within.{IsWithin, HasNameAfter};
ghost use Rattle.call_trace.specs.Placed.{IsThere};
ghost use Rattle.call_trace.specs.Carried.{IsCarried, HasOneName};
ghost use Rattle.call_trace.specs.Findings.{AreEnds, logs_of, AreOfFirstEdition, AreTrue, MayBeNamed};
ghost use Rattle.call_trace.specs.Taking.{row_of};
ghost use Rattle.call_trace.specs.Kinds.{is_own_making};
ghost use Rattle.call_trace.specs.Named.{taken_before, AtEachPoint, AreBalanced, IsRunOf};

/// No findings and the empty order name a run, and it is empty.
pub fn no_findings_have_the_empty_run()
    ensures asked { MayBeNamed [] [] }
    ensures named { IsRunOf [] [] [] }
{}

/// Where findings are such as name a run, the row of records that the order takes holds, up to each point, just so many of
/// each log as the order's steps up to there (`logs`), each of them good (`good`); and the two ends of a connection share
/// it in that row (`shared`).
pub fn orders_take_the_logs()
    ensures logs { (findings : List Found) (order : List ℕ) → AreTrue findings
        → MayBeNamed findings order → (i : ℕ) (one : Found) → Contains findings one
        → log_of_vat one.log.vat (row_of findings (take i order)) ≡ taken_before order i one }
    ensures good { (findings : List Found) (order : List ℕ) → AreTrue findings
        → MayBeNamed findings order → (i : ℕ) (one : Found) → Contains findings one
        → Each IsGood (taken_before order i one) }
    ensures shared { (findings : List Found) (order : List ℕ) → AreTrue findings
        → MayBeNamed findings order → (k : ℕ) (one other : Found) → Contains findings one
        → Contains findings other → AreEnds (logs_of findings) k one.log other.log
        → IsShared k one.log.vat other.log.vat (row_of findings order) }
{}

/// Where findings are such as name a run, the two logs of each connection are linked at each point of the order
/// (`linked`), their ends agree (`agree`), and their counts are balanced (`balanced`).
pub fn ends_of_findings_agree()
    ensures linked { (findings : List Found) (order : List ℕ) → AreTrue findings
        → MayBeNamed findings order → AtEachPoint findings order AreLinked }
    ensures agree { (findings : List Found) (order : List ℕ) → AreTrue findings
        → MayBeNamed findings order → AtEachPoint findings order Agree }
    ensures balanced { (findings : List Found) (order : List ℕ) → AreTrue findings
        → MayBeNamed findings order → AreBalanced findings order }
{}

/// Names only grow: a call (`calls`) or a view (`caps`) that has a name after some records with their steps has that name
/// after more of them, where those keep REF.
pub fn names_only_grow()
    ensures calls { (v : ℕ) (later : List DecodedRecord) (es : Past) (added steps : List Step)
        → length later ≡ length added → EachAfter Refers later es → (c : ℕ) (name : Name)
        → call_named v es steps c ≡ Some name
        → call_named v (later ++ es) (added ++ steps) c ≡ Some name }
    ensures caps { (v : ℕ) (later : List DecodedRecord) (es : Past) (added steps : List Step)
        → length later ≡ length added → EachAfter Refers later es → (view : View) (c : Cap)
        → cap_named v es steps view ≡ Some c
        → cap_named v (later ++ es) (added ++ steps) view ≡ Some c }
{}

/// Where each record says its step, each call (`calls`) and each reference (`references`) that is bound has a name. No name
/// of a view is Nothing (`caps`).
pub fn what_is_bound_has_a_name()
    ensures calls { (v : ℕ) (es : Past) (steps : List Step) → PairsOff v es steps → (c : ℕ)
        → is_bound_call es c ≡ true → IsSome (call_named v es steps c) }
    ensures references { (v : ℕ) (es : Past) (steps : List Step) → PairsOff v es steps
        → Each Refers es → (r : ℕ) → is_bound es r ≡ true
        → IsSome (reference_named (naming v es steps) es r) }
    ensures caps { (v : ℕ) (es : Past) (steps : List Step) (view : View) (c : Cap)
        → cap_named v es steps view ≡ Some c → is_present c ≡ true }
{}

/// A number in life at its importer stands for one cap at both ends: at a consistent cut of two logs that agree, where the
/// exporter's records say their steps and keep REF, and what it sent is received in the run as it was sent.
pub fn numbers_have_one_name()
    ensures { (k n v w : ℕ) (exporter importer : Past) (its_steps importer_steps : List Step)
        → PairsOff v exporter its_steps → Each Refers exporter → IsCut k exporter importer
        → AgreeOneWay k exporter importer → IsCarried k exporter its_steps importer importer_steps
        → is_in_life (id k false n) importer ≡ true
        → HasOneName k n v exporter its_steps w importer importer_steps }
{}

/// Where a record turns a view that has a name to another view, its step turns the one's name to the other's, or receives a
/// message that says that it became that.
pub fn turns_are_told()
    ensures { (v : ℕ) (es : Past) (steps : List Step) (e : DecodedRecord) (s : Step) (a b : View)
        (x : Cap) → Says v es steps e s → turn a es e ≡ Some (turns b)
        → cap_named v (e ∷ es) (s ∷ steps) a ≡ Some x
        → TurnsNames (naming v (e ∷ es) (s ∷ steps)) a b s }
{}

/// Where a log is paired with its vat's steps of a run so far, and each step of the run is legal and keeps to its link, a
/// view that has a name leads to views that have names, and in the run its name is one with theirs (`leads`). So the names of
/// two views that are one are one in the run (`ones`), and where a view became another, its name became the other's
/// (`became`).
pub fn views_meet_in_the_run()
    ensures leads { (v : ℕ) (es : Past) (steps before : List Step) → IsWithin v es steps before
        → (a b : View) (x : Cap) → Leads es a b → cap_named v es steps a ≡ Some x
        → HasNameAfter (naming v es steps) (Meets before) x b }
    ensures ones { (v : ℕ) (es : Past) (steps before : List Step) → IsWithin v es steps before
        → (a b : View) (x y : Cap) → AreOne es a b → cap_named v es steps a ≡ Some x
        → cap_named v es steps b ≡ Some y → Meets before x y }
    ensures became { (v : ℕ) (es : Past) (steps before : List Step) → IsWithin v es steps before
        → (a b : View) (x y : Cap) → Became es a b → cap_named v es steps a ≡ Some x
        → cap_named v es steps b ≡ Some y → RunBecame before x y }
{}

/// In the run a vat has what its log binds: the cap of each reference (`references`), and each field of each call that has a
/// name (`fields`).
pub fn what_is_bound_is_had()
    ensures references { (v : ℕ) (es : Past) (steps before : List Step) → IsWithin v es steps before
        → (r : ℕ) → is_bound es r ≡ true → (c : Cap)
        × (reference_named (naming v es steps) es r ≡ Some c) × Has before v c }
    ensures fields { (v : ℕ) (es : Past) (steps before : List Step) → IsWithin v es steps before
        → (c : ℕ) (name : Name) → call_named v es steps c ≡ Some name → (path : List ℕ)
        → Has before v (FieldCap name path) }
{}

/// What a vat makes by itself may come in the run, where its record is good: a vat ends only promises that it vowed, each
/// once, and a call that it makes or boots is its own, and new. Nothing is asked of the rest.
pub fn own_steps_may_come()
    ensures { (v : ℕ) (es : Past) (steps before : List Step) (e : DecodedRecord) (s : Step)
        → IsWithin v es steps before → IsGood es e → IsTrue (is_own_making e) → Says v es steps e s
        → MayCome before s }
{}

/// Where a log is paired with its vat's steps of a run so far, and its records are good, a further good record that isn't
/// received takes a step and says it: all that it names has a name.
pub fn what_is_named_has_a_name()
    ensures { (v : ℕ) (es : Past) (steps before : List Step) (e : DecodedRecord)
        → IsWithin v es steps before → Each IsGood es → IsGood es e → is_received e ≡ false
        → (s : Step) × (step_of v es steps before e ≡ Some s) × Says v es steps e s }
{}

/// Where a log is paired with its vat's steps of a run so far, and its records are good, the vat has each cap that the step of
/// a further good record uses.
pub fn what_is_used_is_had()
    ensures { (v : ℕ) (es : Past) (steps before : List Step) (e : DecodedRecord) (s : Step)
        → IsWithin v es steps before → Each IsGood es → IsGood es e → Says v es steps e s
        → HasUsed before s }
{}

/// Where a log is paired with its vat's steps of a run so far, and its records are good, the step of a further good record
/// that sends a Return (`returned`) or a Resolve (`resolved`) may come. So a call was answered or passed back before its
/// results are sent, and they became what is given, as a promise became what it is resolved to; and the call whose results a
/// Return takes is the one by which the call that it returns was answered, or is that call, and this vat sent it on.
pub fn returns_follow_answers()
    ensures returned { (v : ℕ) (es : Past) (steps before : List Step) → IsWithin v es steps before
        → Each IsGood es → (k c : ℕ) (references : List ℕ) (head : ReturnHead)
        (outcome : Outcome) (s : Step)
        → IsGood es (Wire true k c references (Return head outcome))
        → Says v es steps (Wire true k c references (Return head outcome)) s
        → MayCome before s }
    ensures resolved { (v : ℕ) (es : Past) (steps before : List Step) → IsWithin v es steps before
        → Each IsGood es → (k c : ℕ) (references : List ℕ) (n : ℕ) (resolution : Resolution)
        (s : Step) → IsGood es (Wire true k c references (Resolve n resolution))
        → Says v es steps (Wire true k c references (Resolve n resolution)) s → MayCome before s }
{}

/// In the run a call is where a good log has it: a call that is at the vat by the log has a name, and the call of that name
/// is at that vat, and asks there for what the log says.
pub fn calls_are_where_logs_have_them()
    ensures { (v : ℕ) (es : Past) (steps before : List Step) → IsWithin v es steps before
        → Each IsGood es → (c : ℕ) → is_at_vat c es ≡ true → IsThere v es steps before c }
{}

/// A call goes where its goal leads in the run too: where a good record of a good log delivers a call (`delivered`) or sends
/// it on (`sent`), the step that it says may come.
pub fn calls_go_where_they_lead()
    ensures delivered { (v : ℕ) (es : Past) (steps before : List Step) (c object : ℕ) (s : Step)
        → IsWithin v es steps before → Each IsGood es → IsGood es (Deliver c object)
        → Says v es steps (Deliver c object) s → MayCome before s }
    ensures sent { (v : ℕ) (es : Past) (steps before : List Step) (k c : ℕ) (references : List ℕ)
        (head : CallHead) (target : Target) (params : Payload) (s : Step)
        → IsWithin v es steps before → Each IsGood es
        → IsGood es (Wire true k c references (Call head target params))
        → Says v es steps (Wire true k c references (Call head target params)) s
        → MayCome before s }
{}

/// A call is answered or faulted once in the run, where the record is good: it is answered (`answered`) at the vat at which
/// it was delivered or its Bootstrap received, and no path has two results; it is answered by another call (`handed_on`)
/// there, and that call came to the vat; it is faulted (`faulted`) there or where it is.
pub fn calls_are_settled_once()
    ensures answered { (v : ℕ) (es : Past) (steps before : List Step) (c : ℕ)
        (results : List (ℕ × List ℕ)) (s : Step) → IsWithin v es steps before → Each IsGood es
        → IsGood es (Answer c results) → Says v es steps (Answer c results) s → MayCome before s }
    ensures handed_on { (v : ℕ) (es : Past) (steps before : List Step) (c by : ℕ) (s : Step)
        → IsWithin v es steps before → Each IsGood es → IsGood es (AnswerBy c by)
        → Says v es steps (AnswerBy c by) s → MayCome before s }
    ensures faulted { (v : ℕ) (es : Past) (steps before : List Step) (c : ℕ) (s : Step)
        → IsWithin v es steps before → Each IsGood es → IsGood es (Fault c)
        → Says v es steps (Fault c) s → MayCome before s }
{}

/// A question has one call name at both ends of a message: a question of its sender's that hasn't had its Finish where the
/// message comes (`asked`), and the question that a Return answers (`answered`).
pub fn questions_have_one_call()
    ensures asked { (k v w : ℕ) (one : Past) (its_steps : List Step) (other : Past)
        (steps : List Step) (m : RpcMessage) (from : Past) (sent e : DecodedRecord)
        → AreMet k v one its_steps w other steps → AreLinked k one (e ∷ other) → IsGood other e
        → IsPassed k m one (e ∷ other) from other sent e → (q c : ℕ) (name : Name)
        → is_unfinished (id k false q) other ≡ true → call_of (id k true q) from ≡ Some c
        → call_named v one its_steps c ≡ Some name
        → (d : ℕ) × (call_of (id k false q) other ≡ Some d)
        × (call_named w other steps d ≡ Some name) }
    ensures answered { (k v w : ℕ) (one : Past) (its_steps : List Step) (other : Past)
        (steps : List Step) (m : RpcMessage) (from : Past) (sent e : DecodedRecord)
        → AreMet k v one its_steps w other steps → AreLinked k one (e ∷ other) → IsGood other e
        → IsPassed k m one (e ∷ other) from other sent e
        → (head : ReturnHead) (outcome : Outcome) (c : ℕ) (name : Name)
        → m ≡ Return head outcome → is_unreturned (id k true head.answer) other ≡ true
        → call_of (id k false head.answer) from ≡ Some c → call_named v one its_steps c ≡ Some name
        → (d : ℕ) × (call_of (id k true head.answer) other ≡ Some d)
        × (call_named w other steps d ≡ Some name) }
{}

/// Where two logs met, and the one's next record receives a message that the other sent, the references noted beside it have
/// names, those of the caps that the message brings, and the receipt may bind these.
pub fn receipts_bind_what_is_brought()
    ensures { (k v w c : ℕ) (one : Past) (its_steps : List Step) (other : Past) (steps : List Step)
        (references : List ℕ) (m : RpcMessage) (from : Past) (sent : DecodedRecord)
        (message : Message) → AreMet k v one its_steps w other steps
        → AreLinked k one (Wire false k c references m ∷ other)
        → IsGood other (Wire false k c references m)
        → IsPassed k m one (Wire false k c references m ∷ other) from other sent
        (Wire false k c references m) → message_at (length from) its_steps ≡ Some message
        → (bound : List Cap)
        × (all_there (map
        (reference_named
        (naming w (Wire false k c references m ∷ other) (Receive w k message [] ∷ steps))
        (Wire false k c references m ∷ other)) references) ≡ Some bound) × MayBind message bound }
{}

/// A receiver reads a message as it was sent, by its own log. It may leave two things unread: the results and caps of a
/// Return that is late there, and the promise of a Resolve whose number is out of life there. Whose results a Return takes
/// that was late where it was sent, was left unsaid there.
pub fn messages_are_read_as_sent()
    ensures { (k v w c : ℕ) (one : Past) (its_steps : List Step) (other : Past) (steps : List Step)
        (references : List ℕ) (m : RpcMessage) (from : Past) (sent : DecodedRecord)
        (message : Message) (bound : List Cap) → AreMet k v one its_steps w other steps
        → AreLinked k one (Wire false k c references m ∷ other)
        → IsGood other (Wire false k c references m)
        → IsPassed k m one (Wire false k c references m ∷ other) from other sent
        (Wire false k c references m) → message_at (length from) its_steps ≡ Some message
        → ReadsAsSent (naming w (Wire false k c references m ∷ other)
        (Receive w k message bound ∷ steps)) other (Wire false k c references m) message }
{}

/// Good findings have a run: where findings are such as name a run, each record of the row that the order takes has its step,
/// and these steps are a run of the machine over first-in first-out links, of which the logs are the parts; in it each call
/// reached the object that it was to go to, each capability that a vat uses is one that it has, each number was used in its
/// life, and the counts of both ends balance.
pub fn good_findings_have_a_run()
    ensures { (findings : List Found) (order : List ℕ) → AreTrue findings
        → MayBeNamed findings order → (before : List Step)
        × (steps_of_row (row_of findings order) ≡ Some before)
        × IsRunOf findings order (reverse before) }
{}

/// Findings have one run by an order (`one`): in it each record of the row that the order takes has its step (`row`).
pub fn findings_have_one_run()
    ensures row { (findings : List Found) (order : List ℕ) → AreTrue findings
        → MayBeNamed findings order → (run : List Step) → IsRunOf findings order run
        → steps_of_row (row_of findings order) ≡ Some (reverse run) }
    ensures one { (findings : List Found) (order : List ℕ) → AreTrue findings
        → MayBeNamed findings order → (run other_run : List Step) → IsRunOf findings order run
        → IsRunOf findings order other_run → run ≡ other_run }
{}

/// A vat whose log is of version 3 may send what is one with a call's goal, a result or a promise. Where all logs are of
/// versions 1 and 2, each step of their run sends what is led to: a call's goal leads to the target of each Call that is sent,
/// a result and a promise lead by 1 or more turns to what a Return or Resolve gives, and the call of a Return that takes the
/// results of another was answered by that one. It isn't so of the vats of such logs in a run of logs of all versions.
pub fn first_editions_lead()
    ensures { (findings : List Found) (order : List ℕ) → AreTrue findings
        → MayBeNamed findings order → AreOfFirstEdition findings → (run : List Step)
        → IsRunOf findings order run → EachOf SendsLedTo run }
{}

/// In the runs of the same findings by two orders each vat has the same steps (`steps`). In such a run each reference of a vat
/// stands for one cap (`references`).
pub fn orders_give_the_same_steps()
    ensures steps { (findings : List Found) (order other : List ℕ) → AreTrue findings
        → MayBeNamed findings order → MayBeNamed findings other → (run other_run : List Step)
        → IsRunOf findings order run → IsRunOf findings other other_run
        → HaveSameSteps run other_run }
    ensures references { (findings : List Found) (order : List ℕ) → AreTrue findings
        → MayBeNamed findings order → (run : List Step) → IsRunOf findings order run
        → KeepsReferences run }
{}

/// Which order it is doesn't matter: the runs of the same findings by two orders have the same order fault, or none
/// (`fault`), and the same edges (`edges`).
pub fn orders_give_one_fault()
    ensures fault { (findings : List Found) (order other : List ℕ) → AreTrue findings
        → MayBeNamed findings order → MayBeNamed findings other → (run other_run : List Step)
        → IsRunOf findings order run → IsRunOf findings other other_run
        → (place other_place : Option (ℕ × ℕ)) → IsOrderFault run place
        → IsOrderFault other_run other_place → place ≡ other_place }
    ensures edges { (findings : List Found) (order other : List ℕ) → AreTrue findings
        → MayBeNamed findings order → MayBeNamed findings other → (run other_run : List Step)
        → IsRunOf findings order run → IsRunOf findings other other_run
        → (edges other_edges : List Edge) → AreEdges run edges → AreEdges other_run other_edges
        → edges ≡ other_edges }
{}
