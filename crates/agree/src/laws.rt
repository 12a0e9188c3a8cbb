//! Laws of two logs, which hold of all of them and not of one call.

ghost use Rattle.std.specs.Prelude.{◌≡◌, ◌≤◌, ◌+◌, ◌-◌, ℕ, Bool, List, ◌∷◌, length, true, false};
ghost use Rattle.agree.specs.Types.{RpcMessage, DecodedRecord, TableKey};
ghost use Rattle.decoded_records.specs.Past.{Past, Each, id};
ghost use Rattle.decoded_records.specs.Questions.{returns, finishes};
ghost use Rattle.decoded_records.specs.Lives.{introduced_count, released_count, held, GivesBackHeld};
ghost use Rattle.decoded_records.specs.Uses.{OpensFree, UsesQuestions};
ghost use Rattle.vat_view.specs.Sound.{IsSound};
ghost use Rattle.vat_rules.specs.Judged.{IsGood};
ghost use Rattle.agree.specs.Points.{GoesOn};
ghost use Rattle.agree.specs.Streams.{stream, IsCut, IsPassed, opening_number};
ghost use Rattle.agree.specs.Rows.{Row, log_of_vat, AllBefore, IsShared};
ghost use Rattle.agree.specs.Agreeing.{AreLinked, AgreeOnOpenings, AgreeOnLate};
ghost use Rattle.agree.specs.Told.{AreTold};
ghost use Rattle.agree.specs.Alive.{alive, let_go};
ghost use Rattle.agree.specs.Lasting.{LivesFrom};
ghost use Rattle.agree.specs.Standing.{AgreeOnLives, Agree};
ghost use Rattle.agree.specs.Balance.{AreUnderWay, IsNumberBalanced};
ghost use Rattle.agree.specs.Arrival.{ArrivesWell};

/// Where two vats share a connection in an order that fits, their logs are linked (`linked`); at each point of the order
/// the two logs are at a consistent cut (`cut`). If the order takes all records of a point of one log before a record of
/// the other, then what the one received by that point the other had sent before that record (`earlier`).
pub fn shared_logs_are_linked()
    ensures linked { (k v w : ℕ) (row : Row) → IsShared k v w row
        → AreLinked k (log_of_vat v row) (log_of_vat w row) }
    ensures cut { (k v w : ℕ) (row before : Row) → IsShared k v w row → GoesOn row before
        → IsCut k (log_of_vat v before) (log_of_vat w before) }
    ensures earlier { (k v w : ℕ) (row : Row) (one other : Past) (e : DecodedRecord)
        → IsShared k v w row → GoesOn (log_of_vat v row) one → GoesOn (log_of_vat w row) (e ∷ other)
        → AllBefore v (length one) w (length other) row
        → GoesOn (stream k true other) (stream k false one) }
{}

/// Linked logs are linked at each consistent cut.
pub fn cuts_are_linked()
    ensures { (k : ℕ) (one other a b : Past) → GoesOn one a → GoesOn other b → IsCut k a b
        → AreLinked k one other → AreLinked k a b }
{}

/// The two ends of a message speak of the same openings. A question that is opened the way in which the message goes was
/// opened last by the same message at both ends (`own`). A Return belongs to one opening at both ends, where its sender
/// uses questions as it should and its receiver opens only questions that are free (`returned`); and then a Return late
/// at its sender is late at its receiver (`late`).
pub fn ends_agree_on_openings()
    ensures own { (k : ℕ) (one other : Past) → AreLinked k one other
        → (n : ℕ) (m : RpcMessage) (from to : Past) (sent received : DecodedRecord)
        → IsPassed k m one other from to sent received
        → opening_number (id k true n) from ≡ opening_number (id k false n) to }
    ensures returned { (k : ℕ) (one other : Past) → AreLinked k one other → Each UsesQuestions one
        → Each OpensFree other → AgreeOnOpenings k one other }
    ensures late { (k : ℕ) (one other : Past) → AreLinked k one other → Each UsesQuestions one
        → Each OpensFree other → AgreeOnLate k one other }
{}

/// In one log, two Returns of one opening are one record, and so are two Finishes, where the records use questions as
/// they should.
pub fn openings_end_once()
    ensures one_return { (q : TableKey) (past : Past) → Each UsesQuestions past
        → (b c : Past) (x z : DecodedRecord) → GoesOn past (x ∷ b) → GoesOn past (z ∷ c)
        → opening_number q b ≡ opening_number q c → returns q b x ≡ true → returns q c z ≡ true
        → b ≡ c }
    ensures one_finish { (q : TableKey) (past : Past) → Each UsesQuestions past
        → (b c : Past) (x z : DecodedRecord) → GoesOn past (x ∷ b) → GoesOn past (z ∷ c)
        → opening_number q b ≡ opening_number q c → finishes q b x ≡ true → finishes q c z ≡ true
        → b ≡ c }
{}

/// What was introduced of a number is alive, was given back by a Return or a Finish, or was released, where the records
/// use questions as they should (`all`). So what is held is what is alive less what was released (`held`), and this is
/// not cut off at 0 where no record gives back more than is held (`exact`).
pub fn held_is_alive()
    ensures all { (k : ℕ) (ours : Bool) (n : ℕ) (past : Past) → Each UsesQuestions past
        → introduced_count (id k ours n) past + let_go (id k ours n) past
        ≡ alive (id k ours n) past + released_count (id k ours n) past }
    ensures held { (k : ℕ) (ours : Bool) (n : ℕ) (past : Past) → Each UsesQuestions past
        → held (id k ours n) past ≡ alive (id k ours n) past - let_go (id k ours n) past }
    ensures exact { (k : ℕ) (ours : Bool) (n : ℕ) (past : Past) → Each UsesQuestions past
        → Each GivesBackHeld past
        → alive (id k ours n) past ≡ held (id k ours n) past + let_go (id k ours n) past }
{}

/// At a consistent cut whose ends speak of the same openings (`told` says when they do) the exporter of a number holds
/// it no less often than the importer does (`held`). Where the importer gives back no more than it holds, no more goes
/// at the exporter than came (`counted`).
pub fn importers_are_covered()
    ensures told { (k : ℕ) (one other : Past) → IsCut k one other → AgreeOnOpenings k one other
        → AgreeOnOpenings k other one → AreTold k one other }
    ensures held { (k n : ℕ) (exporter importer : Past) → AreTold k exporter importer
        → Each UsesQuestions exporter → Each UsesQuestions importer
        → held (id k false n) importer ≤ held (id k true n) exporter }
    ensures counted { (k n : ℕ) (exporter importer : Past) → AreTold k exporter importer
        → Each UsesQuestions exporter → Each UsesQuestions importer → Each GivesBackHeld importer
        → released_count (id k true n) exporter ≤ introduced_count (id k true n) exporter }
{}

/// While an importer holds a number that a message brought, the exporter holds it since it sent that message.
pub fn lives_are_covered()
    ensures { (k n : ℕ) (exporter importer from to : Past) (m : RpcMessage)
        (sent received : DecodedRecord) → Each UsesQuestions exporter → Each UsesQuestions importer
        → AreLinked k exporter importer → AgreeOnOpenings k exporter importer
        → AgreeOnOpenings k importer exporter → IsPassed k m exporter importer from to sent received
        → LivesFrom (id k false n) (received ∷ to) importer
        → LivesFrom (id k true n) (sent ∷ from) exporter }
{}

/// A number in life at its importer is in life at its exporter, and stands there for what the descriptor that began the
/// importer's life stood for when it was sent: at each consistent cut of two linked logs, where the exporter's records
/// are as they should be after those before them, and the importer uses questions as it should.
pub fn numbers_stand_alike()
    ensures { (k : ℕ) (one other : Past) → Each IsSound one → Each UsesQuestions other
        → AreLinked k one other → AgreeOnOpenings k one other → AgreeOnOpenings k other one
        → AgreeOnLives k one other }
{}

/// The ends of two good logs that are linked agree on openings, late Returns and lives, both ways (`agree`), and at each
/// consistent cut of them the counts of a number are balanced, either end as its exporter (`balanced`).
pub fn good_ends_agree()
    ensures agree { (k : ℕ) (one other : Past) → Each IsGood one → Each IsGood other
        → AreLinked k one other → Agree k one other }
    ensures balanced { (k : ℕ) (one other : Past) → Each IsGood one → Each IsGood other
        → AreLinked k one other → (n : ℕ) (exporter importer : Past) (there back : List RpcMessage)
        → GoesOn one exporter → GoesOn other importer → IsCut k exporter importer
        → AreUnderWay k exporter importer there → AreUnderWay k importer exporter back
        → IsNumberBalanced k n exporter importer there back }
{}

/// Of two linked logs, the exporter holds of a number what the importer holds, and what is brought by the messages under
/// way to the importer, and what is given back by those under way to the exporter.
pub fn counts_are_balanced()
    ensures { (k n : ℕ) (exporter importer : Past) (there back : List RpcMessage)
        → AreLinked k exporter importer → Each UsesQuestions exporter → Each UsesQuestions importer
        → Each OpensFree exporter → Each OpensFree importer → AreUnderWay k exporter importer there
        → AreUnderWay k importer exporter back → Each GivesBackHeld importer
        → IsNumberBalanced k n exporter importer there back }
{}

/// A message whose SEND was good is good at its RECV by QNEW, QUSE, XUSE and COUNT, where the records before it were good
/// at both ends. So of these rules a bad RECV never stands alone: the other log has a bad record at or before the SEND, or
/// the two logs aren't linked.
pub fn messages_arrive_well()
    ensures { (k : ℕ) (one other : Past) → AreLinked k one other
        → (m : RpcMessage) (from to : Past) (sent received : DecodedRecord)
        → IsPassed k m one other from to sent received → Each IsGood (sent ∷ from) → Each IsGood to
        → ArrivesWell to received }
{}
