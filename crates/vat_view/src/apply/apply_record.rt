//! What one record tells all tables.

ghost use Rattle.std.specs.Prelude.{◌≡◌, ◌∷◌, true, false, length, OnOk, OnErr};
ghost use Rattle.decoded_records.specs.Past.{Past};
ghost use Rattle.vat_view.specs.Sound.{IsSound};
ghost use Rattle.vat_view.specs.Glue.CallTables.{begins_call};
ghost use Rattle.vat_view.specs.Glue.Kept.{AreKept};
ghost use Rattle.vat_view.specs.Glue.TurnTables.{IsOwnOrOld};

use crate::apply::calls::{begins_call, call_begun, step_of};
use crate::apply::tables::bind_and_count;
use crate::tables::references::BoundReferences;
use decoded_records::DecodedRecord;
use number_tables::{Calls, ExportsImports, Questions};
use std::alloc::AllocError;

/// Tells all tables of one record that begins a call, and has this number in the log. The target of the call is read
/// before the other tables change. Where memory is refused, the tables are of the records before.
fn apply_beginning(
    number: usize,
    questions: &mut Questions,
    lives: &mut ExportsImports,
    bound: &mut BoundReferences,
    calls: &mut Calls,
    event: &DecodedRecord,
) -> Result<(), AllocError>
    requires { begins_call event.now ≡ true }
    ensures ok { OnOk result
        ((before : Past) → number ≡ length before
        → AreKept before questions.old lives.old bound.old calls.old → IsSound before event.now
        → AreKept (event.now ∷ before) questions.new lives.new bound.new calls.new) }
    ensures err { OnErr result
        ((before : Past) → number ≡ length before
        → AreKept before questions.old lives.old bound.old calls.old → IsSound before event.now
        → AreKept before questions.new lives.new bound.new calls.new) }
    ensures ahead { IsOwnOrOld bound.old bound.new }
{
    let alloc = lives.allocator();
    match call_begun(bound, lives, questions, event)? {
        Some((call, progress)) => {
            calls.begin(call, progress)?;
            if bind_and_count(alloc, number, questions, lives, bound, event).is_err() {
                calls.forget(call);
                return Err(AllocError);
            }
            Ok(())
        }
        None => bind_and_count(alloc, number, questions, lives, bound, event),
    }
}

/// Tells all tables of one record that begins no call, and has this number in the log. What it tells of calls is read
/// before the other tables change. Where memory is refused, the tables are of the records before.
#[inline(always)]
fn apply_following(
    number: usize,
    questions: &mut Questions,
    lives: &mut ExportsImports,
    bound: &mut BoundReferences,
    calls: &mut Calls,
    event: &DecodedRecord,
) -> Result<(), AllocError>
    requires { begins_call event.now ≡ false }
    ensures ok { OnOk result
        ((before : Past) → number ≡ length before
        → AreKept before questions.old lives.old bound.old calls.old → IsSound before event.now
        → AreKept (event.now ∷ before) questions.new lives.new bound.new calls.new) }
    ensures err { OnErr result
        ((before : Past) → number ≡ length before
        → AreKept before questions.old lives.old bound.old calls.old → IsSound before event.now
        → AreKept before questions.new lives.new bound.new calls.new) }
    ensures ahead { IsOwnOrOld bound.old bound.new }
{
    let alloc = lives.allocator();
    let step = step_of(questions, event);
    bind_and_count(alloc, number, questions, lives, bound, event)?;
    match step {
        Some((call, change)) => calls.note(call, change),
        None => {}
    }
    Ok(())
}

/// Tells all tables of one record, which has this number in the log. Where memory is refused, the tables are of the
/// records before.
#[inline(always)]
pub(crate) fn apply_record(
    number: usize,
    questions: &mut Questions,
    lives: &mut ExportsImports,
    bound: &mut BoundReferences,
    calls: &mut Calls,
    event: &DecodedRecord,
) -> Result<(), AllocError>
    ensures ok { OnOk result
        ((before : Past) → number ≡ length before
        → AreKept before questions.old lives.old bound.old calls.old → IsSound before event.now
        → AreKept (event.now ∷ before) questions.new lives.new bound.new calls.new) }
    ensures err { OnErr result
        ((before : Past) → number ≡ length before
        → AreKept before questions.old lives.old bound.old calls.old → IsSound before event.now
        → AreKept before questions.new lives.new bound.new calls.new) }
    ensures ahead { IsOwnOrOld bound.old bound.new }
{
    if begins_call(event) {
        apply_beginning(number, questions, lives, bound, calls, event)
    } else {
        apply_following(number, questions, lives, bound, calls, event)
    }
}
