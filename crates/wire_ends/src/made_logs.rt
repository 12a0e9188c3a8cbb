//! Making the two logs.

ghost use Rattle.std.specs.Prelude.{IfOk, IfSome};
ghost use Rattle.std.specs.Arc.{arc_value};
ghost use Rattle.wire_steps.specs.Parts.{EndsFull};
ghost use Rattle.wire_ends.specs.Made.{HasMade, IsFullLog};
ghost use Rattle.wire_ends.specs.Glue.{IsMessageAt};

use crate::blame::{Blame, borrow_all, find_blame};
use crate::both_ends::{Stuck, run_both};
use crate::second_references::{EndSteps, part_references};
use crate::vat::Vat;
use bytes::Bytes;
use std::alloc::{AllocError, Global};
use std::mem;
use std::sync::Arc;
use vat_log::VatLog;
use wire_cut::{End, Lack, Overtaking, Waiting};
use wire_plan::{WirePlan, plan_wire};
use wire_steps::{EarlyEnd, EndLog, NextMessage, NoRoom, log_of};

/// The vat that sent the first file.
const VAT_OF_A: u32 = 1;

/// The vat that sent the second file.
const VAT_OF_B: u32 = 2;

/// The logs that were made.
#[derive(Drop)]
pub struct MadeLogs {
    /// The log of vat 1.
    pub log_of_a: Arc<VatLog>,
    /// The log of vat 2.
    pub log_of_b: Arc<VatLog>,
    /// All frames of both files are in both.
    pub is_whole: bool,
    /// The message at which a log ends, since the next record would list more than a record may.
    pub unlisted: Option<(End, u64)>,
    /// Which message is to blame, if the explanation stops.
    pub blame: Option<Blame>,
    /// Of each end the message that waits, and what it lacks.
    pub waiting: [Option<Waiting>; 2],
    /// Of each end the first two messages whose calls came in the other order, through two references.
    pub overtaking: [Option<Overtaking>; 2],
}

/// What came of making logs.
#[derive(Drop)]
pub enum Making {
    /// The logs.
    Made(MadeLogs),
    /// This log, of one of both ends, has as many records as a log may have, and the message would come next in it.
    Full(End, u64, Arc<VatLog>),
}

/// Sends what is blamed nevertheless, so that the audit can name it.
fn send_blamed(a: &mut Vat<'_>, b: &mut Vat<'_>, blame: Blame) -> Result<(), AllocError> {
    match blame {
        Blame::One(End::A) => a.send(),
        Blame::One(End::B) => b.send(),
        Blame::Circle => {
            borrow_all(a)?;
            borrow_all(b)
        }
    }
}

/// The message of an end that waits.
fn waiting(vat: &Vat<'_>, lack: Option<Lack>) -> Option<Waiting> {
    Some(Waiting {
        end: vat.files.end,
        message: vat.sent as u64,
        lack: lack?,
    })
}

/// What is made up of both ends.
#[derive(Drop)]
struct MadeUp {
    of_a: EndSteps,
    of_b: EndSteps,
    blame: Option<Blame>,
    waiting: [Option<Waiting>; 2],
    overtaking: [Option<Overtaking>; 2],
}

/// Which message is to blame, where nothing moves. None where all is sent, or a file has a message that isn't read and all
/// before is sent.
fn blame_of(a: &mut Vat<'_>, b: &mut Vat<'_>, stuck: Stuck) -> Result<Option<Blame>, AllocError> {
    if stuck.of_a.is_none() && stuck.of_b.is_none() {
        return Ok(None);
    }
    if a.files.is_cut(a.sent) || b.files.is_cut(b.sent) {
        return Ok(None);
    }
    Ok(Some(find_blame(a, b, stuck)?))
}

/// Lets both ends run, and receives the rest where all is sent.
fn run(a: &mut Vat<'_>, b: &mut Vat<'_>) -> Result<Stuck, AllocError> {
    let stuck = run_both(a, b)?;
    if stuck.of_a.is_none() && stuck.of_b.is_none() {
        a.receive_rest(b.sent)?;
        b.receive_rest(a.sent)?;
    }
    Ok(stuck)
}

/// What both ends, at their beginning, make up up to where nothing moves. Then what is blamed is sent, or, where nothing is yet,
/// it is found out what is to blame. They are lent, so that they are dropped in one place, whatever fails.
fn made_up(a: &mut Vat<'_>, b: &mut Vat<'_>, blamed: Option<Blame>) -> Result<MadeUp, AllocError> {
    let stuck = run(a, b)?;
    let waiting = [waiting(a, stuck.of_a), waiting(b, stuck.of_b)];
    let blame = match blamed {
        Some(known) => {
            send_blamed(a, b, known)?;
            blamed
        }
        None => blame_of(a, b, stuck)?,
    };
    Ok(MadeUp {
        of_a: a.notes.take_steps(),
        of_b: b.notes.take_steps(),
        blame,
        waiting,
        overtaking: [None, None],
    })
}

/// Makes up both ends, patient or not, where this message is to blame.
fn make_up(
    alloc: Global,
    plan: &WirePlan,
    is_patient: bool,
    blamed: Option<Blame>,
) -> Result<MadeUp, AllocError> {
    let mut a = Vat::new(alloc, End::A, plan, is_patient);
    let mut b = Vat::new(alloc, End::B, plan, is_patient);
    made_up(&mut a, &mut b, blamed)
}

/// Makes up both ends by a plan. Where a message is to blame, both are patient; and where one is then, too, neither is, and the
/// first one is to blame.
fn make_up_all(alloc: Global, plan: &WirePlan) -> Result<MadeUp, AllocError> {
    let made = make_up(alloc, plan, false, None)?;
    let blamed = made.blame;
    if blamed.is_none() {
        return Ok(made);
    }
    mem::drop(made);
    let patient = make_up(alloc, plan, true, None)?;
    if patient.blame.is_none() {
        return Ok(patient);
    }
    mem::drop(patient);
    make_up(alloc, plan, false, blamed)
}

/// Makes up both ends around the frames of both files. With one reference all calls to a target are made through it, also those
/// that overtake others.
fn make_up_frames(
    alloc: Global,
    a: &[Bytes],
    b: &[Bytes],
    one_reference: bool,
) -> Result<MadeUp, AllocError> {
    let plan = plan_wire(alloc, a, b)?;
    let mut made = make_up_all(alloc, &plan)?;
    if !one_reference {
        made.overtaking = part_references(alloc, &mut made.of_a, &mut made.of_b)?;
    }
    Ok(made)
}

/// The message of either end that comes next in an end's log.
fn message_at(end: End, next: NextMessage) -> (End, u64)
    ensures { IsMessageAt end next result }
{
    match next {
        NextMessage::Own(message) => (end, message as u64),
        NextMessage::Peers(message) => (end.other(), message as u64),
    }
}

/// Where an end's log is full: the message that would come next, of either end.
#[tactic(auto, using(crate::proofs::Full::full_before))]
fn full_at(end: End, made: &EndLog) -> Option<(End, u64)>
    requires { EndsFull made.now.early (arc_value made.now.log) }
    ensures { IfSome result
        (λ message. IsFullLog end (arc_value made.now.log) message.0 message.1) }
{
    match made.early {
        Some(
            EarlyEnd {
                next,
                why: NoRoom::Full,
            },
        ) => Some(message_at(end, next)),
        _ => None,
    }
}

/// Where an end's log ends since the next record would list more than a record may: the message that would come next.
fn unlisted_at(end: End, made: &EndLog) -> Option<(End, u64)> {
    match made.early {
        Some(
            EarlyEnd {
                next,
                why: NoRoom::Unlisted,
            },
        ) => Some(message_at(end, next)),
        _ => None,
    }
}

/// Makes the logs around the frames of both files. With one reference all calls to a target are made through it, and else those
/// that overtake others through references of their own. The only error is that memory ran out.
///
/// Of what is made up between the frames nothing is promised: the audit judges it.
#[tactic(auto, using(crate::proofs::Full::full_of_a, crate::proofs::Full::full_of_b))]
pub fn make_logs(
    alloc: Global,
    a: &[Bytes],
    b: &[Bytes],
    one_reference: bool,
) -> Result<Making, AllocError>
    ensures { IfOk result (HasMade a.now b.now) }
{
    let MadeUp {
        of_a: EndSteps {
            steps: steps_of_a,
            references: _,
        },
        of_b: EndSteps {
            steps: steps_of_b,
            references: _,
        },
        blame,
        waiting,
        overtaking,
    } = make_up_frames(alloc, a, b, one_reference)?;
    let of_a = log_of(alloc, VAT_OF_A, steps_of_a, a, b)?;
    if let Some((end, message)) = full_at(End::A, &of_a) {
        return Ok(Making::Full(end, message, of_a.log));
    }
    let of_b = log_of(alloc, VAT_OF_B, steps_of_b, b, a)?;
    if let Some((end, message)) = full_at(End::B, &of_b) {
        return Ok(Making::Full(end, message, of_b.log));
    }
    let unlisted = unlisted_at(End::A, &of_a).or(unlisted_at(End::B, &of_b));
    Ok(Making::Made(MadeLogs {
        log_of_a: of_a.log,
        log_of_b: of_b.log,
        is_whole: of_a.is_whole && of_b.is_whole,
        unlisted,
        blame,
        waiting,
        overtaking,
    }))
}
