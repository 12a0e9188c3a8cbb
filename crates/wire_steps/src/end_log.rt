//! The log of one end, made of its steps and of the frames of both files.

ghost use Rattle.std.specs.Prelude.{◌≡◌, ◌∷◌, ◌++◌, [], Some, None, true, false, IsTrue, OnOk, IfOk, IfErr};
ghost use Rattle.std.specs.Arc.{arc_value};
ghost use Rattle.vat_log.specs.Passages.{frame_sent, frame_received, used_by};
ghost use Rattle.wire_steps.specs.Glue.{HasCome, IsEnd, IsRefused};
ghost use Rattle.wire_steps.specs.Parts.{HasParts, HasAll, EndsFull};
ghost use Rattle.wire_steps.specs.declared.end_log.NotPushed.TheVariants.{OutOfMemory};

use crate::end_steps::EndStep;
use bytes::Bytes;
use std::alloc::{AllocError, Global};
use std::sync::Arc;
use vat_log::{Body, LogError, LogWriter, Record, References, VatLog};

/// The number of the connection in both logs.
const CONNECTION: u32 = 0;

/// The log of one end.
#[derive(Drop)]
pub struct EndLog {
    /// The log.
    pub log: Arc<VatLog>,
    /// All frames of both files are in it.
    pub is_whole: bool,
    /// Where it ends, if it has no room for the next step.
    pub early: Option<EarlyEnd>,
}

/// How many frames of both files are in a log.
#[derive(Clone, Copy)]
pub struct EndCounts {
    /// Of the own file, which are sent.
    pub sent: usize,
    /// Of the other file, which are received.
    pub received: usize,
}

/// A message that would come next in a log, by its number.
#[derive(Clone, Copy)]
pub enum NextMessage {
    /// Of the own file.
    Own(usize),
    /// Of the other file.
    Peers(usize),
}

/// Why a log has no room for a step.
#[derive(Clone, Copy, PartialEq, Eq)]
pub enum NoRoom {
    /// The log has as many records as a log may have.
    Full,
    /// The step's record would list more than a record may.
    Unlisted,
}

/// Where a log ends before its steps do.
#[derive(Clone, Copy)]
pub struct EarlyEnd {
    /// The message that would come next.
    pub next: NextMessage,
    /// Why it ends.
    pub why: NoRoom,
}

/// Why a step isn't put behind the others.
#[derive(Clone, Copy)]
enum NotPushed {
    /// The log has no room for it.
    NoRoom(NoRoom),
    /// Out of memory.
    OutOfMemory,
}

impl From<AllocError> for NotPushed {
    ghost from_gives = { λ _ e. e ≡ OutOfMemory };

    fn from(_e: AllocError) -> NotPushed {
        NotPushed::OutOfMemory
    }
}

/// Puts what a record says behind the others.
fn push(writer: &mut LogWriter, body: Body) -> Result<(), NotPushed>
    ensures ok { OnOk result (writer.new.records ≡ writer.old.records ++ body ∷ []) }
    ensures err { IfErr result (IsRefused writer.old writer.new) }
    ensures vat { writer.new.vat ≡ writer.old.vat }
{
    let Ok(entry) = Record::new(body) else {
        return Err(NotPushed::NoRoom(NoRoom::Unlisted));
    };
    match writer.push(entry) {
        Ok(()) => Ok(()),
        Err((LogError::TooLong, _)) => Err(NotPushed::NoRoom(NoRoom::Full)),
        Err(_) => Err(NotPushed::OutOfMemory),
    }
}

/// Whether a record sends or receives a frame.
fn is_frame(body: &Body) -> bool
    ensures sent { result ≡ false → frame_sent 0 body.now ≡ None }
    ensures received { result ≡ false → frame_received 0 body.now ≡ None }
    ensures unused { result ≡ false → used_by body.now ≡ None }
{
    match body {
        Body::Send { .. } | Body::Receive { .. } => true,
        _ => false,
    }
}

/// SEND: the next frame of the own file, if there is one.
fn push_send(
    writer: &mut LogWriter,
    noted: (u64, References),
    own: &[Bytes],
    peer: &[Bytes],
    counts: EndCounts,
) -> Result<EndCounts, NotPushed>
    requires { HasCome own.now peer.now counts writer.old }
    ensures come { IfOk result (λ come. HasCome own.now peer.now come writer.new) }
    ensures err { IfErr result (IsRefused writer.old writer.new) }
    ensures vat { writer.new.vat ≡ writer.old.vat }
{
    let _ = peer;
    let Some(frame) = own.get(counts.sent) else {
        return Ok(counts);
    };
    let body = Body::Send {
        connection: CONNECTION,
        call: noted.0,
        references: noted.1,
        frame: frame.clone()?,
    };
    push(writer, body)?;
    Ok(EndCounts {
        sent: counts.sent + 1,
        received: counts.received,
    })
}

/// RECV: the next frame of the other file, if there is one.
fn push_receive(
    writer: &mut LogWriter,
    noted: (u64, References),
    own: &[Bytes],
    peer: &[Bytes],
    counts: EndCounts,
) -> Result<EndCounts, NotPushed>
    requires { HasCome own.now peer.now counts writer.old }
    ensures come { IfOk result (λ come. HasCome own.now peer.now come writer.new) }
    ensures err { IfErr result (IsRefused writer.old writer.new) }
    ensures vat { writer.new.vat ≡ writer.old.vat }
{
    let _ = own;
    let Some(frame) = peer.get(counts.received) else {
        return Ok(counts);
    };
    let body = Body::Receive {
        connection: CONNECTION,
        call: noted.0,
        references: noted.1,
        frame: frame.clone()?,
    };
    push(writer, body)?;
    Ok(EndCounts {
        sent: counts.sent,
        received: counts.received + 1,
    })
}

/// Puts a step behind the others.
fn push_step(
    writer: &mut LogWriter,
    step: EndStep,
    own: &[Bytes],
    peer: &[Bytes],
    counts: EndCounts,
) -> Result<EndCounts, NotPushed>
    requires { HasCome own.now peer.now counts writer.old }
    ensures come { IfOk result (λ come. HasCome own.now peer.now come writer.new) }
    ensures err { IfErr result (IsRefused writer.old writer.new) }
    ensures vat { writer.new.vat ≡ writer.old.vat }
{
    match step {
        EndStep::Note(body) => {
            if !is_frame(&body) {
                push(writer, body)?;
            }
            Ok(counts)
        }
        EndStep::Send(call, references) => push_send(writer, (call, references), own, peer, counts),
        EndStep::Receive(call, references) => push_receive(
            writer,
            (call, references),
            own,
            peer,
            counts,
        ),
    }
}

/// The message that comes next, by the step that does.
fn next_message(step: &EndStep, counts: EndCounts) -> NextMessage
    ensures { IsEnd counts result }
{
    match step {
        EndStep::Note(_) | EndStep::Send(..) => NextMessage::Own(counts.sent),
        EndStep::Receive(..) => NextMessage::Peers(counts.received),
    }
}

/// The log that has come so far, and where it ends early, if it does.
#[tactic(auto, using(crate::proofs::Coming::come_so_far, crate::proofs::Coming::come_to_the_end))]
fn ended(
    alloc: Global,
    writer: LogWriter,
    own: &[Bytes],
    peer: &[Bytes],
    counts: EndCounts,
    early: Option<EarlyEnd>,
) -> Result<EndLog, AllocError>
    requires come { HasCome own.now peer.now counts writer }
    requires full { EndsFull early writer }
    ensures parts { IfOk result (λ made. HasParts own.now peer.now (arc_value made.log)) }
    ensures whole { IfOk result (λ made. IsTrue made.is_whole → HasAll own.now peer.now (arc_value made.log)) }
    ensures vat { IfOk result (λ made. (arc_value made.log).vat ≡ writer.vat) }
    ensures full { IfOk result (λ made. EndsFull made.early (arc_value made.log)) }
{
    let is_whole = counts.sent == own.len() && counts.received == peer.len();
    match writer.finish() {
        Ok(log) => Ok(EndLog {
            log: Arc::new(alloc, log)?,
            is_whole,
            early,
        }),
        Err(_) => Err(AllocError),
    }
}

/// The log of a vat that takes these steps, with the frames of its own file and of the other one. It ends where it has no room
/// for a step. The only error is that memory ran out.
pub fn log_of(
    alloc: Global,
    vat: u32,
    steps: Vec<EndStep>,
    own: &[Bytes],
    peer: &[Bytes],
) -> Result<EndLog, AllocError>
    // Whatever the steps are, its frames are those of the two files.
    ensures parts { IfOk result (λ made. HasParts own.now peer.now (arc_value made.log)) }
    ensures whole { IfOk result (λ made. IsTrue made.is_whole → HasAll own.now peer.now (arc_value made.log)) }
    ensures vat { IfOk result (λ made. (arc_value made.log).vat ≡ vat) }
    // It is called full only where it is.
    ensures full { IfOk result (λ made. EndsFull made.early (arc_value made.log)) }
{
    let mut writer = LogWriter::later(alloc, vat);
    let mut counts = EndCounts {
        sent: 0,
        received: 0,
    };
    for step in steps {
        let next = next_message(&step, counts);
        match push_step(&mut writer, step, own, peer, counts) {
            Ok(come) => counts = come,
            Err(NotPushed::NoRoom(why)) => {
                let early = Some(EarlyEnd { next, why });
                return ended(alloc, writer, own, peer, counts, early);
            }
            Err(NotPushed::OutOfMemory) => return Err(AllocError),
        }
    }
    ended(alloc, writer, own, peer, counts, None)
}
