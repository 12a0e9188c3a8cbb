//! Reading a frame's message in the short form.

use crate::content::digest_of;
use crate::groups::Groups;
use crate::message::{Aim, Entry, Kind, Named, Planned, PlannedCall, PlannedReturn, ReturnKind};
use crate::paths::Paths;
use bytes::Bytes;
use cap_frame::{Frame, Path};
use rpc_view::{
    Descriptor, Edition, Limits, Loopback, Outcome, Payload, Resolution, ReturnHead, RpcMessage,
    Target, ViewError, read_message,
};
use std::alloc::{AllocError, Global};

/// What is made use of while messages are read.
#[derive(Drop)]
struct Reading<'a> {
    alloc: Global,
    paths: &'a mut Paths,
    groups: &'a mut Groups,
}

impl Reading<'_> {
    /// A result of a question.
    fn result(&mut self, question: u32, path: &Path) -> Result<Aim, AllocError> {
        Ok(Aim::Answer(question, self.paths.number(self.alloc, path)?))
    }

    /// What a message is meant for.
    fn aim(&mut self, target: &Target) -> Result<Aim, AllocError> {
        match target {
            Target::Imported(number) => Ok(Aim::Import(*number)),
            Target::Promised(question, path) => self.result(*question, path),
        }
    }

    /// An entry of a table.
    fn entry(&mut self, descriptor: &Descriptor) -> Result<Entry, AllocError> {
        Ok(match descriptor {
            Descriptor::NoCap => Entry::NoCap,
            Descriptor::SenderHosted(number) => Entry::Hosted(*number),
            Descriptor::SenderPromise(number) => {
                Entry::Promised(*number, self.groups.introduced(*number)?)
            }
            Descriptor::ReceiverHosted(number) => Entry::Receivers(Aim::Import(*number)),
            Descriptor::ReceiverAnswer(question, path) => {
                Entry::Receivers(self.result(*question, path)?)
            }
        })
    }

    /// A table.
    fn table(&mut self, payload: &Payload) -> Result<Vec<Entry>, AllocError> {
        let mut table = Vec::new(self.alloc);
        for descriptor in payload.descriptors.as_slice() {
            table.push(self.entry(descriptor)?)?;
        }
        Ok(table)
    }

    /// Where a content has capabilities.
    fn fields(&mut self, payload: &Payload) -> Result<Vec<Named>, AllocError> {
        let mut fields = Vec::new(self.alloc);
        for (path, index) in payload.fields.as_slice() {
            fields.push(Named {
                path: self.paths.number(self.alloc, path)?,
                index: *index,
            })?;
        }
        Ok(fields)
    }

    /// A message with the payload that it has.
    fn with_payload(&mut self, kind: Kind, payload: &Payload) -> Result<Planned, AllocError> {
        Ok(Planned {
            kind,
            table: self.table(payload)?,
            fields: self.fields(payload)?,
        })
    }

    /// A message without a payload.
    fn bare(&self, kind: Kind) -> Planned {
        Planned {
            kind,
            table: Vec::new(self.alloc),
            fields: Vec::new(self.alloc),
        }
    }

    /// A Resolve, the frame of this place.
    fn resolve(
        &mut self,
        place: usize,
        promise: u32,
        resolution: &Resolution,
    ) -> Result<Planned, AllocError> {
        let mut table = Vec::new(self.alloc);
        if let Resolution::Cap(descriptor) = resolution {
            table.push(self.entry(descriptor)?)?;
        }
        Ok(Planned {
            kind: Kind::Resolve(promise, self.groups.resolved(promise, place)),
            table,
            fields: Vec::new(self.alloc),
        })
    }

    /// A Return.
    fn answer(&mut self, head: ReturnHead, outcome: &Outcome) -> Result<Planned, AllocError> {
        let results = match outcome {
            Outcome::Results(_) => ReturnKind::There,
            Outcome::Exception => ReturnKind::Exception,
            Outcome::Canceled => ReturnKind::Canceled,
            Outcome::Elsewhere => ReturnKind::Elsewhere,
            Outcome::TakeFrom(question) => ReturnKind::TakenFrom(*question),
        };
        let kind = Kind::Return(PlannedReturn {
            answer: head.answer,
            release: head.release_param_caps,
            results,
            light: head.light,
        });
        match outcome {
            Outcome::Results(payload) => self.with_payload(kind, payload),
            _ => Ok(self.bare(kind)),
        }
    }

    /// A Call, in a frame of so many words.
    fn call(
        &mut self,
        frame: &Frame,
        words: u64,
        message: &RpcMessage,
    ) -> Result<Planned, AllocError> {
        let RpcMessage::Call {
            head,
            target,
            params,
        } = message
        else {
            return Ok(self.bare(Kind::Unread));
        };
        let kind = Kind::Call(PlannedCall {
            question: head.question,
            aim: self.aim(target)?,
            digest: digest_of(self.alloc, frame, words, head.interface, head.method)?,
            interface: head.interface,
            method: head.method,
            yourself: head.yourself,
        });
        self.with_payload(kind, params)
    }

    /// A Disembargo.
    fn disembargo(
        &mut self,
        number: u32,
        loopback: Loopback,
        target: &Target,
    ) -> Result<Planned, AllocError> {
        let aim = self.aim(target)?;
        Ok(self.bare(match loopback {
            Loopback::Sender => Kind::Loopback(number, aim),
            Loopback::Receiver => Kind::Echo(number, aim),
        }))
    }

    /// The message of a frame at this place.
    fn planned(
        &mut self,
        frame: &Frame,
        words: u64,
        place: usize,
        message: &RpcMessage,
    ) -> Result<Planned, AllocError> {
        match message {
            RpcMessage::Bootstrap { question } => Ok(self.bare(Kind::Bootstrap(*question))),
            RpcMessage::Call { .. } => self.call(frame, words, message),
            RpcMessage::Return { head, outcome } => self.answer(*head, outcome),
            RpcMessage::Finish {
                question,
                release_result_caps,
            } => Ok(self.bare(Kind::Finish(*question, *release_result_caps))),
            RpcMessage::Resolve {
                promise,
                resolution,
            } => self.resolve(place, *promise, resolution),
            RpcMessage::Release { id, count } => Ok(self.bare(Kind::Release(*id, *count))),
            RpcMessage::Disembargo {
                number,
                loopback,
                target,
            } => self.disembargo(*number, *loopback, target),
            RpcMessage::Abort => Ok(self.bare(Kind::Abort)),
        }
    }
}

/// The message of the frame at this place of a file.
pub(crate) fn read_planned(
    alloc: Global,
    bytes: &Bytes,
    place: usize,
    paths: &mut Paths,
    groups: &mut Groups,
) -> Result<Planned, AllocError> {
    let mut reading = Reading {
        alloc,
        paths,
        groups,
    };
    let words = bytes.len() as u64 / 8;
    let Ok(frame) = Frame::read(bytes.as_slice()) else {
        return Ok(reading.bare(Kind::Unread));
    };
    match read_message(alloc, &frame, Limits::default(), Edition::Later) {
        Ok(message) => reading.planned(&frame, words, place, &message),
        Err(ViewError::OutOfMemory) => Err(AllocError),
        Err(_) => Ok(reading.bare(Kind::Unread)),
    }
}
