//! The frames of one direction of a connection, as a log has them.

use bytes::Bytes;
use std::alloc::{AllocError, Global};
use vat_log::{Body, VatLog};

/// How long a frame is, at most, that may be the same as another one by chance.
const COMMON: usize = 32;

/// A frame of a direction, and its record.
#[derive(Clone, Copy)]
pub(crate) struct PassedFrame<'a> {
    pub(crate) at: usize,
    pub(crate) frame: &'a Bytes,
}

/// One direction of a connection in a log, and the frames that passed there. Each is a message by its place among them.
#[derive(Drop)]
pub(crate) struct Stream<'a> {
    pub(crate) log: &'a VatLog,
    pub(crate) connection: u32,
    pub(crate) frames: Vec<PassedFrame<'a>>,
}

/// The frame that a record sends on a connection, or receives there.
fn frame_on(body: &Body, sent: bool, connection: u32) -> Option<&Bytes> {
    match body.passage() {
        Some(passage) if passage == (sent, connection) => body.frame(),
        _ => None,
    }
}

impl<'a> Stream<'a> {
    /// What a log sent on a connection, or received there.
    pub(crate) fn of(
        alloc: Global,
        log: &'a VatLog,
        sent: bool,
        connection: u32,
    ) -> Result<Stream<'a>, AllocError> {
        let mut frames = Vec::new(alloc);
        for at in 0..log.len() {
            if let Some(record) = log.get(at)
                && let Some(frame) = frame_on(record.body(), sent, connection)
            {
                frames.push(PassedFrame { at, frame })?;
            }
        }
        Ok(Stream {
            log,
            connection,
            frames,
        })
    }

    /// The message of the same bytes as this one of another stream, by another number, and its record: the only one, and not short.
    pub(crate) fn same_as(&self, other: &Stream<'_>, number: usize) -> Option<(usize, usize)> {
        let bytes = other.frames.get(number)?.frame.as_slice();
        let mut same = None;
        for (message, passed) in self.frames.iter().enumerate() {
            if message != number && passed.frame.as_slice() == bytes {
                if same.is_some() {
                    return None;
                }
                same = Some((message, passed.at));
            }
        }
        same.filter(|_| bytes.len() > COMMON)
    }
}
