//! What bytes are that don't begin with a frame: packed, or encrypted.

use bytes::Bytes;
use cap_frame::Frame;
use rpc_view::{Edition, Limits, ViewError, read_bytes};
use std::alloc::{AllocError, Global};

/// How many words of a packed stream are unpacked: as many as the first messages of a connection mostly have.
const WORDS: usize = 4096;

/// The bytes of a packed stream that are left, and those that it gave so far.
#[derive(Drop)]
struct Unpacking<'a> {
    packed: &'a [u8],
    given: Vec<u8>,
}

impl Unpacking<'_> {
    /// Takes a byte. None where none is left.
    fn take(&mut self) -> Option<u8> {
        let (first, rest) = self.packed.split_first()?;
        self.packed = rest;
        Some(*first)
    }

    /// Gives a word whose bytes that aren't 0 are named by the bits of a tag, and says whether they are there.
    fn give_word(&mut self, tag: u8) -> Result<bool, AllocError> {
        for bit in 0..8u32 {
            let byte = if tag >> bit & 1 == 1 {
                match self.take() {
                    Some(byte) => byte,
                    None => return Ok(false),
                }
            } else {
                0
            };
            self.given.push(byte)?;
        }
        Ok(true)
    }

    /// Gives as many words more as the next byte says: of zeros, or of the bytes that follow.
    fn give_run(&mut self, tag: u8) -> Result<bool, AllocError> {
        let Some(count) = self.take() else {
            return Ok(false);
        };
        for _ in 0..count {
            if !self.give_word(tag)? {
                return Ok(false);
            }
        }
        Ok(true)
    }

    /// Gives what belongs to the next tag, as the Cap'n Proto encoding specification packs it, and says whether it is there.
    fn give_next(&mut self) -> Result<bool, AllocError> {
        let Some(tag) = self.take() else {
            return Ok(false);
        };
        if !self.give_word(tag)? {
            return Ok(false);
        }
        match tag {
            0 | 0xff => self.give_run(tag),
            _ => Ok(true),
        }
    }
}

/// The first words that bytes unpack to.
fn unpacked(alloc: Global, packed: &[u8]) -> Result<Vec<u8>, AllocError> {
    let mut unpacking = Unpacking {
        packed,
        given: Vec::new(alloc),
    };
    for _ in 0..WORDS {
        if unpacking.given.len() >= WORDS * 8 || !unpacking.give_next()? {
            break;
        }
    }
    Ok(unpacking.given)
}

/// Whether bytes unpack to a frame that is read as a message.
pub(super) fn is_packed(alloc: Global, bytes: &Bytes) -> Result<bool, AllocError> {
    let mut given = Bytes::from_vec(unpacked(alloc, bytes.as_slice())?)?;
    let Ok(len) = Frame::first_len(given.as_slice()) else {
        return Ok(false);
    };
    let frame = given.split_to(len)?;
    match read_bytes(alloc, frame, Limits::default(), Edition::Later) {
        Ok(_) | Err(ViewError::Outside(_)) => Ok(true),
        Err(ViewError::OutOfMemory) => Err(AllocError),
        Err(_) => Ok(false),
    }
}

/// Whether bytes begin as a stream of TLS does: with a handshake, of a version 3.x.
pub(super) fn is_encrypted(bytes: &Bytes) -> bool {
    matches!(bytes.as_slice(), [0x16, 3, 0..=4, ..])
}
