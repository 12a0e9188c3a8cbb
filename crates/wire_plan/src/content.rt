//! Digests of what calls carry: two calls with the same content have the same digest, however it is laid out.

use cap_frame::Frame;
use std::alloc::{AllocError, Global};

/// How many bits an element of a list has, by the size that its pointer says; lists of pointers and of structs are
/// apart.
const BITS: [u64; 6] = [0, 1, 8, 16, 32, 64];

/// Where a word stands.
#[derive(Clone, Copy)]
struct Spot {
    segment: u32,
    at: u64,
}

impl Spot {
    /// Where the far pointer of this word leads.
    fn far(word: u64) -> Spot {
        Spot {
            segment: u32::try_from(word >> 32).unwrap_or(0),
            at: (word >> 3) % (1 << 29),
        }
    }

    /// So many words behind it.
    fn behind(self, words: u64) -> Spot {
        Spot {
            segment: self.segment,
            at: self.at.wrapping_add(words),
        }
    }

    /// Where what the pointer of this word, which stands here, points to begins.
    fn start_of(self, word: u64) -> Spot {
        let offset = (word >> 2) % (1 << 30);
        let back = if offset < 1 << 29 { 0 } else { 1 << 30 };
        self.behind(offset.wrapping_add(1).wrapping_sub(back))
    }

    /// The word.
    fn word(self, frame: &Frame) -> Option<u64> {
        frame.word(self.segment, self.at)
    }
}

/// What a pointer says: its word, or the word of the pad to which it leads, and where what it points to begins.
#[derive(Clone, Copy)]
struct Pointed {
    word: u64,
    start: Spot,
}

impl Pointed {
    /// What the pointer at a place says.
    fn at(frame: &Frame, spot: Spot) -> Option<Pointed> {
        let word = spot.word(frame)?;
        if word % 4 != 2 {
            let start = spot.start_of(word);
            return Some(Pointed { word, start });
        }
        let pad = Spot::far(word);
        let first = pad.word(frame)?;
        if (word >> 2) % 2 == 0 {
            let start = pad.start_of(first);
            return Some(Pointed { word: first, start });
        }
        let start = Spot::far(first);
        let word = pad.behind(1).word(frame)?;
        Some(Pointed { word, start })
    }

    /// The struct at a place.
    fn struct_at(frame: &Frame, spot: Spot) -> Option<Pointed> {
        let pointed = Pointed::at(frame, spot)?;
        (pointed.word != 0 && pointed.word % 4 == 0).then_some(pointed)
    }

    /// How many words a struct's data section has.
    fn data_words(self) -> u64 {
        (self.word >> 32) % (1 << 16)
    }

    /// How many pointers a struct has.
    fn pointers(self) -> u64 {
        self.word >> 48
    }

    /// Where a struct's pointer of this number stands.
    fn pointer(self, number: u64) -> Spot {
        self.start.behind(self.data_words().wrapping_add(number))
    }
}

/// A digest that is being made, what is still to be taken in, and how many words may be.
#[derive(Drop)]
struct Walk<'a> {
    frame: &'a Frame<'a>,
    digest: u64,
    spots: Vec<Spot>,
    words: u64,
}

impl Walk<'_> {
    /// Takes in one more number.
    fn put(&mut self, number: u64) {
        self.digest = (self.digest.rotate_left(5) ^ number).wrapping_mul(0x9e37_79b9_7f4a_7c15);
    }

    /// Whether so many more words may be taken in, which are then paid.
    fn pays(&mut self, words: u64) -> bool {
        match self.words.checked_sub(words) {
            Some(left) => {
                self.words = left;
                true
            }
            None => false,
        }
    }

    /// How many of these words are left where those that are zero are taken off the end.
    fn trimmed(&self, spot: Spot, count: u64) -> u64 {
        let mut left = count;
        for back in 1..=count {
            if spot.behind(count - back).word(self.frame).unwrap_or(0) != 0 {
                break;
            }
            left = count - back;
        }
        left
    }

    /// Takes in words.
    fn put_words(&mut self, spot: Spot, count: u64) {
        self.put(count);
        for index in 0..count {
            let word = spot.behind(index).word(self.frame);
            self.put(word.unwrap_or(0));
        }
    }

    /// Takes in pointers later.
    fn put_later(&mut self, spot: Spot, count: u64) -> Result<(), AllocError> {
        for number in 0..count {
            self.spots.push(spot.behind(number))?;
        }
        Ok(())
    }

    /// Takes in a struct: its data, and its pointers later.
    fn put_struct(&mut self, element: Pointed) -> Result<(), AllocError> {
        let size = element.data_words().wrapping_add(element.pointers());
        if !self.pays(size.max(1)) {
            return Ok(());
        }
        let data = self.trimmed(element.start, element.data_words());
        self.put_words(element.start, data);
        let first = element.pointer(0);
        let pointers = self.trimmed(first, element.pointers());
        self.put(pointers);
        self.put_later(first, pointers)
    }

    /// Takes in a list of structs, behind its tag.
    fn put_structs(&mut self, list: Spot) -> Result<(), AllocError> {
        let word = list.word(self.frame).unwrap_or(0);
        let count = (word >> 2) % (1 << 30);
        self.put(count);
        let mut element = Pointed {
            word,
            start: list.behind(1),
        };
        for _ in 0..count {
            if self.words == 0 {
                break;
            }
            self.put_struct(element)?;
            element.start = element.pointer(element.pointers());
        }
        Ok(())
    }

    /// Takes in a list.
    fn put_list(&mut self, list: Pointed) -> Result<(), AllocError> {
        let count = list.word >> 35;
        let size = (list.word >> 32) % 8;
        self.put(size);
        if size == 7 {
            return self.put_structs(list.start);
        }
        self.put(count);
        if size == 6 && self.pays(count) {
            return self.put_later(list.start, count);
        }
        if let Some(bits) = BITS.get(size as usize) {
            let words = count.wrapping_mul(*bits).wrapping_add(63) / 64;
            if self.pays(words) {
                self.put_words(list.start, words);
            }
        }
        Ok(())
    }

    /// Takes in what stands at a pointer. A capability counts by where it stands.
    fn put_pointer(&mut self, spot: Spot) -> Result<(), AllocError> {
        let Some(pointed) = Pointed::at(self.frame, spot) else {
            self.put(4);
            return Ok(());
        };
        self.put(pointed.word % 4);
        match pointed.word % 4 {
            0 if pointed.word == 0 => self.put(5),
            0 => self.put_struct(pointed)?,
            1 => self.put_list(pointed)?,
            _ => {}
        }
        Ok(())
    }
}

/// Where the content of a Call's parameters stands: `Message.call`, `Call.params`, `Payload.content` of rpc.capnp.
fn content_of(frame: &Frame) -> Option<Spot> {
    let message = Pointed::struct_at(frame, Spot { segment: 0, at: 0 })?;
    let call = Pointed::struct_at(frame, message.pointer(0))?;
    if call.pointers() < 2 {
        return None;
    }
    let params = Pointed::struct_at(frame, call.pointer(1))?;
    (params.pointers() > 0).then_some(params.pointer(0))
}

/// The digest of a Call: of its interface, its method and the content of its parameters, in a frame of so many words. A
/// capability counts by where it stands, not by its index, and words that are zero at the end of a struct don't count. At
/// most as many words are taken in as the frame has.
pub(crate) fn digest_of(
    alloc: Global,
    frame: &Frame,
    words: u64,
    interface: u64,
    method: u16,
) -> Result<u64, AllocError> {
    let mut walk = Walk {
        frame,
        digest: interface,
        spots: Vec::new(alloc),
        words,
    };
    walk.put(u64::from(method));
    if let Some(spot) = content_of(frame) {
        walk.spots.push(spot)?;
    }
    for _ in 0..words {
        let Some(spot) = walk.spots.pop() else {
            break;
        };
        walk.put_pointer(spot)?;
    }
    Ok(walk.digest)
}
