//! Numbers in the bytes of a frame. Their bytes are cut out first: of a cut as long as the number one load reads it, of a
//! longer one each byte is read by itself.

ghost use Rattle.std.specs.Prelude.{◌≡◌, ◌≤◌, ◌+◌, length, drop};
ghost use Rattle.byteorder.specs.Endian.{little_number};

use byteorder::{ByteOrder, LittleEndian};

/// The number of four bytes at a place, the lowest first.
#[tactic(auto, using(crate::proofs::Numbers::number_cut))]
#[inline(always)]
pub fn number_from(bytes: &[u8], at: usize) -> u32
    requires { at + 4 ≤ length bytes.now }
    ensures { result ≡ little_number 4 (drop at bytes.now) }
{
    LittleEndian::read_u32(&bytes[at..at + 4])
}

/// The word at a place, its lowest byte first.
#[tactic(auto, using(crate::proofs::Numbers::number_cut))]
#[inline(always)]
pub fn word_from(bytes: &[u8], at: usize) -> u64
    requires { at + 8 ≤ length bytes.now }
    ensures { result ≡ little_number 8 (drop at bytes.now) }
{
    LittleEndian::read_u64(&bytes[at..at + 8])
}
