//! What a pointer's word says.

ghost use Rattle.std.specs.Prelude.{◌≡◌, ◌<◌, ◌^◌, ◌/◌, ◌%◌};
ghost use Rattle.cap_reader.specs.Pointers.{offset_bits, data_bits, pointer_bits, high_bits, start_from};

/// What a pointer's word says, by the encoding specification ("Structs", "Lists", "Inter-Segment Pointers",
/// "Capabilities"). Offsets and sizes are in words; an offset of a struct or a list pointer is 30 bits of a signed
/// number.
#[derive(Clone, Copy, Debug)]
pub enum Pointer {
    /// All zeros.
    Null,
    /// The sizes of its data section and of its pointer section.
    Struct {
        offset: u32,
        data_words: u16,
        pointer_count: u16,
    },
    /// Element size 7 is composite, whose count is of words.
    List {
        offset: u32,
        element_size: u8,
        count: u32,
    },
    /// A pad in another segment, of two words or of one, and its place there.
    Far {
        two_words: bool,
        offset: u32,
        segment: u32,
    },
    /// An index into the capability table, counted from 0.
    Capability {
        index: u32,
    },
    /// Bits that are kept for later.
    Reserved,
}

const OFFSETS: u64 = 1 << 30;

const BACKWARDS: u32 = 1 << 29;

const SIZES: u64 = 1 << 16;

/// Bits 2 to 31.
#[inline(always)]
pub fn offset_of(word: u64) -> u32
    ensures value { result ≡ offset_bits word }
    ensures fits { result < 2 ^ 30 }
{
    ((word >> 2) % OFFSETS) as u32
}

/// The size of a data section, in words.
#[inline(always)]
pub fn data_of(word: u64) -> u16
    ensures { result ≡ data_bits word }
{
    ((word >> 32) % SIZES) as u16
}

/// The size of a pointer section, in words.
#[inline(always)]
pub fn pointers_of(word: u64) -> u16
    ensures { result ≡ pointer_bits word }
{
    ((word >> 48) % SIZES) as u16
}

/// The element size of a list, which 3 bits say.
#[inline(always)]
pub fn element_size_of(word: u64) -> u8
    ensures { result ≡ (word / 2 ^ 32) % 8 }
{
    ((word >> 32) % 8) as u8
}

/// How many elements a list has, and of a composite list how many words.
#[inline(always)]
pub fn count_of(word: u64) -> u32
    ensures { result ≡ (word / 2 ^ 35) % 2 ^ 29 }
{
    ((word >> 35) % (1 << 29)) as u32
}

/// Bits 32 to 63.
#[inline(always)]
fn high_of(word: u64) -> u32
    ensures { result ≡ high_bits word }
{
    ((word >> 32) % (1 << 32)) as u32
}

impl Pointer {
    ghost use Rattle.cap_reader.specs.Pointers.{pointer_of};

    /// What a word says as a pointer.
    #[tactic(auto, unfolding(crate::specs::Pointers::pointer_of))]
    pub fn of(word: u64) -> Pointer
        ensures { result ≡ pointer_of word }
    {
        if word == 0 {
            return Pointer::Null;
        }
        match word % 4 {
            0 => Pointer::Struct {
                offset: offset_of(word),
                data_words: data_of(word),
                pointer_count: pointers_of(word),
            },
            1 => Pointer::List {
                offset: offset_of(word),
                element_size: element_size_of(word),
                count: count_of(word),
            },
            2 => Pointer::Far {
                two_words: (word >> 2) % 2 == 1,
                offset: ((word >> 3) % (1 << 29)) as u32,
                segment: high_of(word),
            },
            _ if offset_of(word) == 0 => Pointer::Capability {
                index: high_of(word),
            },
            _ => Pointer::Reserved,
        }
    }
}

/// Where what a pointer at a place points to begins, None before the segment.
#[tactic(auto, unfolding(crate::specs::Pointers::start_from))]
#[inline(always)]
pub fn start_of(at: u64, offset: u32) -> Option<u64>
    requires { at < 2 ^ 40 }
    ensures { result ≡ start_from at offset }
{
    let forward = at + 1 + u64::from(offset);
    if offset < BACKWARDS {
        Some(forward)
    } else {
        forward.checked_sub(OFFSETS)
    }
}
