//! How much of a frame may be read.

ghost use Rattle.std.specs.Prelude.{◌≡◌};
ghost use Rattle.cap_reader.specs.Defaults.{default_limits};

/// How much of a frame may be read: the words that visits may cost together, and how many structs may stand within one
/// another, the root being the first. A visit of a struct costs its words, and at least 1; one of a text the words of its
/// bytes and its zero (encoding specification, "Security Considerations").
#[derive(Clone, Copy, Debug, PartialEq, Eq)]
pub struct Limits {
    /// Words of 8 bytes that are left to be paid for visits.
    pub words: u64,
    /// The greatest depth of a struct; the root struct has depth 1.
    pub depth: u8,
}

impl Default for Limits {
    /// 8,388,608 words, which are 64 MiB, and 64 structs (encoding specification, "Security Considerations").
    fn default() -> Limits
        ensures { result ≡ default_limits }
    {
        Limits {
            words: 8_388_608,
            depth: 64,
        }
    }
}
