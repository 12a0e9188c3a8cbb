//! Structs and lists of structs in a frame, by their places.

ghost use Rattle.std.specs.Prelude.{◌≡◌, ◌<◌, ◌≤◌, ◌+◌, ◌*◌, ◌^◌, MatchOption, IfSome};

/// A struct that was visited: in which segment and where its data section begins, the sizes of its two sections in
/// words, and how many more structs may stand within one another below it.
#[derive(Clone, Copy, Debug)]
pub struct StructAt {
    pub(crate) segment: u32,
    pub(crate) start: u32,
    pub(crate) data_words: u16,
    pub(crate) pointer_count: u16,
    pub(crate) below: u32,
}

impl StructAt {
    /// Where the pointer of this number stands, None where the struct is too short to have it.
    #[inline(always)]
    pub(crate) fn pointer(&self, n: u16) -> Option<u64>
        ensures value { MatchOption result (self.now.pointer_count ≤ n)
            (λ at. (n < self.now.pointer_count) × (at ≡ self.now.start + self.now.data_words + n)) }
        ensures near { IfSome result (λ at. at < 2 ^ 40) }
    {
        if n < self.pointer_count {
            Some(u64::from(self.start) + u64::from(self.data_words) + u64::from(n))
        } else {
            None
        }
    }
}

/// A list of structs: in which segment and where its first element begins, how many there are, the sizes of each in
/// words, and how many structs may stand within one another from an element on.
#[derive(Clone, Copy, Debug)]
pub struct ListAt {
    pub(crate) segment: u32,
    pub(crate) start: u32,
    pub(crate) count: u32,
    pub(crate) data_words: u16,
    pub(crate) pointer_count: u16,
    pub(crate) depth: u32,
    ghost within: { start + count * (data_words + pointer_count) < 2 ^ 32 },
}
