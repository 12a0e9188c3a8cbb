//! How many words a list takes that isn't composite.

ghost use Rattle.std.specs.Prelude.{◌≡◌, ◌≤◌};
ghost use Rattle.cap_reader.specs.Tree.{element_bits, plain_words};

/// How many bits an element of a list has.
fn bits_of(element_size: u8) -> u64
    ensures value { result ≡ element_bits element_size }
    ensures bound { result ≤ 64 }
{
    match element_size {
        0 => 0,
        1 => 1,
        2 => 8,
        3 => 16,
        4 => 32,
        _ => 64,
    }
}

/// The words of a list that isn't composite.
pub fn plain_size(element_size: u8, count: u32) -> u64
    ensures { result ≡ plain_words element_size count }
{
    (u64::from(count) * bits_of(element_size)).div_ceil(64)
}
