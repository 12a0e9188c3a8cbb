//! The ends of a connection.

/// An end of the connection: the one that sent the first file, or the one that sent the second.
#[derive(Clone, Copy, Debug, PartialEq, Eq)]
pub enum End {
    /// Who sent the first file. Its log is that of vat 1.
    A,
    /// Who sent the second file. Its log is that of vat 2.
    B,
}

impl End {
    ghost use Rattle.wire_cut.specs.Ends.{other_end};
    ghost use Rattle.std.specs.Prelude.{◌≡◌};

    /// The other end.
    pub fn other(self) -> End
        ensures { result ≡ other_end self }
    {
        match self {
            End::A => End::B,
            End::B => End::A,
        }
    }
}
