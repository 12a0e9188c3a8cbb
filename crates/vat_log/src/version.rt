//! The versions of the format.

ghost use Rattle.std.specs.Prelude.{◌≡◌, ◌<◌, ◌≤◌, ◌^◌, length, All, IfOk};
ghost use Rattle.std.specs.Int.{w32};
ghost use Rattle.vat_log.specs.Log.{version_number};
ghost use Rattle.vat_log.specs.Migrated.{migrated_version};
ghost use Rattle.vat_log.specs.Reading.{version_at};
ghost use Rattle.vat_log.specs.Spelling.{count_width};

use crate::error::LogError;

/// A version of the format. The magic says it, and it says how wide a count is.
#[derive(Clone, Copy, Debug, PartialEq, Eq)]
pub(crate) enum LogVersion {
    /// `VATLOG01`, with counts of 16 bits.
    One,
    /// `VATLOG02`, with counts of 32 bits.
    Two,
    /// `VATLOG03`, of a runtime that speaks the later edition of rpc.capnp. What stands behind the magic is spelled as in
    /// version 2.
    Three,
}

impl LogVersion {
    /// The number of the version.
    pub(crate) fn number(self) -> u32
        ensures { result ≡ version_number self }
    {
        match self {
            LogVersion::One => 1,
            LogVersion::Two => 2,
            LogVersion::Three => 3,
        }
    }

    /// The version to which a log of this one is migrated. Its counts have 32 bits.
    pub(crate) fn migrated(self) -> LogVersion
        ensures value { result ≡ migrated_version self }
        ensures wide { count_width result ≡ w32 }
    {
        match self {
            LogVersion::One | LogVersion::Two => LogVersion::Two,
            LogVersion::Three => LogVersion::Three,
        }
    }
}

/// The version whose magic stands before all else.
#[tactic(auto, unfolding(crate::specs::Reading::version_at))]
pub(crate) fn read_version(bytes: &[u8]) -> Result<LogVersion, LogError>
    ensures value { result ≡ version_at bytes.now }
    ensures octets { All (λ octet. octet < 2 ^ 8) bytes.now }
    ensures long { IfOk result (λ version. 8 ≤ length bytes.now) }
{
    if bytes.starts_with(b"VATLOG01") {
        return Ok(LogVersion::One);
    }
    if bytes.starts_with(b"VATLOG02") {
        return Ok(LogVersion::Two);
    }
    if bytes.starts_with(b"VATLOG03") {
        return Ok(LogVersion::Three);
    }
    Err(LogError::BadMagic)
}
