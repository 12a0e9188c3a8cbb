//! Laws of logs and their bytes, which hold of every log and not of one call.

ghost use Rattle.std.specs.Prelude.{◌≡◌, ℕ, ◌<◌, ◌≤◌, ◌^◌, List, [], Ok, All, length};
ghost use Rattle.vat_log.specs.Fits.{record_limit, LogFits};
ghost use Rattle.vat_log.specs.Log.{Log};
ghost use Rattle.vat_log.specs.Reading.{header_of, log_of};
ghost use Rattle.vat_log.specs.Runs.{BeginsWith, GoesOn};
ghost use Rattle.vat_log.specs.Spelling.{log_bytes};

/// A log has one spelling in each version: what is read is spelled so, what is spelled so is read, and two logs with the
/// same version, vat and records have the same bytes.
pub fn one_spelling()
    ensures read_is_spelled { (bytes : List ℕ) (log : Log) → All (λ octet. octet < 2 ^ 8) bytes
        → log_of bytes ≡ Ok log → bytes ≡ log_bytes log }
    ensures spelled_is_read { (log : Log) → LogFits record_limit log
        → log_of (log_bytes log) ≡ Ok log }
    ensures same_bytes { (a b : List ℕ) (log : Log) → All (λ octet. octet < 2 ^ 8) a
        → All (λ octet. octet < 2 ^ 8) b → log_of a ≡ Ok log → log_of b ≡ Ok log → a ≡ b }
{}

/// The logs with which bytes begin are the beginnings of one log: they have the header of the bytes, and of two of them the
/// one with more records has those of the other first.
pub fn runs_of_one_log()
    ensures headers { (bytes : List ℕ) (log : Log) → BeginsWith bytes log
        → header_of bytes ≡ Ok (record { version = log.version; vat = log.vat; records = [] }) }
    ensures one_run { (bytes : List ℕ) (log longer : Log) → BeginsWith bytes log → BeginsWith bytes longer
        → length log.records ≤ length longer.records → GoesOn log longer }
{}
