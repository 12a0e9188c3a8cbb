//! Laws of reasons, which hold of every message.

ghost use Rattle.std.specs.Prelude.{◌<◌, ◌≤◌, ◌^◌, List, ℕ, All, IfSome, length};
ghost use Rattle.cap_reader.specs.declared.limits.Limits.{Limits};
ghost use Rattle.exception_reasons.specs.Exceptions.{OnlyExceptions};
ghost use Rattle.exception_reasons.specs.Printed.{printed, IsPrintable};
ghost use Rattle.exception_reasons.specs.Reasons.{reason_of_bytes};

/// Whatever bytes are printed, what is printed is printable ASCII.
pub fn printed_is_printable()
    ensures { (bytes : List ℕ) → All (λ byte. byte < 2 ^ 8) bytes → IsPrintable (printed bytes) }
{}

/// No reason has more than 1,024 bytes.
pub fn reasons_are_short()
    ensures { (bytes : List ℕ) (limits : Limits)
        → IfSome (reason_of_bytes bytes limits) (λ reason. length reason ≤ 1024) }
{}

/// Only an abort has a reason, and a Return or Resolve with an exception: no other bytes that are a message have one.
pub fn only_exceptions_have_reasons()
    ensures { (bytes : List ℕ) → OnlyExceptions bytes }
{}
