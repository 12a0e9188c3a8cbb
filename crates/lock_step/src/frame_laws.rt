//! A law of frames that are compared while more come.

ghost use Rattle.std.specs.Prelude.{◌<◌, ◌++◌, ℕ, List, length};
ghost use Rattle.link_check.specs.Prefix.{IsLeastFault};

/// A message that was received and sent, and isn't the same on both sides, stays the least fault whatever more comes.
pub fn differences_stay()
    ensures { (received sent more_received more_sent : List (List ℕ)) (message : ℕ) → message < length sent
        → IsLeastFault received sent message
        → IsLeastFault (received ++ more_received) (sent ++ more_sent) message }
{}
