//! What holds of the logs that are made, of every list of logs and not of one call.

ghost use Rattle.std.specs.Prelude.{◌≡◌, ℕ, List, Some, slice_get};
ghost use Rattle.vat_log.specs.Log.{Log};
ghost use Rattle.link_check.specs.Prefix.{IsPrefix, frames_sent, frames_received};
ghost use Rattle.log_ends.specs.Ends.{IsEnd, Fits};
ghost use Rattle.log_ends.specs.Joining.{Has, ArePairs, IsJoined};
ghost use Rattle.log_ends.specs.Renumbering.{IsRenumbered, AreRenumbered, end_in};
ghost use Rattle.log_ends.specs.declared.log_end.LogEnd.{LogEnd};
ghost use Rattle.log_ends.specs.declared.log_end.EndPair.{EndPair};

/// Two ends have the number of one pair just if they are its ends, and so they fit.
pub fn a_number_is_of_one_pair()
    // Two ends with one number are those of a pair, which fit.
    ensures matched { (logs : List Log) (pairs : List EndPair) (number : ℕ) (one other : LogEnd)
        → ArePairs logs pairs → Has pairs number one → Has pairs number other
        → (one ≡ other → ⊥) → Fits logs one other }
    // In one log no two connections get the same number.
    ensures injective { (logs : List Log) (pairs : List EndPair) (place : ℕ) (old new : Log)
        (is : IsRenumbered logs pairs place old new) (a b : ℕ) → ArePairs logs pairs
        → IsEnd logs (end_in place a) → IsEnd logs (end_in place b)
        → is.number a ≡ is.number b → a ≡ b }
{}

/// In the logs that are made of joined ones, each pair's number is a connection whose two ends received the first frames that
/// the other sent.
pub fn joined_logs_have_good_links()
    ensures { (logs : List Log) (pairs : List EndPair) (made : List Log) (number : ℕ) (pair : EndPair)
        (one other : Log) → IsJoined logs pairs → AreRenumbered logs pairs made
        → slice_get pairs number ≡ Some pair → slice_get made pair.first.log ≡ Some one
        → slice_get made pair.second.log ≡ Some other
        → IsPrefix (frames_received number one) (frames_sent number other)
        × IsPrefix (frames_received number other) (frames_sent number one) }
{}

/// There is one way to pair all ends: whoever knows that ends are joined so knows what [`join_ends`](crate::join_ends) found.
pub fn ends_are_joined_in_one_way()
    ensures { (logs : List Log) (pairs others : List EndPair) → IsJoined logs pairs
        → IsJoined logs others → pairs ≡ others }
{}
