//! Laws of cases, which hold of every list of numbers and not of one call.

ghost use Rattle.std.specs.Prelude.{◌≡◌, ℕ, List, Option};
ghost use Rattle.case_book.specs.Least.{least, IsLeast};
ghost use Rattle.case_book.specs.Case.{Contents, IsCase};
ghost use Rattle.case_book.specs.Pieces.{IsForPiece};
ghost use Rattle.case_book.specs.declared.piece_finding.Finding.{Finding};

/// The least number of a list, by which the answers of a [`Case`](crate::Case) name a vat or a connection, stands in the
/// list and none there is smaller; where the list is empty there is none. No other is so.
pub fn least_is_least()
    ensures is { (ns : List ℕ) → IsLeast ns (least ns) }
    ensures only { (ns : List ℕ) (found : Option ℕ) → IsLeast ns found → found ≡ least ns }
{}

/// A finding is for one piece of a case at most: so a [`Book`](crate::Book) has one answer to what is posted.
pub fn a_finding_is_for_one_piece()
    ensures { (held : Contents) → IsCase held → (found : Finding) (one other : ℕ)
        → IsForPiece held found one → IsForPiece held found other → one ≡ other }
{}
