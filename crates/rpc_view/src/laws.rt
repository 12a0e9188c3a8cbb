//! Laws of messages, which hold of every frame and not of one call.

ghost use Rattle.std.specs.Prelude.{List, ℕ};
ghost use Rattle.rpc_view.specs.declared.edition.Edition.{Edition};
ghost use Rattle.rpc_view.specs.Message.{GiveOneMessage, KeepMessage, ReadsMore};

/// Limits decide whether bytes are read, and never as which message: within any two limits they give one message, where
/// both give one, and what is a message within limits is the same one within all that are no lower.
pub fn limits_change_no_message()
    ensures one { (edition : Edition) (bytes : List ℕ) → GiveOneMessage edition bytes }
    ensures higher { (edition : Edition) (bytes : List ℕ) → KeepMessage edition bytes }
{}

/// What the first edition reads the later one reads as the same message, within the same limits. Of such a message no
/// Return says that its Finish isn't needed.
pub fn later_edition_reads_more()
    ensures { (bytes : List ℕ) → ReadsMore bytes }
{}
