//! What is found for a piece.

use link_check::LinkFinding;
use vat_rules::VatFinding;

/// What is found for a piece. Each is what the definition says of the logs that it carries: the types of the two keep that.
#[derive(Debug, Drop)]
pub enum Finding {
    /// What the audit of a log finds.
    Vat(VatFinding),
    /// What the comparison of a link's two ends finds.
    Link(LinkFinding),
}
