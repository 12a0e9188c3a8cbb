//! The findings of a whole case.

ghost use Rattle.std.specs.Prelude.{◌≡◌};
ghost use Rattle.case_book.specs.Books.{AreAll};

use crate::case::Case;
use link_check::LinkFinding;
use std::marker::Model;
use vat_rules::VatFinding;

/// What is found of a case without a tie fault: each log's audit within the default limits, and each link's comparison.
/// Contracts see the case too.
#[derive(Debug, Drop)]
pub struct Findings {
    case: Case,
    vats: Vec<VatFinding>,
    links: Vec<LinkFinding>,
}

impl Model for Findings {
    ghost use Rattle.case_book.specs.Books.{AllFound, AreAll};

    ghost Value = { AllFound };

    ghost view = { λ all. record { case = all.case; vats = all.vats.items; links = all.links.items } };

    ghost invariant = { λ all. AreAll (record { case = all.case; vats = all.vats.items; links = all.links.items }) };
}

impl Findings {
    pub(crate) fn new(case: Case, vats: Vec<VatFinding>, links: Vec<LinkFinding>) -> Findings
        requires { AreAll (record { case = case; vats = vats.items; links = links.items }) }
        ensures { result ≡ record { case = case; vats = vats.items; links = links.items } }
    {
        Findings { case, vats, links }
    }

    /// The case.
    pub fn case(&self) -> &Case
        ensures lent { result.now ≡ self.now.case }
        ensures whole { AreAll self.now }
    {
        &self.case
    }

    /// What is found of the vats, by rising vat number.
    pub fn vats(&self) -> &[VatFinding]
        ensures lent { result.now ≡ self.now.vats }
        ensures whole { AreAll self.now }
    {
        &self.vats
    }

    /// What is found of the links, by rising connection.
    pub fn links(&self) -> &[LinkFinding]
        ensures lent { result.now ≡ self.now.links }
        ensures whole { AreAll self.now }
    {
        &self.links
    }
}
