//! Books of cases.

ghost use Rattle.std.specs.Prelude.{◌≡◌, ◌+◌, ◌<◌, ◌≤◌, ◌++◌, ◌∷◌, [], None, Some, true, false, not, is_none, IfOk, IfErr, OnOk, OnErr, map, vec_len, position, slice_set, length, replicate};
ghost use Rattle.std.specs.Option.{option_map};
ghost use Rattle.std.specs.Vec.{vec_capacity};
ghost use Rattle.case_book.specs.Case.{link_limit, vat_limit};
ghost use Rattle.case_book.specs.Ties.{tie_fault_of};
ghost use Rattle.case_book.specs.Glue.{ArePlaced};
ghost use Rattle.case_book.specs.Books.{IsBook, IsClaimed, IsMissing, IsPosted, IsHandedBack, findings_of, least_missing, least_unclaimed, missing_in, new_book, with_claim, with_finding};
ghost use Rattle.case_book.specs.Pieces.{IsForPiece};

use crate::case::Case;
use crate::findings::Findings;
use crate::piece::Piece;
use crate::piece_finding::Finding;
use crate::places::number_of;
use crate::refused_findings::Refused;
use link_check::LinkFinding;
use std::alloc::{AllocError, Global};
use std::marker::Model;
use vat_rules::VatFinding;

/// The book of a case without a tie fault: which of its pieces are claimed, and what was found for those that are posted.
/// Nothing but [`Book::new`] takes memory: it makes a place for each finding.
#[derive(Drop)]
pub struct Book {
    case: Case,
    claimed: Vec<bool>,
    found: Vec<Option<Finding>>,
    missing: usize,
    vats: Vec<VatFinding>,
    links: Vec<LinkFinding>,
}

impl Model for Book {
    ghost use Rattle.std.specs.Prelude.{◌≡◌, [], count_by, is_none, length};
    ghost use Rattle.std.specs.Vec.{vec_capacity};
    ghost use Rattle.case_book.specs.Books.{Kept, IsBook};

    ghost Value = { Kept };

    ghost view = { λ book. record { case = book.case; claimed = book.claimed.items; found = book.found.items } };

    ghost invariant = { λ book. IsBook (record { case = book.case; claimed = book.claimed.items; found = book.found.items })
        × (book.missing ≡ count_by is_none book.found.items)
        × (book.vats.items ≡ []) × (vec_capacity book.vats ≡ length book.case.logs)
        × (book.links.items ≡ []) × (vec_capacity book.links ≡ length book.case.links) };
}

/// Places for the findings of so many pieces, none of which is claimed or posted.
fn empty_places(
    alloc: Global,
    count: usize,
) -> Result<(Vec<bool>, Vec<Option<Finding>>), AllocError>
    ensures claimed { IfOk result (λ places. places.0.items ≡ replicate count false) }
    ensures found { IfOk result (λ places. places.1.items ≡ replicate count None) }
{
    let mut claimed = Vec::new(alloc);
    let mut found = Vec::new(alloc);
    for _ in 0..count {
        claimed.push(false)?;
        found.push(None)?;
    }
    Ok((claimed, found))
}

/// The least piece that isn't claimed.
fn first_unclaimed(claimed: &[bool]) -> Option<usize>
    ensures { result ≡ position not claimed.now }
{
    claimed.iter().position(|is_claimed| !*is_claimed)
}

/// The least piece that isn't posted.
fn first_missing(found: &[Option<Finding>]) -> Option<usize>
    ensures { result ≡ position is_none found.now }
{
    found.iter().position(|found| found.is_none())
}

/// Claims the piece of this number.
fn claim_piece(claimed: &mut [bool], number: usize) -> Piece
    requires within { number < length claimed.old }
    requires few { length claimed.old ≤ vat_limit + link_limit }
    ensures answer { result.number ≡ number }
    ensures after { claimed.new ≡ slice_set claimed.old number true }
{
    claimed[number] = true;
    Piece {
        number: number as u32,
    }
}

/// Puts an item behind others, where room was made for it.
fn put<T: Drop>(items: &mut Vec<T>, item: T)
    requires { vec_len items.old < vec_capacity items.old }
    ensures items { items.new.items ≡ items.old.items ++ item ∷ [] }
    ensures room { vec_capacity items.old ≤ vec_capacity items.new }
{
    if items.push(item).is_err() {
        unreachable!()
    }
}

/// The findings of all pieces, each put where room was made for it: first those of vats, then those of links.
fn part_findings(
    found: Vec<Option<Finding>>,
    vats: Vec<VatFinding>,
    links: Vec<LinkFinding>,
) -> (Vec<VatFinding>, Vec<LinkFinding>)
    requires no_vats { vats.items ≡ [] }
    requires no_links { links.items ≡ [] }
    requires placed { ArePlaced found.items (vec_capacity vats) (vec_capacity links) }
    ensures { map Some (map Finding.Vat result.0.items ++ map Finding.Link result.1.items)
        ≡ found.items }
{
    let mut vats = vats;
    let mut links = links;
    for kept in found {
        match kept {
            Some(Finding::Vat(audited)) => put(&mut vats, audited),
            Some(Finding::Link(compared)) => put(&mut links, compared),
            None => unreachable!(),
        }
    }
    (vats, links)
}

impl Book {
    /// The book of a case, of which every piece is missing and none is claimed.
    ///
    /// # Errors
    ///
    /// Out of memory, and then the case is dropped.
    pub fn new(alloc: Global, case: Case) -> Result<Book, AllocError>
        requires { tie_fault_of case ≡ None }
        ensures { IfOk result (λ book. book ≡ new_book case) }
    {
        let vats = Vec::with_capacity(alloc, case.logs().len())?;
        let links = Vec::with_capacity(alloc, case.links().len())?;
        let pieces = case.logs().len() + case.links().len();
        let (claimed, found) = empty_places(alloc, pieces)?;
        Ok(Book {
            case,
            claimed,
            found,
            missing: pieces,
            vats,
            links,
        })
    }

    /// The case.
    pub fn case(&self) -> &Case
        ensures lent { result.now ≡ self.now.case }
        ensures kept { IsBook self.now }
    {
        &self.case
    }

    /// Claims the least piece that isn't claimed, and answers it: `None` where all are claimed.
    pub fn claim(&mut self) -> Option<Piece>
        ensures answer { option_map (λ piece. piece.number) result ≡ least_unclaimed self.old }
        ensures after { self.new ≡ with_claim self.old (least_unclaimed self.old) }
    {
        match first_unclaimed(&self.claimed) {
            Some(number) => Some(claim_piece(&mut self.claimed, number)),
            None => None,
        }
    }

    /// The least piece that isn't posted, which is claimed from then on: `None` where all are posted.
    pub fn next_missing(&mut self) -> Option<Piece>
        ensures answer { option_map (λ piece. piece.number) result ≡ least_missing self.old }
        ensures after { self.new ≡ with_claim self.old (least_missing self.old) }
    {
        match first_missing(&self.found) {
            Some(number) => Some(claim_piece(&mut self.claimed, number)),
            None => None,
        }
    }

    /// Posts a finding for its piece, and keeps it there. A piece that is claimed can be posted once.
    ///
    /// # Errors
    ///
    /// The first that applies, which hands the finding back and leaves the book as it was: `Stranger` where it is for no
    /// piece of the case, `Double` where its piece is posted already, `Unclaimed` where its piece isn't claimed.
    pub fn post(&mut self, finding: Finding) -> Result<(), Refused>
        ensures err { IfErr result (IsHandedBack self.old finding) }
        ensures unchanged { OnErr result (self.new ≡ self.old) }
        ensures ok { OnOk result (IsPosted self.old finding self.new) }
        ensures fewer { OnOk result (missing_in self.new + 1 ≡ missing_in self.old) }
    {
        let Some(number) = number_of(&self.case, &finding) else {
            return Err(Refused::Stranger(finding));
        };
        if self.found[number].is_some() {
            return Err(Refused::Double(finding));
        }
        if !self.claimed[number] {
            return Err(Refused::Unclaimed(finding));
        }
        self.place(number, finding);
        Ok(())
    }

    /// Posts a finding for this piece of the book's case, which is claimed and not posted, without looking for its piece.
    pub fn keep(&mut self, piece: Piece, finding: Finding)
        requires own { IsForPiece self.old.case finding piece.number }
        requires missing { IsMissing self.old piece.number }
        requires claimed { IsClaimed self.old piece.number }
        ensures after { self.new ≡ with_finding self.old piece.number finding }
        ensures fewer { missing_in self.new + 1 ≡ missing_in self.old }
    {
        self.place(piece.number as usize, finding);
    }

    /// Puts a finding at the place of its piece, which is missing.
    fn place(&mut self, number: usize, finding: Finding)
        requires own { IsForPiece self.old.case finding number }
        requires missing { IsMissing self.old number }
        ensures after { self.new ≡ with_finding self.old number finding }
        ensures fewer { missing_in self.new + 1 ≡ missing_in self.old }
    {
        self.found[number] = Some(finding);
        self.missing -= 1;
    }

    /// How many pieces aren't posted.
    pub fn missing(&self) -> usize
        ensures { result ≡ missing_in self.now }
    {
        let Book { missing, .. } = self;
        *missing
    }

    /// The findings of all pieces.
    ///
    /// # Errors
    ///
    /// The book as it was, while a piece is missing.
    pub fn into_findings(self) -> Result<Findings, Book>
        ensures err { IfErr result (λ book. (book ≡ self) × (0 < missing_in self)) }
        ensures whole { OnOk result (missing_in self ≡ 0) }
        ensures case { IfOk result (λ all. all.case ≡ self.case) }
        ensures kept { IfOk result (λ all. map Some (findings_of all) ≡ self.found) }
    {
        if self.missing() > 0 {
            return Err(self);
        }
        let Book {
            case,
            claimed: _,
            found,
            missing: _,
            vats,
            links,
        } = self;
        let (vats, links) = part_findings(found, vats, links);
        Ok(Findings::new(case, vats, links))
    }
}
