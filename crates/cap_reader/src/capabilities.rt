//! The capabilities at and below a pointer.

ghost use Rattle.std.specs.Prelude.{◌≡◌, ◌<◌, ◌≤◌, ◌+◌, ◌-◌, ◌++◌, ◌∷◌, ◌^◌, ◌↔◌, List, ℕ, [], Some, OnOk, IfOk};
ghost use Rattle.std.specs.Ordering.{nat_cmp};
ghost use Rattle.std.specs.Cmp.Lexicographic.{slice_cmp};
ghost use Rattle.std.specs.List.{Contains};
ghost use Rattle.std.specs.List.Sorted.{IsStrictlySortedBy};
ghost use Rattle.cap_reader.specs.Tree.{structure_at, tree_at, list_there};
ghost use Rattle.cap_reader.specs.Reading.{RunsInMemory, run, price, ending, IsTooMuch};
ghost use Rattle.cap_reader.specs.Glue.{Gives, with_front};
ghost use Rattle.cap_reader.specs.Fields.{fields_in, capability_at};
ghost use Rattle.cap_reader.specs.Places.{sections_at};
ghost use Rattle.cap_reader.specs.Laws.{paths_of};

use crate::extent::{extent, word_or_zero};
use crate::field_list::Fields;
use crate::following::follow_near;
use crate::limits::Limits;
use crate::place::StructAt;
use crate::plain_size::plain_size;
use crate::pointee::Pointee;
use crate::read_error::ReadError;
use crate::visiting::{COMPOSITE, composite, enter};
use cap_frame::{Frame, Path};
use std::alloc::{AllocError, Global};

/// Judges a list, whose elements are unread.
fn judge_list(
    frame: &Frame,
    segment: u32,
    start: Option<u64>,
    element_size: u8,
    count: u32,
    depth: u32,
) -> Result<(), ReadError>
    ensures { (path : List ℕ) → Gives (λ _. []) result
        (fields_in path (list_there
        (structure_at depth frame.now segment) frame.now segment start element_size count)) }
{
    if element_size == COMPOSITE {
        composite(frame, segment, start, count, depth)?;
        return Ok(());
    }
    match extent(frame, segment, start, plain_size(element_size, count)) {
        Some(_) => Ok(()),
        None => Err(ReadError::OutOfSegment),
    }
}

/// Puts a capability behind those found. Room is made for one, and then for as many again as there are: most frames have
/// one at most, and so no room is left over.
fn put(found: &mut Vec<(Path, u32)>, path: Path, index: u32) -> Result<(), AllocError>
    ensures { OnOk result (found.new.items ≡ found.old.items ++ (path, index) ∷ []) }
{
    if found.len() == found.capacity() {
        found.reserve_exact(found.len().max(1))?;
    }
    found.push((path, index))?;
    Ok(())
}

/// Adds the capabilities at and below the pointer at a place, to which the path leads.
fn add_fields(
    alloc: Global,
    frame: &Frame,
    segment: u32,
    at: u64,
    depth: u32,
    path: &Path,
    found: &mut Vec<(Path, u32)>,
    limits: &mut Limits,
) -> Result<(), ReadError>
    requires { at < 2 ^ 40 }
    ensures value { RunsInMemory (λ _. found.new.items) result limits.new.words
        (with_front found.old.items
        (run (fields_in path.now (tree_at depth frame.now segment at)) limits.old.words)) }
    ensures kept { limits.old.words
        ≤ limits.new.words + price (fields_in path.now (tree_at depth frame.now segment at)) }
    ensures words { limits.new.words ≤ limits.old.words }
    ensures depth { limits.new.depth ≡ limits.old.depth }
{
    if word_or_zero(frame, segment, at) == 0 {
        return Ok(());
    }
    match follow_near(frame, segment, at)? {
        Pointee::Null => Ok(()),
        Pointee::Capability { index } => {
            put(found, path.copy()?, index)?;
            Ok(())
        }
        Pointee::List {
            segment,
            start,
            element_size,
            count,
        } => judge_list(frame, segment, start, element_size, count, depth),
        Pointee::Struct {
            segment,
            start,
            data_words,
            pointer_count,
        } => {
            let sizes = (data_words, pointer_count);
            let content = enter(frame, segment, start, sizes, depth, limits)?;
            let first = u64::from(content.start) + u64::from(content.data_words);
            for number in 0..content.pointer_count {
                let path = path.longer(alloc, number)?;
                add_fields(
                    alloc,
                    frame,
                    content.segment,
                    first + u64::from(number),
                    content.below,
                    &path,
                    found,
                    limits,
                )?;
            }
            Ok(())
        }
        Pointee::Reserved => Err(ReadError::Reserved),
    }
}

/// The capabilities at and below a pointer of a struct, in the order in which they are met.
#[tactic(auto, using(crate::proofs::Loops::no_front), unfolding(crate::specs::Fields::fields_in, crate::specs::Reading::pay_for))]
fn list_capabilities(
    alloc: Global,
    frame: &Frame,
    place: &StructAt,
    n: u16,
    limits: &mut Limits,
) -> Result<Fields, ReadError>
    ensures value { RunsInMemory (λ fields. fields) result limits.new.words
        (run (fields_in [] ((sections_at frame.now place.now).child n)) limits.old.words) }
    ensures kept { limits.old.words
        ≤ limits.new.words + price (fields_in [] ((sections_at frame.now place.now).child n)) }
    ensures words { limits.new.words ≤ limits.old.words }
    ensures depth { limits.new.depth ≡ limits.old.depth }
{
    let start = Path::new(Vec::new(alloc))?;
    let mut found = Vec::new(alloc);
    if let Some(at) = place.pointer(n) {
        add_fields(
            alloc,
            frame,
            place.segment,
            at,
            place.below,
            &start,
            &mut found,
            limits,
        )?;
    }
    Ok(Fields::new(found))
}

/// The capabilities at and below a pointer of a struct, by the pointer's number, counted from 0: each path through
/// structs alone that ends in a capability pointer, with its index, depth first by pointer number. A list on the way is
/// judged, and its elements are unread. The words left are lowered by each visit; the visit that is refused doesn't
/// lower them. Where memory is refused, the words of the visits made until then are gone.
///
/// # Errors
///
/// The fault of the first pointer that has one, in the order of the visits: each of [`ReadError`] but `NoZero`, of which
/// `WrongKind` comes only from a composite list whose tag isn't a struct's. `OutOfMemory` where a growth of the list or
/// of a path is refused.
pub fn fields(
    alloc: Global,
    frame: &Frame,
    place: &StructAt,
    n: u16,
    limits: &mut Limits,
) -> Result<Fields, ReadError>
    // What is listed, or which fault, and the words that are left.
    ensures value { RunsInMemory (λ fields. fields) result limits.new.words
        (run (fields_in [] ((sections_at frame.now place.now).child n)) limits.old.words) }
    // What is listed is what stands at the end of the paths.
    ensures listed { IfOk result
        (λ fields. (path : List ℕ) (index : ℕ) → Contains fields (path, index)
        ↔ (capability_at ((sections_at frame.now place.now).child n) path ≡ Some index)) }
    // Each path is listed once, in rising lexicographic order.
    ensures rising { IfOk result
        (λ fields. IsStrictlySortedBy (slice_cmp nat_cmp) (paths_of fields)) }
    // Where the words are enough for the visits together, it ends as the tree says, and their price is gone.
    ensures affordable { let reading = fields_in []
        ((sections_at frame.now place.now).child n) in price reading ≤ limits.old.words
        → RunsInMemory (λ fields. fields) result limits.new.words
        (ending reading, limits.old.words - price reading) }
    // Else it is too much.
    ensures too_dear { limits.old.words
        < price (fields_in [] ((sections_at frame.now place.now).child n)) → IsTooMuch result }
    // Whatever it answers, out of memory too, no more words are gone than the visits cost together, and none are won.
    ensures kept { limits.old.words
        ≤ limits.new.words + price (fields_in [] ((sections_at frame.now place.now).child n)) }
    ensures words { limits.new.words ≤ limits.old.words }
    ensures depth { limits.new.depth ≡ limits.old.depth }
{
    list_capabilities(alloc, frame, place, n, limits)
}
