//! Visiting the structs and the lists of structs of a frame. Each call answers what the reading of the tree at its
//! place gives within the words left, and lowers them by what its visit costs; a refusal leaves them as they were.

ghost use Rattle.std.specs.Prelude.{◌≡◌, ◌<◌, ◌≤◌, ◌+◌, ◌^◌, List, ℕ, Option, Some, IfOk};
ghost use Rattle.std.specs.Option.{option_map};
ghost use Rattle.cap_reader.specs.Pointers.{extent as extent_in};
ghost use Rattle.cap_reader.specs.Tree.{structure_there, structure_at, tree_at, root_tree, composite_there};
ghost use Rattle.cap_reader.specs.Reading.{Runs, run, structure_in, elements_in, root_in};
ghost use Rattle.cap_reader.specs.Glue.{Gives};
ghost use Rattle.cap_reader.specs.Places.{sections_at, elements_at, list_len};

use crate::extent::{extent, reaches, word_or_zero};
use crate::following::follow;
use crate::limits::Limits;
use crate::place::{ListAt, StructAt};
use crate::pointee::Pointee;
use crate::pointer::{count_of, data_of, element_size_of, offset_of, pointers_of, start_of};
use crate::read_error::ReadError;
use cap_frame::Frame;

/// The element size of a list of structs (encoding specification, "Lists").
pub const COMPOSITE: u8 = 7;

/// Where a struct may stand: its segment, its start and the sizes of its two sections in words.
#[derive(Clone, Copy)]
struct Spot {
    segment: u32,
    start: u32,
    data_words: u16,
    pointer_count: u16,
}

/// The struct at a place where so many structs may stand within one another, after paying for the visit.
#[inline(always)]
fn visit(spot: Spot, depth: u32, limits: &mut Limits) -> Result<StructAt, ReadError>
    ensures value { (segments : List (List ℕ)) → Runs
        (λ place. Some (sections_at segments place)) result limits.new.words
        (run (structure_in
        (structure_at depth segments spot.segment spot.start spot.data_words spot.pointer_count))
        limits.old.words) }
    ensures falls { IfOk result (λ place. place.below < depth) }
    ensures words { limits.new.words ≤ limits.old.words }
    ensures depth { limits.new.depth ≡ limits.old.depth }
{
    if depth == 0 {
        return Err(ReadError::TooDeep);
    }
    let cost = (u64::from(spot.data_words) + u64::from(spot.pointer_count)).max(1);
    if limits.words < cost {
        return Err(ReadError::TooMuch);
    }
    limits.words -= cost;
    Ok(StructAt {
        segment: spot.segment,
        start: spot.start,
        data_words: spot.data_words,
        pointer_count: spot.pointer_count,
        below: depth - 1,
    })
}

/// The struct to which a struct pointer leads.
#[tactic(auto, unfolding(crate::specs::Reading::pay_for))]
pub fn enter(
    frame: &Frame,
    segment: u32,
    start: Option<u64>,
    sizes: (u16, u16),
    depth: u32,
    limits: &mut Limits,
) -> Result<StructAt, ReadError>
    ensures value { Runs (λ place. Some (sections_at frame.now place)) result limits.new.words
        (run (structure_in
        (structure_there (λ at. structure_at depth frame.now segment at sizes.0 sizes.1)
        (extent_in frame.now segment start (sizes.0 + sizes.1)))) limits.old.words) }
    ensures falls { IfOk result (λ place. place.below < depth) }
    ensures words { limits.new.words ≤ limits.old.words }
    ensures depth { limits.new.depth ≡ limits.old.depth }
{
    let (data_words, pointer_count) = sizes;
    let size = u64::from(data_words) + u64::from(pointer_count);
    match extent(frame, segment, start, size) {
        None => Err(ReadError::OutOfSegment),
        Some(start) => visit(
            Spot {
                segment,
                start,
                data_words,
                pointer_count,
            },
            depth,
            limits,
        ),
    }
}

/// The struct at the pointer at a place, None where it is null, by all that a pointer may say.
#[tactic(auto, using(crate::proofs::OtherKinds::list_is_no_structure), unfolding(crate::specs::Tree::tree_behind, crate::specs::Reading::pay_for))]
#[cold]
#[inline(never)]
fn struct_behind(
    frame: &Frame,
    segment: u32,
    at: u64,
    depth: u32,
    limits: &mut Limits,
) -> Result<Option<StructAt>, ReadError>
    requires { at < 2 ^ 40 }
    ensures value { Runs (λ found. option_map (sections_at frame.now) found) result limits.new.words
        (run (structure_in (tree_at depth frame.now segment at)) limits.old.words) }
    ensures depth { limits.new.depth ≡ limits.old.depth }
{
    match follow(frame, segment, at)? {
        Pointee::Null => Ok(None),
        Pointee::Struct {
            segment,
            start,
            data_words,
            pointer_count,
        } => {
            let sizes = (data_words, pointer_count);
            let place = enter(frame, segment, start, sizes, depth, limits)?;
            Ok(Some(place))
        }
        Pointee::Reserved => Err(ReadError::Reserved),
        Pointee::List { .. } | Pointee::Capability { .. } => Err(ReadError::WrongKind),
    }
}

/// The struct at the pointer at a place, None where it is null. Most pointers to structs are null or lead into their own
/// segment, which their word tells at once.
#[tactic(auto, using(crate::proofs::Near::null_word, crate::proofs::Near::struct_word), unfolding(crate::specs::Tree::tree_behind, crate::specs::Reading::pay_for))]
#[inline]
fn struct_at(
    frame: &Frame,
    segment: u32,
    at: u64,
    depth: u32,
    limits: &mut Limits,
) -> Result<Option<StructAt>, ReadError>
    requires { at < 2 ^ 40 }
    ensures value { Runs (λ found. option_map (sections_at frame.now) found) result limits.new.words
        (run (structure_in (tree_at depth frame.now segment at)) limits.old.words) }
    ensures depth { limits.new.depth ≡ limits.old.depth }
{
    let word = word_or_zero(frame, segment, at);
    if word == 0 {
        return Ok(None);
    }
    if word % 4 != 0 {
        return struct_behind(frame, segment, at, depth, limits);
    }
    let start = start_of(at, offset_of(word));
    let sizes = (data_of(word), pointers_of(word));
    let place = enter(frame, segment, start, sizes, depth, limits)?;
    Ok(Some(place))
}

/// The list of structs to which a composite list pointer leads, whose content has so many words behind its tag.
#[tactic(auto, unfolding(crate::specs::Tree::elements_behind))]
pub fn composite(
    frame: &Frame,
    segment: u32,
    start: Option<u64>,
    size: u32,
    depth: u32,
) -> Result<ListAt, ReadError>
    ensures { Gives (λ list. Some (elements_at frame.now list)) result
        (elements_in (composite_there (structure_at depth frame.now segment) frame.now segment size
        (extent_in frame.now segment start 1))) }
{
    let Some(tag_at) = extent(frame, segment, start, 1) else {
        return Err(ReadError::OutOfSegment);
    };
    let tag = word_or_zero(frame, segment, u64::from(tag_at));
    if tag % 4 != 0 {
        return Err(ReadError::WrongKind);
    }
    let count = offset_of(tag);
    let data_words = data_of(tag);
    let pointer_count = pointers_of(tag);
    let element_size = u64::from(data_words) + u64::from(pointer_count);
    let start = u64::from(tag_at) + 1;
    if !reaches(frame, segment, start + u64::from(size))
        || u64::from(count) * element_size > u64::from(size)
    {
        return Err(ReadError::OutOfSegment);
    }
    Ok(ListAt {
        segment,
        start: start as u32,
        count,
        data_words,
        pointer_count,
        depth,
    })
}

/// The list of structs at the pointer at a place, None where it is null, by all that a pointer may say.
#[tactic(auto, using(crate::proofs::OtherKinds::structure_is_no_list), unfolding(crate::specs::Tree::tree_behind, crate::specs::Tree::list_there))]
#[cold]
#[inline(never)]
fn list_behind(
    frame: &Frame,
    segment: u32,
    at: u64,
    depth: u32,
) -> Result<Option<ListAt>, ReadError>
    requires { at < 2 ^ 40 }
    ensures { Gives (λ found. option_map (elements_at frame.now) found) result
        (elements_in (tree_at depth frame.now segment at)) }
{
    match follow(frame, segment, at)? {
        Pointee::Null => Ok(None),
        Pointee::List {
            segment,
            start,
            element_size: COMPOSITE,
            count,
        } => {
            let list = composite(frame, segment, start, count, depth)?;
            Ok(Some(list))
        }
        Pointee::Reserved => Err(ReadError::Reserved),
        _ => Err(ReadError::WrongKind),
    }
}

/// The list of structs at the pointer at a place, None where it is null. Most pointers to lists of structs are null or
/// lead into their own segment, which their word tells at once.
#[tactic(auto, using(crate::proofs::Near::null_word, crate::proofs::Near::composite_word), unfolding(crate::specs::Tree::tree_behind, crate::specs::Tree::list_there))]
fn list_at(frame: &Frame, segment: u32, at: u64, depth: u32) -> Result<Option<ListAt>, ReadError>
    requires { at < 2 ^ 40 }
    ensures { Gives (λ found. option_map (elements_at frame.now) found) result
        (elements_in (tree_at depth frame.now segment at)) }
{
    let word = word_or_zero(frame, segment, at);
    if word == 0 {
        return Ok(None);
    }
    if word % 4 != 1 || element_size_of(word) != COMPOSITE {
        return list_behind(frame, segment, at, depth);
    }
    let start = start_of(at, offset_of(word));
    let list = composite(frame, segment, start, count_of(word), depth)?;
    Ok(Some(list))
}

/// The root struct of a frame; where the root pointer is null, the empty struct, in which every field has its default.
/// The root pointer is the first word of segment 0 (encoding specification, "Messages").
///
/// # Errors
///
/// Each of [`ReadError`] but `NoZero` and `OutOfMemory`, in the order that is told there. The words left are as they
/// were.
pub fn root(frame: &Frame, limits: &mut Limits) -> Result<StructAt, ReadError>
    ensures value { Runs (sections_at frame.now) result limits.new.words
        (run (root_in (root_tree limits.old.depth frame.now)) limits.old.words) }
    ensures depth { limits.new.depth ≡ limits.old.depth }
{
    let depth = u32::from(limits.depth);
    match struct_at(frame, 0, 0, depth, limits)? {
        Some(place) => Ok(place),
        None => Ok(StructAt {
            segment: 0,
            start: 0,
            data_words: 0,
            pointer_count: 0,
            below: 0,
        }),
    }
}

/// The struct at a pointer of a struct, by the pointer's number, counted from 0. None where the pointer is null, or the
/// struct is too short to have it (encoding specification, "Structs").
///
/// # Errors
///
/// Each of [`ReadError`] but `NoZero` and `OutOfMemory`, in the order that is told there. The words left are as they
/// were.
#[tactic(auto, unfolding(crate::specs::Reading::pay_for))]
#[inline(always)]
pub fn struct_field(
    frame: &Frame,
    place: &StructAt,
    n: u16,
    limits: &mut Limits,
) -> Result<Option<StructAt>, ReadError>
    ensures value { Runs (λ found. option_map (sections_at frame.now) found) result limits.new.words
        (run (structure_in ((sections_at frame.now place.now).child n)) limits.old.words) }
    ensures depth { limits.new.depth ≡ limits.old.depth }
{
    match place.pointer(n) {
        Some(at) => struct_at(frame, place.segment, at, place.below, limits),
        None => Ok(None),
    }
}

/// The list of structs at a pointer of a struct, by the pointer's number, counted from 0. None where the pointer is
/// null, or the struct is too short to have it. It costs nothing (encoding specification, "Lists", of element size 7).
///
/// # Errors
///
/// `NoSegment`, `OutOfSegment` or `BadPad` of a pad; else `Reserved`; else `WrongKind` where it isn't a list of
/// structs, or its tag isn't a struct's; else `OutOfSegment` where the list leaves its segment, or its elements the
/// list. A list whose very tag leaves the segment is `OutOfSegment`.
#[tactic(auto, unfolding(crate::specs::Reading::pay_for))]
#[inline(always)]
pub fn list_field(
    frame: &Frame,
    place: &StructAt,
    n: u16,
    limits: &mut Limits,
) -> Result<Option<ListAt>, ReadError>
    ensures value { Runs (λ found. option_map (elements_at frame.now) found) result limits.new.words
        (run (elements_in ((sections_at frame.now place.now).child n)) limits.old.words) }
    ensures depth { limits.new.depth ≡ limits.old.depth }
{
    match place.pointer(n) {
        Some(at) => list_at(frame, place.segment, at, place.below),
        None => Ok(None),
    }
}

impl ListAt {
    /// How many elements there are.
    pub fn len(&self) -> u32
        ensures { result ≡ list_len self.now }
    {
        self.count
    }

    /// The struct of an element, counted from 0. It stands one deeper than the struct with the list's pointer.
    ///
    /// # Errors
    ///
    /// `TooDeep` or else `TooMuch`, and no other. The words left are as they were.
    pub fn element(&self, i: u32, limits: &mut Limits) -> Result<StructAt, ReadError>
        requires { i < list_len self.now }
        // In any frame, so in the list's own.
        ensures value { (segments : List (List ℕ)) → Runs
            (λ place. Some (sections_at segments place)) result limits.new.words
            (run (structure_in ((elements_at segments self.now).element i)) limits.old.words) }
        ensures depth { limits.new.depth ≡ limits.old.depth }
    {
        let size = u64::from(self.data_words) + u64::from(self.pointer_count);
        let start = u64::from(self.start) + u64::from(i) * size;
        visit(
            Spot {
                segment: self.segment,
                start: start as u32,
                data_words: self.data_words,
                pointer_count: self.pointer_count,
            },
            self.depth,
            limits,
        )
    }
}
