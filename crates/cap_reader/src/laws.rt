//! Laws of readings, which hold of every frame and not of one call.

ghost use Rattle.std.specs.Prelude.{◌≡◌, ◌≢◌, ◌≤◌, ◌+◌, ◌++◌, ◌∷◌, ◌↔◌, ℕ, List, [], length, Some, None, Ok, Err, true};
ghost use Rattle.std.specs.Ordering.{nat_cmp};
ghost use Rattle.std.specs.Cmp.Lexicographic.{slice_cmp};
ghost use Rattle.std.specs.List.Sorted.{IsStrictlySortedBy};
ghost use Rattle.cap_reader.specs.declared.pointer.Pointer.{Pointer};
ghost use Rattle.cap_reader.specs.declared.read_error.ReadError.{ReadError};
ghost use Rattle.cap_reader.specs.declared.read_error.ReadError.TheVariants.{OutOfMemory};
ghost use Rattle.cap_reader.specs.Pointers.{start_from};
ghost use Rattle.cap_reader.specs.Tree.{Tree, tree_at, structure_at, root_tree, plain_words};
ghost use Rattle.cap_reader.specs.Reading.{run, ending, cost_of, structure_in, elements_in, text_in, text_of, bytes_in, Sections};
ghost use Rattle.cap_reader.specs.Fields.{fields_in, capability_at};
ghost use Rattle.cap_reader.specs.Laws.{paths_of, over_structs, struct_words, PadOfOne, PadOfTwo, tagged_tree, LooksLike, pointer_at};
ghost use Rattle.cap_reader.specs.Cuts.{Pairs, Correspond, release_whole, release_cut};

/// What [`fields`](crate::fields) lists has each path once, in rising lexicographic order.
pub fn paths_rise()
    ensures { (tree : Tree) (words left : ℕ) (found : List (List ℕ × ℕ))
        → run (fields_in [] tree) words ≡ (Ok found, left)
        → IsStrictlySortedBy (slice_cmp nat_cmp) (paths_of found) }
{}

/// What [`fields`](crate::fields) pays is the words of the structs at and below the pointer, at least 1 for each; so at
/// least their words together.
pub fn structs_are_paid()
    ensures exact { (tree : Tree) (words left : ℕ) (found : List (List ℕ × ℕ))
        → run (fields_in [] tree) words ≡ (Ok found, left)
        → left + over_structs cost_of tree ≡ words }
    ensures words { (tree : Tree) (words left : ℕ) (found : List (List ℕ × ℕ))
        → run (fields_in [] tree) words ≡ (Ok found, left) → left + struct_words tree ≤ words }
{}

/// A far pointer has the value of the pointer on its pad. Behind a pad of two words it has the value of what the tag
/// says at the start of the content, and so that of each pointer in the content's segment which looks like the tag and
/// leads there.
pub fn pads_lead_on()
    ensures one_word { (segments : List (List ℕ)) (segment at pad_segment pad_at : ℕ)
        → PadOfOne segments segment at pad_segment pad_at
        → (depth : ℕ) → tree_at depth segments segment at
        ≡ tree_at depth segments pad_segment pad_at }
    ensures two_words { (segments : List (List ℕ)) (segment at content start : ℕ) (tag : Pointer)
        → PadOfTwo segments segment at content start tag
        → (depth : ℕ) → tree_at depth segments segment at
        ≡ tagged_tree depth segments content start tag }
    ensures near { (segments : List (List ℕ)) (segment at content start : ℕ) (tag : Pointer)
        → PadOfTwo segments segment at content start tag → (near offset : ℕ)
        → LooksLike tag offset (pointer_at segments content near)
        → start_from near offset ≡ Some start
        → (depth : ℕ) → tree_at depth segments segment at ≡ tree_at depth segments content near }
{}

/// Where the pointers of two frames correspond, those that do have the same value, however the frames are cut in
/// segments. So has one message, whole and cut in two.
pub fn cuts_keep_values()
    ensures values { (pairs : Pairs) (one other : List (List ℕ)) → Correspond pairs one other
        → (depth segment at other_segment other_at : ℕ)
        → pairs segment at other_segment other_at ≡ true
        → tree_at depth one segment at ≡ tree_at depth other other_segment other_at }
    ensures release { (depth : ℕ) → root_tree depth release_whole ≡ root_tree depth release_cut }
{}

/// A text is what stands before the zero at the end of a list of bytes, whatever it costs: such a list is read so, and
/// no other.
pub fn texts_end_in_a_zero()
    ensures { (count : ℕ) (word : ℕ → ℕ) (text : List ℕ)
        → (ending (text_of count word) ≡ Ok (Some text)) ↔ (bytes_in count word ≡ text ++ 0 ∷ []) }
{}

/// A call that visits one struct pays its words, and at least 1. One that finds null, or refuses, pays nothing, and so
/// does one that finds a list. One that visits a text pays the words of its bytes and its zero.
pub fn one_visit_is_paid()
    ensures read { (tree : Tree) (words left : ℕ) (sections : Sections)
        → run (structure_in tree) words ≡ (Ok (Some sections), left)
        → left + cost_of (sections.data_words + sections.pointer_count) ≡ words }
    ensures null { (tree : Tree) (words left : ℕ)
        → run (structure_in tree) words ≡ (Ok None, left) → left ≡ words }
    ensures refused { (tree : Tree) (words left : ℕ) (e : ReadError)
        → run (structure_in tree) words ≡ (Err e, left) → left ≡ words }
    ensures text { (tree : Tree) (words left : ℕ) (text : List ℕ)
        → run (text_in tree) words ≡ (Ok (Some text), left)
        → left + plain_words 2 (length text + 1) ≡ words }
    ensures no_text { (tree : Tree) (words left : ℕ)
        → run (text_in tree) words ≡ (Ok None, left) → left ≡ words }
    ensures text_refused { (tree : Tree) (words left : ℕ) (e : ReadError)
        → run (text_in tree) words ≡ (Err e, left) → left ≡ words }
    ensures list { (tree : Tree) (words : ℕ) → (run (elements_in tree) words).1 ≡ words }
{}

/// No fault of pointers is out of memory: [`ReadError::OutOfMemory`](crate::ReadError::OutOfMemory) comes where a
/// growth was refused, and so from [`fields`](crate::fields) alone.
pub fn pointers_want_no_memory()
    ensures structs { (depth : ℕ) (segments : List (List ℕ)) (segment at words : ℕ)
        → (run (structure_in (tree_at depth segments segment at)) words).0 ≢ Err OutOfMemory }
    ensures lists { (depth : ℕ) (segments : List (List ℕ)) (segment at words : ℕ)
        → (run (elements_in (tree_at depth segments segment at)) words).0 ≢ Err OutOfMemory }
    ensures elements { (depth : ℕ) (segments : List (List ℕ))
        (segment start data_words pointer_count words : ℕ) → (run
        (structure_in (structure_at depth segments segment start data_words pointer_count)) words).0
        ≢ Err OutOfMemory }
    ensures texts { (depth : ℕ) (segments : List (List ℕ)) (segment at words : ℕ)
        → (run (text_in (tree_at depth segments segment at)) words).0 ≢ Err OutOfMemory }
    ensures fields { (depth : ℕ) (segments : List (List ℕ)) (segment at words : ℕ) (path : List ℕ)
        → (run (fields_in path (tree_at depth segments segment at)) words).0 ≢ Err OutOfMemory }
{}

/// A path to a capability has no more numbers than structs may stand within one another from its pointer on.
pub fn paths_end()
    ensures { (depth : ℕ) (segments : List (List ℕ)) (segment at : ℕ) (path : List ℕ) (index : ℕ)
        → capability_at (tree_at depth segments segment at) path ≡ Some index
        → length path ≤ depth }
{}
