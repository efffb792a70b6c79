// Module 2 of document 01: the borrowed range, two keys as lent bytes beside their kinds; nothing is copied. It is made from an item and a
// pool, and asked about a key. A function over the struct is thin: the work is done on plain slices.
// Definitions: specs/Kinds.antt, specs/Borrowed.antt. Laws: proofs/Laws.antt.
#![tactic(auto)]

ghost use Rattle.std.specs.Prelude.{◌≡◌};
ghost use Rattle.query_item.specs.Items.{bytes_of};
ghost use Rattle.query_item.specs.Boundaries.{range_of, key_of, kind_of, boundary_of};
ghost use Rattle.range_borrowed.specs.Kinds.{kind_number, kind_numbered};
ghost use Rattle.range_borrowed.specs.Borrowed.{lent, lent_start, lent_end, Lends, containment_between, may_stand};

use boundary::{BoundaryKind, compare_boundaries};
use item_words::query_item;
use key_order::compare;
use query_item::ItemWords;
use query_item::pooled::key_bytes;

// A range by its two keys, lent, and the numbers of their kinds, which document 01 fixes for it (01 form.10).
#[derive(Clone, Copy)]
pub struct RangeSetBorrowed<'a> {
    pub start: &'a [u8],
    pub end: &'a [u8],
    pub start_kind: u32,
    pub end_kind: u32,
}

// How a range and a key stand: the key is held; the key sits on an exclusive bound. Document 01 asks for both beside one another (01 m2.3).
#[derive(Clone, Copy, PartialEq, Eq)]
pub struct KeyContainmentResult {
    pub included: bool,
    pub on_bounds_not_included: bool,
}

// Where keys are looked for: below the asked key, or above it.
#[derive(Clone, Copy, PartialEq, Eq)]
pub enum Direction {
    LeftOf,
    RightOf,
}

// inner: the number of a kind. C has these numbers, and they stand in another order than the kinds do: no `as` gives them.
pub fn kind_number(kind: BoundaryKind) -> u32
    ensures { result ≡ kind_number kind }
{
    match kind {
        BoundaryKind::UnboundedStart => 0,
        BoundaryKind::UnboundedEnd => 1,
        BoundaryKind::Inclusive => 2,
        BoundaryKind::ExclusiveStart => 3,
        BoundaryKind::ExclusiveEnd => 4,
    }
}

// inner: the kind of a number.
pub fn kind_numbered(n: u32) -> BoundaryKind
    ensures { result ≡ kind_numbered n }
{
    match n {
        0 => BoundaryKind::UnboundedStart,
        1 => BoundaryKind::UnboundedEnd,
        2 => BoundaryKind::Inclusive,
        3 => BoundaryKind::ExclusiveStart,
        _ => BoundaryKind::ExclusiveEnd,
    }
}

// ---- the work, on plain slices

// inner: how a range and a key stand. A start is not above the key exactly where it is below the exclusive start at the key, and the key sits
// on it exactly where it is that one; an end mirrors it. So the bytes of each bound are compared once at most.
pub fn contains(
    start: &[u8],
    start_kind: u32,
    end: &[u8],
    end_kind: u32,
    key: &[u8],
) -> KeyContainmentResult
    ensures { result ≡ containment_between (lent start.now start_kind) (lent end.now end_kind) key.now }
{
    let from = compare_boundaries(
        kind_numbered(start_kind),
        start,
        BoundaryKind::ExclusiveStart,
        key,
    );
    let to = compare_boundaries(
        BoundaryKind::ExclusiveEnd,
        key,
        kind_numbered(end_kind),
        end,
    );
    KeyContainmentResult {
        included: from.is_lt() & to.is_lt(),
        on_bounds_not_included: from.is_eq() | to.is_eq(),
    }
}

// inner: whether keys of a range may stand in a direction of a key: one bound is compared. The unbounded kinds are 0 and 1.
pub fn may_stand(
    start: &[u8],
    start_kind: u32,
    end: &[u8],
    end_kind: u32,
    key: &[u8],
    direction: Direction,
) -> bool
    ensures { result ≡ may_stand (lent start.now start_kind) (lent end.now end_kind) key.now direction }
{
    match direction {
        Direction::LeftOf => (start_kind < 2) | compare(start, key).is_lt(),
        Direction::RightOf => (end_kind < 2) | compare(key, end).is_lt(),
    }
}

// ---- the borrowed range

// inner: the range of an item: its two keys are parts of the pool, and nothing is copied (01 m2.7, form.10).
pub fn to_range_set_borrowed<'a>(pool: &'a [u8], item: ItemWords) -> RangeSetBorrowed<'a>
    ensures { Lends pool.now (range_of item) result }
{
    let set = query_item(item).to_range_set();
    RangeSetBorrowed {
        start: key_bytes(pool, set.start.key()),
        end: key_bytes(pool, set.end.key()),
        start_kind: kind_number(set.start.kind()),
        end_kind: kind_number(set.end.kind()),
    }
}

impl<'a> RangeSetBorrowed<'a> {
    // Whether the range holds a key, and whether the key sits on an exclusive bound (01 m2.3).
    pub fn could_contain_key(self, key: &[u8]) -> KeyContainmentResult
        ensures { result ≡ containment_between (lent_start self.entry) (lent_end self.entry) key.now }
    {
        contains(self.start, self.start_kind, self.end, self.end_kind, key)
    }

    // Whether keys of the range may stand in a direction of a key. No means that none does (01 m2.4).
    pub fn could_have_items_in_direction(self, key: &[u8], direction: Direction) -> bool
        ensures { result ≡ may_stand (lent_start self.entry) (lent_end self.entry) key.now direction }
    {
        may_stand(
            self.start,
            self.start_kind,
            self.end,
            self.end_kind,
            key,
            direction,
        )
    }
}

// inner: an item's range is made, and asked whether it holds a key.
pub fn item_contains(pool: &[u8], item: ItemWords, key: &[u8]) -> KeyContainmentResult
    ensures { result ≡ containment_between (boundary_of pool.now (range_of item).start) (boundary_of pool.now (range_of item).end) key.now }
{
    to_range_set_borrowed(pool, item).could_contain_key(key)
}

// inner: the same, asked whether keys of it may stand in a direction of a key.
pub fn item_may_stand(pool: &[u8], item: ItemWords, key: &[u8], direction: Direction) -> bool
    ensures { result ≡ may_stand (boundary_of pool.now (range_of item).start) (boundary_of pool.now (range_of item).end) key.now direction }
{
    to_range_set_borrowed(pool, item).could_have_items_in_direction(key, direction)
}
