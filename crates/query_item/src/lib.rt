// Module 2 of document 01: items and the boundaries of their ranges. `boundary` has boundaries as kinds beside
// lent bytes, `item_check` the refusals and the checks of items and lists, `item_ask` the calls that check an item and answer.
// Definitions: specs/Items.antt (the table, and what items show), specs/Boundaries.antt (order, conversions). Laws: proofs/Laws.antt.
//
// A function marked "inner" is public only because other crates need it. It checks nothing: its definition covers every input.
#![tactic(auto)]

pub mod convert;
pub mod pooled;

// A key: a part of the pool.
#[derive(Clone, Copy, PartialEq, Eq)]
pub struct KeyAt {
    pub offset: u32,
    pub length: u32,
}

impl KeyAt {
    // The key of an item or a boundary that has none: no bytes at 0.
    pub const NONE: KeyAt = KeyAt {
        offset: 0,
        length: 0,
    };
}

// The ten kinds of items.
#[derive(Clone, Copy, PartialEq, Eq)]
pub enum QueryItem {
    Key(KeyAt),
    Range(KeyAt, KeyAt),
    RangeInclusive(KeyAt, KeyAt),
    RangeFull,
    RangeFrom(KeyAt),
    RangeTo(KeyAt),
    RangeToInclusive(KeyAt),
    RangeAfter(KeyAt),
    RangeAfterTo(KeyAt, KeyAt),
    RangeAfterToInclusive(KeyAt, KeyAt),
}

// A boundary whose key is a part of the pool; the kinds stand in the order of `BoundaryKind`.
#[derive(Clone, Copy, PartialEq, Eq)]
pub enum RangeSetItem {
    UnboundedStart,
    ExclusiveEnd(KeyAt),
    Inclusive(KeyAt),
    ExclusiveStart(KeyAt),
    UnboundedEnd,
}

// A range by its two boundaries.
#[derive(Clone, Copy, PartialEq, Eq)]
pub struct RangeSet {
    pub start: RangeSetItem,
    pub end: RangeSetItem,
}

// The six words of an item: code, wrapper, start offset, start length, end offset, end length.
#[derive(Clone, Copy, PartialEq, Eq)]
pub struct ItemWords {
    pub code: u32,
    pub wrapper: u32,
    pub start: KeyAt,
    pub end: KeyAt,
}
