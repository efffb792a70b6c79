// Items as two boundaries, and back. Items need not be upright.
ghost use Rattle.std.specs.Prelude.{◌≡◌, List, ℕ};
ghost use Rattle.query_item.specs.Boundaries.{to_range_set, to_query_item, item_between};
ghost use Rattle.query_item.specs.declared.RangeSetItem.TheVariants.{UnboundedStart, Inclusive, ExclusiveStart};

use crate::pooled::compare_keys;
use crate::{KeyAt, QueryItem, RangeSet, RangeSetItem};

impl QueryItem {
    // inner: the two boundaries of an item.
    pub fn to_range_set(self) -> RangeSet
        ensures { result ≡ to_range_set self }
    {
        match self {
            QueryItem::Key(a) => RangeSet {
                start: RangeSetItem::Inclusive(a),
                end: RangeSetItem::Inclusive(a),
            },
            QueryItem::Range(a, b) => RangeSet {
                start: RangeSetItem::Inclusive(a),
                end: RangeSetItem::ExclusiveEnd(b),
            },
            QueryItem::RangeInclusive(a, b) => RangeSet {
                start: RangeSetItem::Inclusive(a),
                end: RangeSetItem::Inclusive(b),
            },
            QueryItem::RangeFull => RangeSet {
                start: RangeSetItem::UnboundedStart,
                end: RangeSetItem::UnboundedEnd,
            },
            QueryItem::RangeFrom(a) => RangeSet {
                start: RangeSetItem::Inclusive(a),
                end: RangeSetItem::UnboundedEnd,
            },
            QueryItem::RangeTo(b) => RangeSet {
                start: RangeSetItem::UnboundedStart,
                end: RangeSetItem::ExclusiveEnd(b),
            },
            QueryItem::RangeToInclusive(b) => RangeSet {
                start: RangeSetItem::UnboundedStart,
                end: RangeSetItem::Inclusive(b),
            },
            QueryItem::RangeAfter(a) => RangeSet {
                start: RangeSetItem::ExclusiveStart(a),
                end: RangeSetItem::UnboundedEnd,
            },
            QueryItem::RangeAfterTo(a, b) => RangeSet {
                start: RangeSetItem::ExclusiveStart(a),
                end: RangeSetItem::ExclusiveEnd(b),
            },
            QueryItem::RangeAfterToInclusive(a, b) => RangeSet {
                start: RangeSetItem::ExclusiveStart(a),
                end: RangeSetItem::Inclusive(b),
            },
        }
    }
}

impl RangeSet {
    // inner: the item of two boundaries, where there is one.
    pub fn to_query_item(self, pool: &[u8]) -> Option<QueryItem>
        ensures { result ≡ to_query_item pool.now self }
    {
        match self.start {
            RangeSetItem::Inclusive(a) => item_from(pool, a, self.end),
            RangeSetItem::ExclusiveStart(a) => item_after(a, self.end),
            RangeSetItem::UnboundedStart => item_to(self.end),
            RangeSetItem::UnboundedEnd => None,
            RangeSetItem::ExclusiveEnd(_) => None,
        }
    }
}

// inner: the item that starts with the key a, by its end.
pub fn item_from(pool: &[u8], a: KeyAt, end: RangeSetItem) -> Option<QueryItem>
    ensures { result ≡ item_between pool.now (Inclusive a) end }
{
    match end {
        RangeSetItem::Inclusive(b) => inclusive_item(pool, a, b),
        RangeSetItem::ExclusiveEnd(b) => Some(QueryItem::Range(a, b)),
        RangeSetItem::UnboundedEnd => Some(QueryItem::RangeFrom(a)),
        RangeSetItem::UnboundedStart => None,
        RangeSetItem::ExclusiveStart(_) => None,
    }
}

// From a to b, both held: of equal bytes the key, with a's offset.
fn inclusive_item(pool: &[u8], a: KeyAt, b: KeyAt) -> Option<QueryItem>
    ensures { result ≡ item_between pool.now (Inclusive a) (Inclusive b) }
{
    if compare_keys(pool, a, b).is_eq() {
        return Some(QueryItem::Key(a));
    }
    Some(QueryItem::RangeInclusive(a, b))
}

// inner: the item that starts just past the key a, by its end. No bytes decide: it is that of every pool.
pub fn item_after(a: KeyAt, end: RangeSetItem) -> Option<QueryItem>
    ensures { (pool : List ℕ) → result ≡ item_between pool (ExclusiveStart a) end }
{
    match end {
        RangeSetItem::Inclusive(b) => Some(QueryItem::RangeAfterToInclusive(a, b)),
        RangeSetItem::ExclusiveEnd(b) => Some(QueryItem::RangeAfterTo(a, b)),
        RangeSetItem::UnboundedEnd => Some(QueryItem::RangeAfter(a)),
        RangeSetItem::UnboundedStart => None,
        RangeSetItem::ExclusiveStart(_) => None,
    }
}

// inner: the item that starts before every key, by its end, in every pool.
pub fn item_to(end: RangeSetItem) -> Option<QueryItem>
    ensures { (pool : List ℕ) → result ≡ item_between pool UnboundedStart end }
{
    match end {
        RangeSetItem::Inclusive(b) => Some(QueryItem::RangeToInclusive(b)),
        RangeSetItem::ExclusiveEnd(b) => Some(QueryItem::RangeTo(b)),
        RangeSetItem::UnboundedEnd => Some(QueryItem::RangeFull),
        RangeSetItem::UnboundedStart => None,
        RangeSetItem::ExclusiveStart(_) => None,
    }
}
