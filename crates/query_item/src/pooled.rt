// Boundaries whose keys are parts of a pool: their order, and `invert`. The crate `boundary` has the same on a kind beside lent bytes.
ghost use Rattle.std.specs.Prelude.{◌≡◌};
ghost use Rattle.std.specs.Ordering.{is_lt, is_le};
ghost use Rattle.key_order.specs.Order.{compare_keys};
ghost use Rattle.query_item.specs.Items.{bytes_of};
ghost use Rattle.query_item.specs.Boundaries.{kind_of, key_of, compare_in, with_key, invert_of};

use crate::{KeyAt, RangeSetItem};
use boundary::BoundaryKind;
use key_order::compare;
use std::cmp::Ordering;

// inner: the bytes of a key; what reaches past the pool is not there.
pub fn key_bytes(pool: &[u8], key: KeyAt) -> &[u8]
    ensures { result.now ≡ bytes_of pool.now key }
{
    let from = pool.len().min(key.offset as usize);
    let to = from + (pool.len() - from).min(key.length as usize);
    &pool[from..to]
}

// inner: how two keys of a pool stand.
pub fn compare_keys(pool: &[u8], a: KeyAt, b: KeyAt) -> Ordering
    ensures { result ≡ compare_keys (bytes_of pool.now a) (bytes_of pool.now b) }
{
    compare(key_bytes(pool, a), key_bytes(pool, b))
}

// inner: how two boundaries of a pool stand. Bytes are looked at only where both have keys.
pub fn compare_in(pool: &[u8], x: RangeSetItem, y: RangeSetItem) -> Ordering
    ensures { result ≡ compare_in pool.now x y }
{
    let left = x.kind();
    let right = y.kind();
    if left.is_bounded() & right.is_bounded() {
        return compare_keys(pool, x.key(), y.key()).then(left.cmp(&right));
    }
    left.cmp(&right)
}

// inner: whether a boundary is below another.
pub fn below_in(pool: &[u8], x: RangeSetItem, y: RangeSetItem) -> bool
    ensures { result ≡ is_lt (compare_in pool.now x y) }
{
    compare_in(pool, x, y).is_lt()
}

// inner: whether it is not above the other.
pub fn at_most_in(pool: &[u8], x: RangeSetItem, y: RangeSetItem) -> bool
    ensures { result ≡ is_le (compare_in pool.now x y) }
{
    compare_in(pool, x, y).is_le()
}

impl RangeSetItem {
    // inner: the kind of a boundary.
    pub fn kind(self) -> BoundaryKind
        ensures { result ≡ kind_of self }
    {
        match self {
            RangeSetItem::UnboundedStart => BoundaryKind::UnboundedStart,
            RangeSetItem::UnboundedEnd => BoundaryKind::UnboundedEnd,
            RangeSetItem::Inclusive(_) => BoundaryKind::Inclusive,
            RangeSetItem::ExclusiveStart(_) => BoundaryKind::ExclusiveStart,
            RangeSetItem::ExclusiveEnd(_) => BoundaryKind::ExclusiveEnd,
        }
    }

    // inner: the key of a boundary, the part of no bytes at 0 where it has none.
    pub fn key(self) -> KeyAt
        ensures { result ≡ key_of self }
    {
        match self {
            RangeSetItem::UnboundedStart | RangeSetItem::UnboundedEnd => KeyAt::NONE,
            RangeSetItem::Inclusive(k)
            | RangeSetItem::ExclusiveStart(k)
            | RangeSetItem::ExclusiveEnd(k) => k,
        }
    }

    // inner: the boundary of a kind and a key.
    pub fn with_key(kind: BoundaryKind, key: KeyAt) -> RangeSetItem
        ensures { result ≡ with_key kind key }
    {
        match kind {
            BoundaryKind::UnboundedStart => RangeSetItem::UnboundedStart,
            BoundaryKind::UnboundedEnd => RangeSetItem::UnboundedEnd,
            BoundaryKind::Inclusive => RangeSetItem::Inclusive(key),
            BoundaryKind::ExclusiveStart => RangeSetItem::ExclusiveStart(key),
            BoundaryKind::ExclusiveEnd => RangeSetItem::ExclusiveEnd(key),
        }
    }

    // inner: the inverted boundary, at the same key.
    pub fn invert(self, is_start: bool) -> RangeSetItem
        ensures { result ≡ invert_of self is_start }
    {
        RangeSetItem::with_key(self.kind().invert(is_start), self.key())
    }
}
