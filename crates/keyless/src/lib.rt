// Section 2 of document 02: ranges that hold no key, and the item of a piece, none where it holds no key.
// Definitions: specs/Keyless.antt. Laws: proofs/Laws.antt.
//
// The public function is inner: another crate needs it, it checks nothing, and its definition covers every input. Each list asks it of every
// piece: the kinds, at which conversion looks anyway, leave it open for two pairs of them alone; then lengths decide, then the last byte, then
// the bytes before it.
#![tactic(auto)]

ghost use Rattle.std.specs.Ordering.{is_eq};
ghost use Rattle.std.specs.Prelude.{◌≡◌, []};
ghost use Rattle.key_order.specs.Order.{compare_keys};
ghost use Rattle.query_item.specs.Items.{bytes_of};
ghost use Rattle.query_item.specs.Boundaries.{boundary_of, from_to};
ghost use Rattle.query_item.specs.declared.RangeSetItem.TheVariants.{UnboundedStart, ExclusiveStart};
ghost use Rattle.keyless.specs.Keyless.{next_key, opens_at, piece_item};

use query_item::convert::{item_after, item_from, item_to};
use query_item::pooled::key_bytes;
use query_item::{KeyAt, QueryItem, RangeSet, RangeSetItem};

// inner: the item of a piece of a result list; none where the piece holds no key (02 §2.1).
pub fn piece_item(pool: &[u8], s: RangeSet) -> Option<QueryItem>
    ensures { result ≡ piece_item pool.now s }
{
    match s.start {
        RangeSetItem::Inclusive(a) => item_from(pool, a, s.end),
        RangeSetItem::ExclusiveStart(a) => piece_after(pool, a, s.end),
        RangeSetItem::UnboundedStart => piece_to(pool, s.end),
        RangeSetItem::UnboundedEnd => None,
        RangeSetItem::ExclusiveEnd(_) => None,
    }
}

// The item of a piece that starts just past the key a.
fn piece_after(pool: &[u8], a: KeyAt, end: RangeSetItem) -> Option<QueryItem>
    ensures { result ≡ piece_item pool.now (from_to (ExclusiveStart a) end) }
{
    if is_below_next(pool, a, end) {
        return None;
    }
    item_after(a, end)
}

// The item of a piece that starts before every key.
fn piece_to(pool: &[u8], end: RangeSetItem) -> Option<QueryItem>
    ensures { result ≡ piece_item pool.now (from_to UnboundedStart end) }
{
    if is_below_empty(pool, end) {
        return None;
    }
    item_to(end)
}

// Whether an end is open at the empty key.
fn is_below_empty(pool: &[u8], end: RangeSetItem) -> bool
    ensures { result ≡ opens_at [] (boundary_of pool.now end) }
{
    match end {
        RangeSetItem::ExclusiveEnd(b) => is_empty(key_bytes(pool, b)),
        _ => false,
    }
}

// Whether an end is open at the key a with one zero byte more.
fn is_below_next(pool: &[u8], a: KeyAt, end: RangeSetItem) -> bool
    ensures { result ≡ opens_at (next_key (bytes_of pool.now a)) (boundary_of pool.now end) }
{
    match end {
        RangeSetItem::ExclusiveEnd(b) => is_next_key(pool, a, b),
        _ => false,
    }
}

// Whether a key is the empty one.
fn is_empty(b: &[u8]) -> bool
    ensures { result ≡ is_eq (compare_keys [] b.now) }
{
    b.is_empty()
}

// Whether the key b is the key a with one zero byte more. Where a lies in the pool, no key that is named as no longer than it can be.
fn is_next_key(pool: &[u8], a: KeyAt, b: KeyAt) -> bool
    ensures { result ≡ is_eq (compare_keys (next_key (bytes_of pool.now a)) (bytes_of pool.now b)) }
{
    if (b.length <= a.length) & (a.offset as usize + a.length as usize <= pool.len()) {
        return false;
    }
    is_next(key_bytes(pool, a), key_bytes(pool, b))
}

// Whether b is a with one zero byte more: the lengths, then the last byte, then the bytes before it.
fn is_next(a: &[u8], b: &[u8]) -> bool
    ensures { result ≡ is_eq (compare_keys (next_key a.now) b.now) }
{
    let n = a.len();
    if b.len() <= n {
        return false;
    }
    if b.len() - n != 1 {
        return false;
    }
    if b[n] != 0 {
        return false;
    }
    key_order::compare(a, &b[0..n]).is_eq()
}
