// The pair: what two ranges share, and their leftovers.
ghost use Rattle.std.specs.Prelude.{◌≡◌};
ghost use Rattle.key_order.specs.Order.{smaller};
ghost use Rattle.query_item.specs.Boundaries.{from_to};
ghost use Rattle.intersect.specs.Pair.{before, meet_sets, left_part, left_over, right_part, right_over, as_sets, converted, intersection, pair_verdict, pair_answer};

use crate::QueryItemIntersectionResult;
use item_check::{Refusal, check_pool, check_upright};
use item_words::query_item;
use query_item::pooled::{below_in, compare_in};
use query_item::{ItemWords, QueryItem, RangeSet, RangeSetItem};
use std::cmp::Ordering;

// What two items share, and what is left over of each (01 m3.1, m3.2, m3.6).
pub fn intersect_items(
    pool: &[u8],
    ours: ItemWords,
    theirs: ItemWords,
) -> Result<QueryItemIntersectionResult, Refusal>
    ensures { result ≡ pair_answer pool.now ours theirs }
{
    check_pair(pool, ours, theirs)?;
    Ok(intersect(
        pool,
        query_item(ours).to_range_set(),
        query_item(theirs).to_range_set(),
    ))
}

// The pool, then ours, then theirs.
fn check_pair(pool: &[u8], ours: ItemWords, theirs: ItemWords) -> Result<(), Refusal>
    ensures { result ≡ pair_verdict pool.now ours theirs }
{
    check_pool(pool)?;
    check_upright(pool, ours, 0, 0)?;
    check_upright(pool, theirs, 1, 0)
}

// The pair of two ranges.
fn intersect(pool: &[u8], ours: RangeSet, theirs: RangeSet) -> QueryItemIntersectionResult
    ensures { result ≡ intersection pool.now ours theirs }
{
    let (ours_left, ours_right) = leftovers(pool, ours, theirs);
    let (theirs_left, theirs_right) = leftovers(pool, theirs, ours);
    QueryItemIntersectionResult {
        in_both: item_of(pool, meet_sets(pool, ours, theirs)),
        ours_left: item_of(pool, ours_left),
        ours_right: item_of(pool, ours_right),
        theirs_left: item_of(pool, theirs_left),
        theirs_right: item_of(pool, theirs_right),
    }
}

// The item of a range, if there is one.
fn item_of(pool: &[u8], set: Option<RangeSet>) -> Option<QueryItem>
    ensures { result ≡ converted pool.now (as_sets set) }
{
    set.and_then(|s| s.to_query_item(pool))
}

// inner: whether a ends below the start of b.
pub fn is_before(pool: &[u8], a: RangeSet, b: RangeSet) -> bool
    ensures { result ≡ before pool.now a b }
{
    below_in(pool, a.end, b.start)
}

// What two ranges share.
fn meet_sets(pool: &[u8], ours: RangeSet, theirs: RangeSet) -> Option<RangeSet>
    ensures { as_sets result ≡ meet_sets pool.now ours theirs }
{
    if is_before(pool, ours, theirs) | is_before(pool, theirs, ours) {
        return None;
    }
    let starts = compare_in(pool, ours.start, theirs.start);
    let ends = compare_in(pool, ours.end, theirs.end);
    Some(overlap_by(starts, ends, ours, theirs))
}

// inner: from the larger start, ours on a tie, to the smaller end, theirs on a tie, where it is known how the starts and the ends stand.
pub fn overlap_by(starts: Ordering, ends: Ordering, ours: RangeSet, theirs: RangeSet) -> RangeSet
    ensures { result ≡ from_to (smaller starts theirs.start ours.start) (smaller ends ours.end theirs.end) }
{
    RangeSet {
        start: smaller_of(starts, theirs.start, ours.start),
        end: smaller_of(ends, ours.end, theirs.end),
    }
}

fn smaller_of(o: Ordering, x: RangeSetItem, y: RangeSetItem) -> RangeSetItem
    ensures { result ≡ smaller o x y }
{
    if o.is_lt() { x } else { y }
}

// What of a stands left of b, and what of it right.
#[tactic(auto, unfolding(crate::specs::Pair::left_over, crate::specs::Pair::right_over))]
fn leftovers(pool: &[u8], a: RangeSet, b: RangeSet) -> (Option<RangeSet>, Option<RangeSet>)
    ensures left { as_sets result.0 ≡ left_over pool.now a b }
    ensures right { as_sets result.1 ≡ right_over pool.now a b }
{
    if is_before(pool, a, b) {
        return (Some(a), None);
    }
    if is_before(pool, b, a) {
        return (None, Some(a));
    }
    (left_part(pool, a, b), right_part(pool, a, b))
}

// What of a starts below b, up to b's start.
fn left_part(pool: &[u8], a: RangeSet, b: RangeSet) -> Option<RangeSet>
    ensures { as_sets result ≡ left_part pool.now a b }
{
    if !below_in(pool, a.start, b.start) {
        return None;
    }
    Some(RangeSet {
        start: a.start,
        end: b.start.invert(false),
    })
}

// What of a ends above b, from b's end on.
fn right_part(pool: &[u8], a: RangeSet, b: RangeSet) -> Option<RangeSet>
    ensures { as_sets result ≡ right_part pool.now a b }
{
    if !below_in(pool, b.end, a.end) {
        return None;
    }
    Some(RangeSet {
        start: b.end.invert(true),
        end: a.end,
    })
}
