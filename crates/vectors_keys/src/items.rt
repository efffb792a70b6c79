// Calls on an item, or on two boundaries, in a pool.
use query_item::{RangeSet, RangeSetItem};
use range_borrowed::{Direction, kind_number, kind_numbered};
use vectors::{Reader, Recorded};

// Inputs: a pool and an item. The answer is the kinds of both boundaries, and their keys.
pub(crate) fn to_range_set(mut x: Reader<'_>, recorded: Recorded<'_>) -> bool {
    let pool = x.block();
    match item_ask::to_range_set(pool, x.item()) {
        Ok(set) => recorded.answers(|held| {
            held.byte(u64::from(kind_number(set.start.kind())))
                .byte(u64::from(kind_number(set.end.kind())))
                .key(pool, set.start.key())
                .key(pool, set.end.key())
        }),
        Err(refusal) => recorded.refuses(refusal),
    }
}

// Inputs: a pool and two boundaries, the kinds in the place of an item's code and wrapper. The answer is an item or none.
pub(crate) fn to_query_item(mut x: Reader<'_>, recorded: Recorded<'_>) -> bool {
    let pool = x.block();
    let words = x.item();
    let set = RangeSet {
        start: RangeSetItem::with_key(kind_numbered(words.code), words.start),
        end: RangeSetItem::with_key(kind_numbered(words.wrapper), words.end),
    };
    match item_ask::to_query_item(pool, set) {
        Ok(item) => recorded.answers(|held| held.maybe(pool, item)),
        Err(refusal) => recorded.refuses(refusal),
    }
}

// Inputs: a pool, an item and a key. The answer is whether the item holds the key, and whether the key sits on an exclusive bound.
pub(crate) fn could_contain_key(mut x: Reader<'_>, recorded: Recorded<'_>) -> bool {
    let pool = x.block();
    let item = x.item();
    match item_ask::could_contain_key(pool, item, x.key()) {
        Ok(answer) => recorded.answers(|held| {
            held.byte(u64::from(answer.included))
                .byte(u64::from(answer.on_bounds_not_included))
        }),
        Err(refusal) => recorded.refuses(refusal),
    }
}

// Inputs: a pool, an item, a key, and 1 for left.
pub(crate) fn could_have_items(mut x: Reader<'_>, recorded: Recorded<'_>) -> bool {
    let pool = x.block();
    let item = x.item();
    let key = x.key();
    let direction = if x.flag() {
        Direction::LeftOf
    } else {
        Direction::RightOf
    };
    match item_ask::could_have_items_in_direction(pool, item, key, direction) {
        Ok(yes) => recorded.number(u64::from(yes)),
        Err(refusal) => recorded.refuses(refusal),
    }
}
