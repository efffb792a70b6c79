// Module 2. A kind of a boundary is a number, 0 UnboundedStart, 1 UnboundedEnd, 2 Inclusive, 3 ExclusiveStart, 4 ExclusiveEnd, and any
// other is refused with 1. An item is six words. Two boundaries are six words of their own, the kinds of start and end and then both keys, and
// the words of an unbounded one's key are 0: others are refused with 1.
ghost use Rattle.std.specs.Prelude.{◌≡◌};
ghost use Rattle.query_item.specs.Items.{item_at};
ghost use Rattle.item_check.specs.Checks.{check_verdict};
ghost use Rattle.range_borrowed.specs.Kinds.{kind_number};
ghost use Rattle.item_ask.specs.Calls.{to_range_set_answer, containment_answer, direction_answer};
ghost use Rattle.key_order.specs.Order.{order_number};
ghost use Rattle.fernsponge.specs.Answers.{bool_number, set_numbers, set_words_in, maybe_numbers, containment_numbers, returned, left};
ghost use Rattle.fernsponge.specs.Calls.{compare_answer, invert_answer, between_answer, direction_of_flag};

use crate::numbers::{
    MALFORMED, MAYBE_SIZE, SET_SIZE, bool_number, containment_numbers, is_kind, is_malformed_set,
    maybe_numbers, order_number, refusal_number, set_numbers, set_of_words, set_words,
};
use boundary::compare_boundaries;
use item_ask::{could_contain_key, could_have_items_in_direction, to_query_item, to_range_set};
use item_check::{Refusal, check_list};
use item_words::{ITEM_SIZE, item_at};
use query_item::QueryItem;
use range_borrowed::{Direction, kind_number, kind_numbered};

// How a boundary of one kind at the key a stands to one of another at b: 0 less, 1 equal, 2 greater (01 m2.1).
#[unsafe(no_mangle)]
pub extern "C" fn fernsponge_compare_boundaries(
    kind_a: u32,
    a: &[u8],
    kind_b: u32,
    b: &[u8],
    order: &mut u32,
) -> u64
    ensures value { result ≡ returned (compare_answer kind_a a.now kind_b b.now) }
    ensures order_after { order.new ≡ left order_number (compare_answer kind_a a.now kind_b b.now) order.old }
{
    if is_kind(kind_a) & is_kind(kind_b) {
        *order = order_number(compare_boundaries(
            kind_numbered(kind_a),
            a,
            kind_numbered(kind_b),
            b,
        ));
        return 0;
    }
    MALFORMED
}

// The kind of the inverted boundary, as a start or as an end (01 m2.2).
#[unsafe(no_mangle)]
pub extern "C" fn fernsponge_invert(kind: u32, is_start: bool, inverted: &mut u32) -> u64
    ensures value { result ≡ returned (invert_answer kind is_start) }
    ensures inverted_after { inverted.new ≡ left kind_number (invert_answer kind is_start) inverted.old }
{
    if is_kind(kind) {
        *inverted = kind_number(kind_numbered(kind).invert(is_start));
        return 0;
    }
    MALFORMED
}

// The two boundaries of an item (01 m2.1).
#[unsafe(no_mangle)]
pub extern "C" fn fernsponge_to_range_set(
    pool: &[u8],
    item: &[u32; ITEM_SIZE],
    range: &mut [u32; SET_SIZE],
) -> u64
    ensures value { result ≡ returned (to_range_set_answer pool.now (item_at item.now 0)) }
    ensures range_after { range.new ≡ left set_numbers (to_range_set_answer pool.now (item_at item.now 0)) range.old }
{
    match to_range_set(pool, item_at(item, 0)) {
        Ok(set) => {
            *range = set_numbers(set);
            0
        }
        Err(refusal) => refusal_number(refusal),
    }
}

// The item of two boundaries, which may be missing (01 keys.12).
#[unsafe(no_mangle)]
pub extern "C" fn fernsponge_to_query_item(
    pool: &[u8],
    range: &[u32; SET_SIZE],
    item: &mut [u32; MAYBE_SIZE],
) -> u64
    ensures value { result ≡ returned (between_answer pool.now (set_words_in range.now)) }
    ensures item_after { item.new ≡ left maybe_numbers (between_answer pool.now (set_words_in range.now)) item.old }
{
    let words = set_words(range);
    if is_malformed_set(words) {
        return MALFORMED;
    }
    give_item(to_query_item(pool, set_of_words(words)), item)
}

fn give_item(answer: Result<Option<QueryItem>, Refusal>, item: &mut [u32; MAYBE_SIZE]) -> u64
    ensures value { result ≡ returned answer }
    ensures item_after { item.new ≡ left maybe_numbers answer item.old }
{
    match answer {
        Ok(found) => {
            *item = maybe_numbers(found);
            0
        }
        Err(refusal) => refusal_number(refusal),
    }
}

// Two numbers, 1 for yes and 0 for no: whether an item holds a key, and whether the key sits on an exclusive bound (01 m2.3).
#[unsafe(no_mangle)]
pub extern "C" fn fernsponge_could_contain_key<'a>(
    pool: &'a [u8],
    item: &[u32; ITEM_SIZE],
    key: &'a [u8],
    held: &mut [u32; 2],
) -> u64
    ensures value { result ≡ returned (containment_answer pool.now (item_at item.now 0) key.now) }
    ensures held_after { held.new ≡ left containment_numbers (containment_answer pool.now (item_at item.now 0) key.now) held.old }
{
    match could_contain_key(pool, item_at(item, 0), key) {
        Ok(c) => {
            *held = containment_numbers(c);
            0
        }
        Err(refusal) => refusal_number(refusal),
    }
}

// 1 for yes and 0 for no: whether keys that an item holds may stand left of a key, or else right of it (01 m2.4).
#[unsafe(no_mangle)]
pub extern "C" fn fernsponge_could_have_items_in_direction<'a>(
    pool: &'a [u8],
    item: &[u32; ITEM_SIZE],
    key: &'a [u8],
    to_left: bool,
    yes: &mut u32,
) -> u64
    ensures value { result ≡ returned (direction_answer pool.now (item_at item.now 0) key.now (direction_of_flag to_left)) }
    ensures yes_after { yes.new ≡ left bool_number (direction_answer pool.now (item_at item.now 0) key.now (direction_of_flag to_left)) yes.old }
{
    match could_have_items_in_direction(pool, item_at(item, 0), key, direction(to_left)) {
        Ok(answer) => {
            *yes = bool_number(answer);
            0
        }
        Err(refusal) => refusal_number(refusal),
    }
}

// Whether a list can be used in the algebra, as ours or as theirs (01 no.4).
#[unsafe(no_mangle)]
pub extern "C" fn fernsponge_check_list(pool: &[u8], words: &[u32], theirs: bool) -> u64
    ensures { result ≡ returned (check_verdict pool.now words.now (bool_number theirs)) }
{
    match check_list(pool, words, bool_number(theirs)) {
        Ok(()) => 0,
        Err(refusal) => refusal_number(refusal),
    }
}

fn direction(to_left: bool) -> Direction
    ensures { result ≡ direction_of_flag to_left }
{
    if to_left {
        Direction::LeftOf
    } else {
        Direction::RightOf
    }
}
