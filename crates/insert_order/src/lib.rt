// Module 5 of document 01, its first part: the order of a list of items, and all that an insertion refuses before the room, in the order
// that document 01 fixes. The crate `insert` has the call.
// Definitions: specs/Order.antt, specs/Refusals.antt. specs/Passes.antt has what the pass over the list goes by. Laws: proofs/Ordered.antt
// (an accepted list is one in which no item clashes with a later one), proofs/Accepted.antt (what accepted items and counts have),
// proofs/Ranked.antt (the order goes by what items show, and by their ranks).
//
// A function marked "inner" is public only because `insert` needs it. Its definition covers every input.
#![tactic(auto)]

ghost use Rattle.std.specs.Prelude.{◌≡◌, ◌-◌};
ghost use Rattle.query_item.specs.Items.{items_from};
ghost use Rattle.query_item.specs.Boundaries.{range_of};
ghost use Rattle.item_check.specs.Checks.{accepted, upright_fault, first_bad};
ghost use Rattle.insert_order.specs.Order.{compare_items, plain, same_item, ends_below};
ghost use Rattle.insert_order.specs.Refusals.{buffer_verdict, order_verdict, ordered_verdict, input_verdict};
ghost use Rattle.insert_order.specs.Passes.{follows_plain, last_order, run_start, meets_plain, last_plain, repeats, quick_clash};

use item_check::{MOST_ITEMS, Reason, Refusal, check_items, check_pool, check_upright, refuse};
use item_words::{ITEM_SIZE, item_at, query_item};
use query_item::pooled::{below_in, compare_in, compare_keys};
use query_item::{ItemWords, RangeSet};
use std::cmp::Ordering;

// inner: all that is refused before the room: the pool, the list, the new item.
pub fn check_input(pool: &[u8], words: &[u32], count: usize, item: ItemWords) -> Result<(), Refusal>
    ensures { result ≡ input_verdict pool.now words.now count item }
{
    check_pool(pool)?;
    check_buffer(words, count)?;
    check_ordered(pool, words, count)?;
    check_upright(pool, item, 1, 0)
}

// The count is not beyond the buffer, nor too large. Spare words are never refused.
fn check_buffer(words: &[u32], count: usize) -> Result<(), Refusal>
    ensures { result ≡ buffer_verdict words.now count }
{
    if (words.len() / ITEM_SIZE < count) | (MOST_ITEMS < count) {
        return refuse(Reason::Malformed, 0, 0);
    }
    Ok(())
}

fn check_ordered(pool: &[u8], words: &[u32], count: usize) -> Result<(), Refusal>
    ensures { result ≡ ordered_verdict pool.now (items_from words.now 0 count) }
{
    check_items(pool, words, count, 0)?;
    check_order(pool, words, count)
}

// The first item that breaks insertion order with any earlier one; 4. A plain item that starts above the end of the item before it, which is
// plain too, breaks no rule. Otherwise only the last of the earlier ones, the last plain one and the run of items of the same range, at
// most seven, have to be asked.
fn check_order(pool: &[u8], words: &[u32], count: usize) -> Result<(), Refusal>
    requires { first_bad (upright_fault pool.now) 0 0 (items_from words.now 0 count) ≡ accepted }
    ensures { result ≡ order_verdict pool.now (items_from words.now 0 count) }
{
    let mut run: usize = 0;
    let mut plain_end: usize = 0;
    for i in 0..count {
        let item = item_at(words, i);
        if follows_plain(pool, words, plain_end, i, item) {
            run = i;
            plain_end = i + 1;
        } else {
            let order = last_order(pool, words, i, item);
            run = run_start(order, i, run);
            if order.is_gt()
                | meets_plain(pool, words, plain_end, item)
                | is_repeated(pool, words, run, i, item)
            {
                return refuse(Reason::OutOfOrder, 0, i);
            }
            plain_end = last_plain(item, i + 1, plain_end);
        }
    }
    Ok(())
}

// Whether an item and the one before the index i are plain, and it starts above the end of that.
fn follows_plain(pool: &[u8], words: &[u32], plain_end: usize, i: usize, item: ItemWords) -> bool
    ensures { result ≡ follows_plain pool.now words.now plain_end i item }
{
    (0 < i) && plain_end == i && is_plain(item) && ends_below(pool, item_at(words, i - 1), item)
}

// How the item before the index i stands to an item; where there is none it counts as below.
fn last_order(pool: &[u8], words: &[u32], i: usize, item: ItemWords) -> Ordering
    ensures { result ≡ last_order pool.now words.now i item }
{
    if i == 0 {
        return Ordering::Less;
    }
    compare_items(pool, item_at(words, i - 1), item)
}

fn run_start(order: Ordering, i: usize, run: usize) -> usize
    ensures { result ≡ run_start order i run }
{
    if order.is_lt() { i } else { run }
}

fn last_plain(item: ItemWords, i: usize, plain_end: usize) -> usize
    ensures { result ≡ last_plain item i plain_end }
{
    if item.wrapper == 0 { i } else { plain_end }
}

fn meets_plain(pool: &[u8], words: &[u32], plain_end: usize, item: ItemWords) -> bool
    ensures { result ≡ meets_plain pool.now words.now plain_end item }
{
    if plain_end == 0 {
        return false;
    }
    is_plain(item) & !ends_below(pool, item_at(words, plain_end - 1), item)
}

// Whether one of the items from the index run on, before i, is equal to an item.
fn is_repeated(pool: &[u8], words: &[u32], run: usize, i: usize, item: ItemWords) -> bool
    ensures { result ≡ repeats pool.now (items_from words.now run (i - run)) item }
{
    (run..i).any(|j| is_same(pool, item_at(words, j), item))
}

// inner: how x stands to y: by start, then end.
#[tactic(auto, unfolding(crate::specs::Order::compare_items))]
pub fn compare_items(pool: &[u8], x: ItemWords, y: ItemWords) -> Ordering
    ensures { result ≡ compare_items pool.now x y }
{
    let a = range_of(x);
    let b = range_of(y);
    compare_in(pool, a.start, b.start).then_with(|| compare_in(pool, a.end, b.end))
}

// inner: whether x ends below the start of y.
#[tactic(auto, unfolding(crate::specs::Order::ends_below))]
pub fn ends_below(pool: &[u8], x: ItemWords, y: ItemWords) -> bool
    ensures { result ≡ ends_below pool.now x y }
{
    below_in(pool, range_of(x).end, range_of(y).start)
}

// inner: whether two items are equal in code, wrapper and key bytes.
#[tactic(auto, unfolding(crate::specs::Order::same_item))]
pub fn is_same(pool: &[u8], x: ItemWords, y: ItemWords) -> bool
    ensures { result ≡ same_item pool.now x y }
{
    x.code == y.code
        && x.wrapper == y.wrapper
        && compare_keys(pool, x.start, y.start).is_eq()
        && compare_keys(pool, x.end, y.end).is_eq()
}

// inner: whether an item has no wrapper.
pub fn is_plain(item: ItemWords) -> bool
    ensures { result ≡ plain item }
{
    item.wrapper == 0
}

// inner: the two boundaries of an item.
pub fn range_of(item: ItemWords) -> RangeSet
    ensures { result ≡ range_of item }
{
    query_item(item).to_range_set()
}
