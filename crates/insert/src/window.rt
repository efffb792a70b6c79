// Which items of a list in order an insertion has to ask. The others stay, and the order of the list tells so.
ghost use Rattle.std.specs.Prelude.{◌≡◌, ◌≤◌};
ghost use Rattle.item_check.specs.Checks.{accepted};
ghost use Rattle.insert_order.specs.Refusals.{input_verdict};
ghost use Rattle.insert.specs.Passes.{Ascending, Below, Stay, Asked};

use insert_order::{compare_items, ends_below, is_plain};
use item_words::item_at;
use query_item::ItemWords;
use std::ops::Range;

// The items to ask: those before and past them stay.
pub(crate) fn find_window(pool: &[u8], words: &[u32], count: usize, item: ItemWords) -> Range<usize>
    requires { input_verdict pool.now words.now count item ≡ accepted }
    ensures { Asked pool.now words.now count item result.start result.end }
{
    let place = count_below(pool, words, count, item);
    first_asked(pool, words, count, place, item)..past_asked(pool, words, count, place, item)
}

// How many of the first count items of an ascending list are below an item: half of what is left is told by one of them.
pub(crate) fn count_below(pool: &[u8], words: &[u32], count: usize, item: ItemWords) -> usize
    requires { Ascending pool.now words.now count }
    ensures { Below pool.now words.now count item result }
{
    let mut low: usize = 0;
    let mut high = count;
    // no `partition_point`: it wants a slice of items, and here they are words, six to an item, of which every law speaks by index
    while low < high {
        let mid = low + (high - low) / 2;
        if compare_items(pool, item_at(words, mid), item).is_lt() {
            low = mid + 1;
        } else {
            high = mid;
        }
    }
    low
}

// Of the items below the new one only the last plain one can merge with it: the other plain ones end below that.
fn first_asked(pool: &[u8], words: &[u32], count: usize, place: usize, item: ItemWords) -> usize
    requires { (input_verdict pool.now words.now count item ≡ accepted) × Below pool.now words.now count item place }
    ensures { (result ≤ place) × Stay pool.now words.now item 0 result }
{
    if !is_plain(item) {
        return place;
    }
    let Some(i) = (0..place).rfind(|i| is_plain(item_at(words, *i))) else {
        return place;
    };
    if ends_below(pool, item_at(words, i), item) {
        place
    } else {
        i
    }
}

// The first item from a place on that starts above the end of the new one: all later ones start no lower.
fn past_asked(pool: &[u8], words: &[u32], count: usize, place: usize, item: ItemWords) -> usize
    requires { (input_verdict pool.now words.now count item ≡ accepted) × (place ≤ count) }
    ensures { (place ≤ result) × (result ≤ count) × Stay pool.now words.now item result count }
{
    (place..count)
        .find(|i| ends_below(pool, item, item_at(words, *i)))
        .unwrap_or(count)
}
