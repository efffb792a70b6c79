// Module 5 of document 01: what becomes of a list's items where one is inserted, and what the new item comes to. The crate `insert` has the
// call.
// Definitions: specs/Merge.antt. Laws: proofs/Merged.antt (fates, and how far a result reaches), proofs/Staying.antt (what stays), proofs/Reach.antt
// (what is taken out lies within the result), proofs/Converted.antt (what a result shows).
//
// A function marked "inner" is public only because another crate needs it. It checks nothing: its definition covers every input.
#![tactic(auto)]

ghost use Rattle.std.specs.Prelude.{◌≡◌, ◌&&◌, ◌-◌};
ghost use Rattle.query_item.specs.Items.{items_from};
ghost use Rattle.insert_order.specs.Order.{plain};
ghost use Rattle.insert_merge.specs.Merge.{disjoint, fate_of, smaller_start, larger_end, hull, merged, merge_by, is_staying, Finds};

use insert_order::{ends_below, is_plain, is_same, range_of};
use item_words::{item_at, words_of};
use query_item::pooled::compare_in;
use query_item::{ItemWords, RangeSet, RangeSetItem};

// What becomes of an item of the list: the new one takes its place, it stays, or it is merged with the new one.
#[derive(Clone, Copy)]
pub enum Fate {
    Replaced,
    Stays,
    Merges,
}

// What the list comes to: the new item with all that merge with it, and how many items stay.
#[derive(Clone, Copy)]
pub struct Found {
    pub result: ItemWords,
    pub stay: usize,
}

// inner: the new item with all that merge with it of the items from an index up to another, and how many of these stay.
pub fn find_merged(pool: &[u8], words: &[u32], from: usize, to: usize, item: ItemWords) -> Found
    ensures { Finds pool.now item (items_from words.now from (to - from)) result }
{
    let mut result = item;
    let mut stay: usize = 0;
    for i in from..to {
        let old = item_at(words, i);
        let fate = fate_of(pool, item, old);
        result = merge_by(pool, fate, result, old);
        stay += usize::from(is_staying(fate));
    }
    Found { result, stay }
}

// inner: what becomes of an item where a new one is inserted.
#[tactic(auto, unfolding(crate::specs::Merge::fate_of))]
pub fn fate_of(pool: &[u8], item: ItemWords, old: ItemWords) -> Fate
    ensures { result ≡ fate_of pool.now item old }
{
    if is_same(pool, item, old) {
        return Fate::Replaced;
    }
    if !are_plain(item, old) {
        return Fate::Stays;
    }
    if is_disjoint(pool, item, old) {
        return Fate::Stays;
    }
    Fate::Merges
}

fn are_plain(x: ItemWords, y: ItemWords) -> bool
    ensures { result ≡ plain x && plain y }
{
    is_plain(x) & is_plain(y)
}

// Whether one of two items ends below the start of the other.
fn is_disjoint(pool: &[u8], x: ItemWords, y: ItemWords) -> bool
    ensures { result ≡ disjoint pool.now x y }
{
    ends_below(pool, x, y) | ends_below(pool, y, x)
}

// inner: whether it stays.
pub fn is_staying(fate: Fate) -> bool
    ensures { result ≡ is_staying fate }
{
    matches!(fate, Fate::Stays)
}

fn merge_by(pool: &[u8], fate: Fate, cur: ItemWords, old: ItemWords) -> ItemWords
    ensures { result ≡ merge_by pool.now fate cur old }
{
    match fate {
        Fate::Replaced | Fate::Stays => cur,
        Fate::Merges => merge(pool, cur, old),
    }
}

// The plain item from the smaller start to the larger end. The two boundaries always make one.
#[tactic(auto, unfolding(crate::specs::Merge::merged))]
fn merge(pool: &[u8], cur: ItemWords, old: ItemWords) -> ItemWords
    ensures { result ≡ merged pool.now cur old }
{
    hull_of(pool, range_of(cur), range_of(old))
        .to_query_item(pool)
        .map_or(cur, |item| words_of(0, item))
}

// From the smaller start to the larger end.
fn hull_of(pool: &[u8], new: RangeSet, old: RangeSet) -> RangeSet
    ensures { result ≡ hull pool.now new old }
{
    RangeSet {
        start: smaller_start(pool, new.start, old.start),
        end: larger_end(pool, new.end, old.end),
    }
}

// The smaller of two starts; on a tie the new one.
fn smaller_start(pool: &[u8], new_start: RangeSetItem, old_start: RangeSetItem) -> RangeSetItem
    ensures { result ≡ smaller_start pool.now new_start old_start }
{
    if compare_in(pool, old_start, new_start).is_lt() {
        old_start
    } else {
        new_start
    }
}

// The larger of two ends; on a tie the new one.
fn larger_end(pool: &[u8], new_end: RangeSetItem, old_end: RangeSetItem) -> RangeSetItem
    ensures { result ≡ larger_end pool.now new_end old_end }
{
    if compare_in(pool, new_end, old_end).is_lt() {
        old_end
    } else {
        new_end
    }
}
