// Module 5 of document 01: insertion of an item into a list of items that stands in a lent buffer. `insert_order` has the order of a list
// and the checks before the room, `insert_merge` what stays of a list and what merges.
// Definitions: specs/Insertion.antt (the list after insertion), specs/Answers.antt (the room, the words at exit), specs/Sequence.antt (calls one
// after the other). specs/Passes.antt has what the passes go by. Laws: proofs/Laws.antt; proofs/Called.antt (what a call leaves, the next one
// accepts), proofs/Sequences.antt (plain items may be inserted in any order, 02 §10.1, others stand in order of arrival, 02 §10.2).
//
// The list is checked in linear passes. Then the few items to ask are found by halving, what merges among them, and the tail from the first
// changed item on is rewritten, each item written once.
#![tactic(auto)]

ghost use Rattle.std.specs.Prelude.{◌≡◌, ◌-◌, ◌/◌, ◌≤◌, length};
ghost use Rattle.query_item.specs.Items.{item_size, items_from};
ghost use Rattle.item_check.specs.Checks.{accepted};
ghost use Rattle.insert_order.specs.Refusals.{input_verdict};
ghost use Rattle.insert_merge.specs.Merge.{Finds};
ghost use Rattle.insert.specs.Answers.{insert_answer, insert_words, checked_answer, checked_words};
ghost use Rattle.insert.specs.Passes.{Asked};

use crate::tail::{first_changed, rewrite};
use crate::window::find_window;
use insert_merge::{Found, find_merged};
use insert_order::check_input;
use item_check::{MOST_ITEMS, Reason, Refusal, refuse};
use item_words::ITEM_SIZE;
use query_item::ItemWords;
use std::ops::Range;

mod tail;
mod window;

// Inserts an item into the list of the first count items of words. The answer is the new count; where it is a refusal no word has changed
// (01 m5.1, m5.9, demand.1).
pub fn insert_item(
    pool: &[u8],
    words: &mut [u32],
    count: usize,
    item: ItemWords,
) -> Result<usize, Refusal>
    ensures result_value { result ≡ insert_answer pool.now words.old count item }
    ensures words_after { words.new ≡ insert_words pool.now words.old count item }
{
    check_input(pool, words, count, item)?;
    insert_checked(pool, words, count, item)
}

// The same of a list and an item that are checked already: what is left to refuse is want of room.
fn insert_checked(
    pool: &[u8],
    words: &mut [u32],
    count: usize,
    item: ItemWords,
) -> Result<usize, Refusal>
    requires { (count ≤ length words.old / item_size) × (input_verdict pool.now words.old count item ≡ accepted) }
    ensures result_value { result ≡ checked_answer pool.now words.old count item }
    ensures words_after { words.new ≡ checked_words pool.now words.old count item }
{
    let window = find_window(pool, words, count, item);
    let found = find_result(pool, words, count, item, &window);
    let result = found.result;
    let after = found.stay + 1;
    if (words.len() / ITEM_SIZE < after) | (MOST_ITEMS < after) {
        return refuse(Reason::NoRoom, 0, 0);
    }
    let first = first_changed(pool, words, count, window.start, item, result);
    let at = ITEM_SIZE * first;
    rewrite(
        pool,
        &mut words[at..],
        count - first,
        window.end.saturating_sub(first),
        item,
        result,
    );
    Ok(after)
}

// What the list comes to, by those of its items that have to be asked.
fn find_result(
    pool: &[u8],
    words: &[u32],
    count: usize,
    item: ItemWords,
    window: &Range<usize>,
) -> Found
    requires { Asked pool.now words.now count item window.now.start window.now.end }
    ensures { Finds pool.now item (items_from words.now 0 count) result }
{
    let found = find_merged(pool, words, window.start, window.end, item);
    Found {
        stay: window.start + found.stay + (count - window.end),
        ..found
    }
}
