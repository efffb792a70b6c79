// The tail of the list, from the first changed item on: where it starts, and how it is rewritten (01 m5.7, form.8).
ghost use Rattle.std.specs.Prelude.{◌≡◌, ◌*◌, ◌/◌, ◌≤◌, ◌<◌, length};
ghost use Rattle.query_item.specs.Items.{item_size, items_from};
ghost use Rattle.insert.specs.Answers.{laid};
ghost use Rattle.insert.specs.Passes.{Ascending, Stay, keeps_place, first_changed, stays_at, pick, tail_after, TailFits, goes_first, Moved, raised, cleared};

use crate::window::count_below;
use insert_merge::{fate_of, is_staying};
use insert_order::compare_items;
use item_words::{ITEM_SIZE, item_at, write_item};
use query_item::ItemWords;

// How many items at the front stay where they are. Those before the index from all stay: of them the ones below the result do.
pub(crate) fn first_changed(
    pool: &[u8],
    words: &[u32],
    count: usize,
    from: usize,
    item: ItemWords,
    res: ItemWords,
) -> usize
    requires { (from ≤ count) × Ascending pool.now words.now count × Stay pool.now words.now item 0 from }
    ensures { result ≡ first_changed pool.now item res (items_from words.now 0 count) }
{
    let below = count_below(pool, words, from, res);
    (below..count)
        .find(|i| !keeps_place(pool, item, res, item_at(words, *i)))
        .unwrap_or(count)
}

fn keeps_place(pool: &[u8], item: ItemWords, res: ItemWords, old: ItemWords) -> bool
    ensures { result ≡ keeps_place pool.now item res old }
{
    is_staying(fate_of(pool, item, old)) & compare_items(pool, old, res).is_lt()
}

// Takes out what does not stay of count items, puts the result in, and sets the words that this frees to 0. From the index asked on all stay.
pub(crate) fn rewrite(
    pool: &[u8],
    tail: &mut [u32],
    count: usize,
    asked: usize,
    item: ItemWords,
    res: ItemWords,
)
    requires { TailFits pool.now tail.old count asked item res }
    ensures { tail.new ≡ laid tail.old count (tail_after pool.now item res tail.old count) }
{
    let end = move_items(pool, tail, count, asked, item, res);
    clear_items(tail, end, count);
}

// One pass. One item is always in hand: the result until it is placed, then the last one read. So each item is written where all that stood
// there is read already. Where the result is placed, all that is left stays and no item was taken out, the rest moves up by one place at once.
fn move_items(
    pool: &[u8],
    tail: &mut [u32],
    count: usize,
    asked: usize,
    item: ItemWords,
    res: ItemWords,
) -> usize
    requires { TailFits pool.now tail.old count asked item res }
    ensures { (result ≡ length (tail_after pool.now item res tail.old count))
        × Moved tail.old count (tail_after pool.now item res tail.old count) tail.new }
{
    let mut hand = res;
    let mut is_placed = false;
    let mut to: usize = 0;
    for i in 0..count {
        if is_placed & (asked <= i) & (to == i) {
            shift_up(tail, i, count);
            write_item(tail, to, hand);
            return count + 1;
        }
        let old = item_at(tail, i);
        if stays_at(pool, i, asked, item, old) {
            let first = goes_first(pool, is_placed, old, hand);
            write_item(tail, to, pick_item(first, old, hand));
            hand = pick_item(first, hand, old);
            is_placed = !first;
            to += 1;
        }
    }
    write_item(tail, to, hand);
    to + 1
}

// Moves the items from an index on, up to a count, up by one place. The words of the place that this frees stay as they are.
fn shift_up(tail: &mut [u32], from: usize, count: usize)
    requires { (from ≤ count) × (count < length tail.old / item_size) }
    ensures { tail.new ≡ raised tail.old (item_size * from) (item_size * count) }
{
    let at = ITEM_SIZE * from;
    tail.copy_within(at..ITEM_SIZE * count, at + ITEM_SIZE);
}

// Whether the item at the index i stays, one before the index asked by its fate.
fn stays_at(pool: &[u8], i: usize, asked: usize, item: ItemWords, old: ItemWords) -> bool
    ensures { result ≡ stays_at pool.now i asked item old }
{
    if i < asked {
        return is_staying(fate_of(pool, item, old));
    }
    true
}

fn goes_first(pool: &[u8], is_placed: bool, old: ItemWords, hand: ItemWords) -> bool
    ensures { result ≡ goes_first pool.now is_placed old hand }
{
    if is_placed {
        return false;
    }
    compare_items(pool, old, hand).is_lt()
}

// One of two items: std has no name for this choice, and it is made twice.
fn pick_item(t: bool, x: ItemWords, y: ItemWords) -> ItemWords
    ensures { result ≡ pick t x y }
{
    if t { x } else { y }
}

// Sets the items from an index up to another to 0.
fn clear_items(tail: &mut [u32], from: usize, to: usize)
    requires { (from ≤ length tail.old / item_size) × (to ≤ length tail.old / item_size) }
    ensures { tail.new ≡ cleared tail.old from to }
{
    if from < to {
        tail[ITEM_SIZE * from..ITEM_SIZE * to].fill(0);
    }
}
