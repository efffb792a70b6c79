// From query items to intervals.
ghost use Rattle.std.specs.Prelude.{◌≡◌, ◌*◌, ◌≤◌, length, leb, Ok};
ghost use Rattle.intervals.specs.Intervals.{Canonical};
ghost use Rattle.query_item.specs.Items.{bytes_of};
ghost use Rattle.item_check.specs.Checks.{fault_at, first_bad, items_of};
ghost use Rattle.pairs_sort.specs.Pairs.{pairs};
ghost use Rattle.position_given.specs.Positions.{rows_of};
ghost use Rattle.position_given.specs.Answers.{length_of, rows_answer, stored_of};
ghost use Rattle.position_key.specs.Keys.{position_of, position_answer};
ghost use Rattle.position_query.specs.Covered.{position_fault, query_verdict, FromQueryItems};
ghost use Rattle.position_query.specs.Ranges.{after_of, first_of, past_of, clipped, ranges};
ghost use Rattle.position_query.specs.Inner.{is_good, is_clean, range_pair, Writes, Building};

use item_check::{
    Reason, Refusal, check_formed, check_pool, check_shape, has_end, has_start, is_nonzero, is_out,
    refuse,
};
use item_words::{ITEM_SIZE, item_at, query_item};
use pairs_sort::{make_canonical, push_pair};
use position_given::{LAST_WORD, LogPosition, RowCount, Stored, count_rows};
use position_key::be_u64;
use query_item::pooled::key_bytes;
use query_item::{ItemWords, KeyAt, RangeSetItem};

// The bytes of a position's key.
const POSITION_KEY_LENGTH: u32 = 8;

#[derive(Clone, Copy)]
struct PositionRange {
    start: u64,
    end: u64,
}

// Writes the positions that items cover as canonical pairs, and says how many pairs and how many rows. That there is room for the items' ranges is
// known before one is written (01 m6.3, m6.4, m6.5, m6.6, 02 §4.5).
pub fn from_query_items(
    pool: &[u8],
    items: &[u32],
    count: RowCount,
    out: &mut [u64],
) -> Result<Stored, Refusal>
    ensures { FromQueryItems pool.now items.now count.0 out.old out.new (stored_of result) }
{
    check_query(pool, items)?;
    build(pool, items, count.0, out)
}

// The pool, the shape of the list, then item by item 1, 2, 5 and 7.
fn check_query(pool: &[u8], items: &[u32]) -> Result<(), Refusal>
    ensures { result ≡ query_verdict pool.now items.now }
{
    check_pool(pool)?;
    check_shape(items, 0)?;
    check_items(pool, items)
}

fn check_items(pool: &[u8], items: &[u32]) -> Result<(), Refusal>
    ensures { result ≡ first_bad (position_fault pool.now) 0 0 (items_of items.now) }
{
    for i in 0..items.len() / ITEM_SIZE {
        check_item(pool, item_at(items, i), i)?;
    }
    Ok(())
}

// What the item at an index is refused for: 1 or 2, 5 for a wrapper, 7 for a key that is no position. Which it is, is asked only where something is.
fn check_item(pool: &[u8], item: ItemWords, index: usize) -> Result<(), Refusal>
    ensures { result ≡ fault_at (position_fault pool.now item) 0 index }
{
    if is_clean(pool, item) {
        return Ok(());
    }
    check_formed(pool, item, 0, index)?;
    if item.wrapper != 0 {
        return refuse(Reason::Wrapped, 0, index);
    }
    refuse(Reason::NoPosition, 0, index)
}

// Whether nothing is wrong with an item: a known code, no wrapper, and both keys good.
fn is_clean(pool: &[u8], item: ItemWords) -> bool
    ensures { result ≡ is_clean pool.now item }
{
    let start = item.start;
    let end = item.end;
    (item.code <= 9)
        & (item.wrapper == 0)
        & is_good(pool, has_start(item.code), start)
        & is_good(pool, has_end(item.code), end)
}

// Whether a key that an item has is a position in the pool, or the words of one that it does not have are 0.
fn is_good(pool: &[u8], has: bool, key: KeyAt) -> bool
    ensures { result ≡ is_good pool.now has key }
{
    if has {
        return (key.length == POSITION_KEY_LENGTH) & !is_out(pool, key);
    }
    !is_nonzero(key)
}

// ---- the range of an item

// The first position that a start lets in: of one that is unbounded the first of all, and past its key of one that excludes it.
fn first(pool: &[u8], start: RangeSetItem) -> Result<LogPosition, Refusal>
    ensures { position_of result ≡ first_of pool.now start }
{
    match start {
        RangeSetItem::UnboundedStart => Ok(LogPosition(0)),
        RangeSetItem::UnboundedEnd => Ok(LogPosition(LAST_WORD)),
        RangeSetItem::Inclusive(a) | RangeSetItem::ExclusiveEnd(a) => be_u64(key_bytes(pool, a)),
        RangeSetItem::ExclusiveStart(a) => key_after(pool, a),
    }
}

// The first position past an end: of one that is unbounded the last u64, and past its key of one that includes it.
fn past(pool: &[u8], end: RangeSetItem) -> Result<LogPosition, Refusal>
    ensures { position_of result ≡ past_of pool.now end }
{
    match end {
        RangeSetItem::UnboundedStart => Ok(LogPosition(0)),
        RangeSetItem::UnboundedEnd => Ok(LogPosition(LAST_WORD)),
        RangeSetItem::Inclusive(b) | RangeSetItem::ExclusiveStart(b) => key_after(pool, b),
        RangeSetItem::ExclusiveEnd(b) => be_u64(key_bytes(pool, b)),
    }
}

// The position after a key's; what the key reads as is taken apart at once (01 m6.2, form.7). The last u64 stays: no count is above it, so that it is
// covered by nothing.
fn key_after(pool: &[u8], key: KeyAt) -> Result<LogPosition, Refusal>
    ensures { position_of result ≡ after_of (position_answer (bytes_of pool.now key)) }
{
    let Ok(p) = be_u64(key_bytes(pool, key)) else {
        return refuse(Reason::NoPosition, 0, 0);
    };
    Ok(LogPosition(p.0.saturating_add(1)))
}

// The range of an item, from a start on, below an end, clipped to the count; nothing where a key is no position.
fn clip(pool: &[u8], item: ItemWords, count: u64) -> PositionRange
    ensures { range_pair result ≡ clipped pool.now count item }
{
    let set = query_item(item).to_range_set();
    let Ok(s) = first(pool, set.start) else {
        return PositionRange { start: 0, end: 0 };
    };
    let Ok(e) = past(pool, set.end) else {
        return PositionRange { start: 0, end: 0 };
    };
    PositionRange {
        start: s.0,
        end: e.0.min(count),
    }
}

// ---- building

// Writes the ranges of accepted items where there is room, and makes them canonical. Where they are already, one pass tells, and counts them.
fn build(pool: &[u8], items: &[u32], count: u64, out: &mut [u64]) -> Result<Stored, Refusal>
    ensures { Building pool.now items.now count out.old out.new (stored_of result) }
{
    if !has_room(pool, items, count, out.len() / 2) {
        return refuse(Reason::NoRoom, 0, 0);
    }
    let k = write_ranges(pool, items, count, out);
    if let Ok(rows) = count_front(out, k) {
        return Ok(Stored { pairs: k, rows });
    }
    let m = make_canonical(out, k);
    with_total(out, m)
}

// The first pairs with their total. Since they are canonical it is never refused (02 §4.5).
fn with_total(out: &[u64], count: usize) -> Result<Stored, Refusal>
    requires { Canonical (pairs out.now count) }
    ensures { stored_of result ≡ Ok (count, rows_of (pairs out.now count)) }
{
    let rows = count_front(out, count)?;
    Ok(Stored { pairs: count, rows })
}

// How many rows the first m pairs cover, where they are canonical: the one place where a total is made by counting.
fn count_front(out: &[u64], m: usize) -> Result<RowCount, Refusal>
    requires { 2 * m ≤ length out.now }
    ensures { length_of result ≡ rows_answer (pairs out.now m) }
{
    count_rows(&out[..2 * m])
}

// Whether the ranges are no more than the pairs of room. They are counted only where the items are more.
fn has_room(pool: &[u8], items: &[u32], count: u64, room: usize) -> bool
    ensures { result ≡ leb (length (ranges pool.now count (items_of items.now))) room }
{
    items.len() / ITEM_SIZE <= room || count_ranges(pool, items, count) <= room
}

// How many items have a nonempty clipped range: writing them, to a pair that nothing reads, tells.
fn count_ranges(pool: &[u8], items: &[u32], count: u64) -> usize
    ensures { result ≡ length (ranges pool.now count (items_of items.now)) }
{
    let mut unread = [0u64; 2];
    write_ranges(pool, items, count, &mut unread)
}

// Writes them as the first pairs, as far as there is room: how many they are.
fn write_ranges(pool: &[u8], items: &[u32], count: u64, out: &mut [u64]) -> usize
    ensures value { result ≡ length (ranges pool.now count (items_of items.now)) }
    ensures writes { Writes (ranges pool.now count (items_of items.now)) out.old out.new }
{
    let mut k: usize = 0;
    for i in 0..items.len() / ITEM_SIZE {
        let range = clip(pool, item_at(items, i), count);
        if range.start < range.end {
            push_pair(out, k, range.start, range.end);
            k += 1;
        }
    }
    k
}
