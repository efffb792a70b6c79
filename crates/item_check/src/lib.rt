// Module 2 of document 01: the refusals, and the checks of items and lists of items in the order that the document fixes. Every call that is
// lent items refuses by these. What a crate above checks besides stands there: the order of a list that is inserted into, position items,
// intervals and proved positions, a report, a file. Module 1 refuses nothing. Definitions: specs/Checks.antt. Laws: proofs/Laws.antt.
#![tactic(auto)]

ghost use Rattle.std.specs.Prelude.{◌≡◌, ◌||◌, eqb};
ghost use Rattle.query_item.specs.Items.{key_at, item_words, item_at, items_from};
ghost use Rattle.query_item.specs.Boundaries.{set_at, upright};
ghost use Rattle.item_check.specs.Checks.{reason_number, refused, refusal, has_start, has_end, nonzero, malformed, key_out, item_fault, upright_fault, fault_at, pool_verdict, shape_verdict, first_bad, strict_verdict, whole_verdict, list_verdict, single_verdict, keys_verdict, set_verdict, check_verdict};

use item_words::{ITEM_SIZE, item_at, query_item};
use query_item::pooled::{at_most_in, below_in};
use query_item::{ItemWords, KeyAt, RangeSet};

// Why a call refuses, by the numbers that the papers fix.
#[derive(Clone, Copy, PartialEq, Eq)]
pub enum Reason {
    Malformed = 1,
    KeyOutside = 2,
    NotUpright = 3,
    OutOfOrder = 4,
    Wrapped = 5,
    NoRoom = 6,
    NoPosition = 7,
    NotAscending = 8,
    NotCanonical = 9,
    BadFile = 10,
    BadRow = 12,
    AmountOutside = 14,
    TooManyKeys = 15,
    EmptyWindows = 16,
}

// A refusal: its number, the side (0 ours, 1 theirs), and the index of the item, pair or position. Number and side stay numbers here: C is handed
// them, and `refused` of specs/Checks.antt, by which every call promises, and `check_list`, for any side, hold them.
#[derive(Clone, Copy, PartialEq, Eq)]
pub struct Refusal {
    pub number: u32,
    pub side: u32,
    pub index: usize,
}

// The limits of document 01.
pub const MOST_ITEMS: usize = 2048;

pub const MOST_POOL: usize = 65536;

pub const MOST_KEY: u32 = 255;

// Whether a list can be used in the algebra: the pool, the list's shape, its items, and that it is strict (01 no.1, no.2, no.3, no.4).
pub fn check_list(pool: &[u8], words: &[u32], side: u32) -> Result<(), Refusal>
    ensures { result ≡ check_verdict pool.now words.now side }
{
    check_pool(pool)?;
    check_words(pool, words, side)
}

// inner: the same of a list whose pool is checked already.
pub fn check_words(pool: &[u8], words: &[u32], side: u32) -> Result<(), Refusal>
    ensures { result ≡ list_verdict pool.now words.now side }
{
    check_shape(words, side)?;
    check_whole(pool, words, side)
}

// inner: the same of a list whose shape is checked already.
pub fn check_whole(pool: &[u8], words: &[u32], side: u32) -> Result<(), Refusal>
    ensures { result ≡ whole_verdict pool.now words.now side }
{
    let count = words.len() / ITEM_SIZE;
    check_items(pool, words, count, side)?;
    check_strict(pool, words, count, side)
}

impl Reason {
    // inner: its number.
    pub fn number(self) -> u32
        ensures { result ≡ reason_number self }
    {
        self as u32
    }
}

// inner: refuses for a reason, with a side and an index, whatever a call would answer.
pub fn refuse<A>(reason: Reason, side: u32, index: usize) -> Result<A, Refusal>
    ensures { result ≡ refused (reason_number reason) side index }
{
    Err(refusal_of(reason.number(), side, index))
}

// inner: the refusal of a number, a side and an index.
pub fn refusal_of(number: u32, side: u32, index: usize) -> Refusal
    ensures { result ≡ refusal number side index }
{
    Refusal {
        number,
        side,
        index,
    }
}

// inner: the pool's size, before everything else.
pub fn check_pool(pool: &[u8]) -> Result<(), Refusal>
    ensures { result ≡ pool_verdict pool.now }
{
    if MOST_POOL < pool.len() {
        return refuse(Reason::Malformed, 0, 0);
    }
    Ok(())
}

// inner: the words of a list come in sixes, and are not too many.
pub fn check_shape(words: &[u32], side: u32) -> Result<(), Refusal>
    ensures { result ≡ shape_verdict words.now side }
{
    if (words.len() % ITEM_SIZE != 0) | (MOST_ITEMS < words.len() / ITEM_SIZE) {
        return refuse(Reason::Malformed, side, 0);
    }
    Ok(())
}

// inner: what the first bad one of the first count items is refused for: 1, 2 or 3. Which it is, is asked of that one alone.
pub fn check_items(pool: &[u8], words: &[u32], count: usize, side: u32) -> Result<(), Refusal>
    ensures { result ≡ first_bad (upright_fault pool.now) side 0 (items_from words.now 0 count) }
{
    for i in 0..count {
        if !sound_at(pool, words, i) {
            return check_upright(pool, item_at(words, i), side, i);
        }
    }
    Ok(())
}

// Whether nothing is wrong with the item at an index.
fn sound_at(pool: &[u8], words: &[u32], i: usize) -> bool
    ensures { result ≡ eqb (upright_fault pool.now (item_at words.now i)) 0 }
{
    let item = item_at(words, i);
    is_sound(
        pool,
        item.code,
        item.wrapper,
        item.start.offset,
        item.start.length,
        item.end.offset,
        item.end.length,
    )
}

// The same of six numbers, which stay in registers. A key that was just written word by word, and is read as a whole, has to be waited for.
fn is_sound(pool: &[u8], code: u32, wrapper: u32, i: u32, m: u32, j: u32, n: u32) -> bool
    ensures { result ≡ eqb (upright_fault pool.now (item_words code wrapper (key_at i m) (key_at j n))) 0 }
{
    let start = KeyAt {
        offset: i,
        length: m,
    };
    let end = KeyAt {
        offset: j,
        length: n,
    };
    let item = ItemWords {
        code,
        wrapper,
        start,
        end,
    };
    if is_malformed(item) | are_out(pool, start, end) {
        return false;
    }
    // a key is upright, whatever its bytes are
    if code == 0 {
        return true;
    }
    is_upright(pool, query_item(item).to_range_set())
}

// inner: each of the first count items ends below the start of the next; else 4.
pub fn check_strict(pool: &[u8], words: &[u32], count: usize, side: u32) -> Result<(), Refusal>
    ensures { result ≡ strict_verdict pool.now side (items_from words.now 0 count) }
{
    let mut end = set_at(words, 0).end;
    for i in 1..count {
        let set = set_at(words, i);
        if !below_in(pool, end, set.start) {
            return refuse(Reason::OutOfOrder, side, i);
        }
        end = set.end;
    }
    Ok(())
}

// inner: the two boundaries of the item at an index.
pub fn set_at(words: &[u32], i: usize) -> RangeSet
    ensures { result ≡ set_at words.now i }
{
    query_item(item_at(words, i)).to_range_set()
}

// inner: what one item, at an index on a side, is refused for: 1 or 2.
pub fn check_formed(pool: &[u8], item: ItemWords, side: u32, index: usize) -> Result<(), Refusal>
    ensures { result ≡ fault_at (item_fault pool.now item) side index }
{
    if is_malformed(item) {
        return refuse(Reason::Malformed, side, index);
    }
    if are_out(pool, item.start, item.end) {
        return refuse(Reason::KeyOutside, side, index);
    }
    Ok(())
}

// inner: the same of an item that has to be upright: 1, 2 or 3.
#[tactic(auto, using(crate::proofs::Faults::key_upright))]
pub fn check_upright(pool: &[u8], item: ItemWords, side: u32, index: usize) -> Result<(), Refusal>
    ensures { result ≡ fault_at (upright_fault pool.now item) side index }
{
    check_formed(pool, item, side, index)?;
    // a key is upright, whatever its bytes are
    if item.code == 0 {
        return Ok(());
    }
    if !is_upright(pool, query_item(item).to_range_set()) {
        return refuse(Reason::NotUpright, side, index);
    }
    Ok(())
}

// inner: whether a range's start is not above its end.
pub fn is_upright(pool: &[u8], set: RangeSet) -> bool
    ensures { result ≡ upright pool.now set }
{
    at_most_in(pool, set.start, set.end)
}

// inner: whether an item of a code has a start key.
pub fn has_start(code: u32) -> bool
    ensures { result ≡ has_start code }
{
    !((code == 3) | (code == 5) | (code == 6))
}

// inner: whether it has an end key.
pub fn has_end(code: u32) -> bool
    ensures { result ≡ has_end code }
{
    !((code == 0) | (code == 3) | (code == 4) | (code == 7))
}

// inner: a key's two words are not both 0.
pub fn is_nonzero(key: KeyAt) -> bool
    ensures { result ≡ nonzero key }
{
    key != KeyAt::NONE
}

// Code or wrapper unknown, or words of an absent key that are not 0.
fn is_malformed(item: ItemWords) -> bool
    ensures { result ≡ malformed item }
{
    (9 < item.code)
        | (3 < item.wrapper)
        | (!has_start(item.code) & is_nonzero(item.start))
        | (!has_end(item.code) & is_nonzero(item.end))
}

// inner: too long, or reaching past the pool.
pub fn is_out(pool: &[u8], key: KeyAt) -> bool
    ensures { result ≡ key_out pool.now key }
{
    (MOST_KEY < key.length) | (pool.len() < key.offset as usize + key.length as usize)
}

// One of two keys. Of an item that is not malformed both are asked: a key that it does not have is absent, and lies in every pool.
fn are_out(pool: &[u8], start: KeyAt, end: KeyAt) -> bool
    ensures { result ≡ key_out pool.now start || key_out pool.now end }
{
    is_out(pool, start) | is_out(pool, end)
}

// inner: a single item: the pool, then 1 and 2.
pub fn check_item(pool: &[u8], item: ItemWords) -> Result<(), Refusal>
    ensures { result ≡ single_verdict pool.now item }
{
    check_pool(pool)?;
    check_formed(pool, item, 0, 0)
}

// inner: two boundaries: the pool, then 2 for their keys.
pub fn check_set(pool: &[u8], set: RangeSet) -> Result<(), Refusal>
    ensures { result ≡ set_verdict pool.now set }
{
    check_pool(pool)?;
    check_keys(pool, set)
}

fn check_keys(pool: &[u8], set: RangeSet) -> Result<(), Refusal>
    ensures { result ≡ keys_verdict pool.now set }
{
    if are_out(pool, set.start.key(), set.end.key()) {
        return refuse(Reason::KeyOutside, 0, 0);
    }
    Ok(())
}
