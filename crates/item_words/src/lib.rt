// Module 2 of document 01: items as six words of a list, and back (01 keys.3). Code that reads or writes an item of a list calls these functions
// and goes by ITEM_SIZE; docs/CHANGING.md says who else knows how wide an item is.
// Definitions: specs/Items.antt of `query_item`, and laws in its proofs/Words.antt.
//
// A function marked "inner" is public only because other crates need it. It checks nothing: its definition covers every input.
#![tactic(auto)]

ghost use Rattle.std.specs.Prelude.{◌≡◌, ◌*◌, ◌/◌, ◌<◌, length, get_or};
ghost use Rattle.std.proofs.lemmas.List.Edits.{sets};
ghost use Rattle.query_item.specs.Items.{item_of, item_size, item_at, query_item, item_words, with_keys, words_of, flat, with_item};

use query_item::{ItemWords, KeyAt, QueryItem};

// The words of an item.
pub const ITEM_SIZE: usize = 6;

// inner: the item of a code and two keys. A code that the table has not is read as RangeFull: the checks refuse it.
pub fn item_of(code: u32, a: KeyAt, b: KeyAt) -> QueryItem
    ensures { result ≡ item_of code a b }
{
    match code {
        0 => QueryItem::Key(a),
        1 => QueryItem::Range(a, b),
        2 => QueryItem::RangeInclusive(a, b),
        4 => QueryItem::RangeFrom(a),
        5 => QueryItem::RangeTo(b),
        6 => QueryItem::RangeToInclusive(b),
        7 => QueryItem::RangeAfter(a),
        8 => QueryItem::RangeAfterTo(a, b),
        9 => QueryItem::RangeAfterToInclusive(a, b),
        _ => QueryItem::RangeFull,
    }
}

// inner: the item of six words; its wrapper is read through.
pub fn query_item(words: ItemWords) -> QueryItem
    ensures { result ≡ query_item words }
{
    item_of(words.code, words.start, words.end)
}

// inner: the words of the item at an index; words past the list's end are 0.
pub fn item_at(words: &[u32], i: usize) -> ItemWords
    ensures { result ≡ item_at words.now i }
{
    if i < words.len() / ITEM_SIZE {
        return whole_item(words, i);
    }
    past_item(words, i)
}

fn whole_item(words: &[u32], i: usize) -> ItemWords
    requires { i < length words.now / item_size }
    ensures { result ≡ item_at words.now i }
{
    let at = ITEM_SIZE * i;
    let start = KeyAt {
        offset: words[at + 2],
        length: words[at + 3],
    };
    let end = KeyAt {
        offset: words[at + 4],
        length: words[at + 5],
    };
    ItemWords {
        code: words[at],
        wrapper: words[at + 1],
        start,
        end,
    }
}

// An item that is not whole, or past the list's end.
fn past_item(words: &[u32], i: usize) -> ItemWords
    ensures { result ≡ item_at words.now i }
{
    let at = ITEM_SIZE * i.min(words.len());
    let start = KeyAt {
        offset: word_or_zero(words, at + 2),
        length: word_or_zero(words, at + 3),
    };
    let end = KeyAt {
        offset: word_or_zero(words, at + 4),
        length: word_or_zero(words, at + 5),
    };
    ItemWords {
        code: word_or_zero(words, at),
        wrapper: word_or_zero(words, at + 1),
        start,
        end,
    }
}

// `get` with a default, named once, so that the six words of an item read alike.
fn word_or_zero(words: &[u32], i: usize) -> u32
    ensures { result ≡ get_or words.now i 0 }
{
    words.get(i).copied().unwrap_or(0)
}

// inner: the six words of an item with a wrapper.
pub fn words_of(wrapper: u32, item: QueryItem) -> ItemWords
    ensures { result ≡ words_of wrapper item }
{
    let none = KeyAt::NONE;
    match item {
        QueryItem::Key(a) => make_item(0, wrapper, a, none),
        QueryItem::Range(a, b) => make_item(1, wrapper, a, b),
        QueryItem::RangeInclusive(a, b) => make_item(2, wrapper, a, b),
        QueryItem::RangeFull => make_item(3, wrapper, none, none),
        QueryItem::RangeFrom(a) => make_item(4, wrapper, a, none),
        QueryItem::RangeTo(b) => make_item(5, wrapper, none, b),
        QueryItem::RangeToInclusive(b) => make_item(6, wrapper, none, b),
        QueryItem::RangeAfter(a) => make_item(7, wrapper, a, none),
        QueryItem::RangeAfterTo(a, b) => make_item(8, wrapper, a, b),
        QueryItem::RangeAfterToInclusive(a, b) => make_item(9, wrapper, a, b),
    }
}

// inner: an item by its parts.
pub fn make_item(code: u32, wrapper: u32, start: KeyAt, end: KeyAt) -> ItemWords
    ensures { result ≡ item_words code wrapper start end }
{
    ItemWords {
        code,
        wrapper,
        start,
        end,
    }
}

// inner: an item with other keys.
pub fn with_keys(item: ItemWords, start: KeyAt, end: KeyAt) -> ItemWords
    ensures { result ≡ with_keys item start end }
{
    make_item(item.code, item.wrapper, start, end)
}

// inner: writes an item at an index; where it has no room nothing is written.
pub fn write_item(out: &mut [u32], i: usize, words: ItemWords)
    ensures { out.new ≡ with_item out.old i words }
{
    if i < out.len() / ITEM_SIZE {
        store_item(out, i, words);
    }
}

fn store_item(out: &mut [u32], i: usize, words: ItemWords)
    requires { i < length out.old / item_size }
    ensures { out.new ≡ sets out.old (item_size * i) (flat words) }
{
    let at = ITEM_SIZE * i;
    out[at] = words.code;
    out[at + 1] = words.wrapper;
    out[at + 2] = words.start.offset;
    out[at + 3] = words.start.length;
    out[at + 4] = words.end.offset;
    out[at + 5] = words.end.length;
}
