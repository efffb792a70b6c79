// How answers are told in numbers.
ghost use Rattle.std.specs.Prelude.{◌≡◌, ◌∷◌};
ghost use Rattle.query_item.specs.Items.{flat};
ghost use Rattle.key_order.specs.Order.{order_number};
ghost use Rattle.fernsponge.specs.Answers.{bool_number, is_kind, is_unbounded, refusal_number, set_numbers, set_of_words, set_words_in, maybe_numbers, containment_numbers};
ghost use Rattle.fernsponge.specs.Calls.{malformed_set};

use item_check::{Refusal, is_nonzero};
use item_words::{ITEM_SIZE, words_of};
use query_item::{ItemWords, KeyAt, QueryItem, RangeSet, RangeSetItem};
use range_borrowed::{KeyContainmentResult, kind_number, kind_numbered};
use std::cmp::Ordering;

// Input that is malformed: number 1, side 0, index 0.
pub(crate) const MALFORMED: u64 = 1;

// The numbers of an item that may be missing: how many there are, and its words.
pub(crate) const MAYBE_SIZE: usize = ITEM_SIZE + 1;

// What a greater index is told as, so that a refusal's number fits 64 bits.
const MOST_INDEX: usize = 1099511627776;

// The C interface has numbers for an order: 0, 1, 2; std's enum casts to -1, 0, 1.
pub(crate) fn order_number(o: Ordering) -> u32
    ensures { result ≡ order_number o }
{
    match o {
        Ordering::Less => 0,
        Ordering::Equal => 1,
        Ordering::Greater => 2,
    }
}

// The C interface has 0 and 1 for a no and a yes. Named, since closures and laws hand it on.
pub(crate) fn bool_number(b: bool) -> u32
    ensures { result ≡ bool_number b }
{
    u32::from(b)
}

pub(crate) fn is_kind(n: u32) -> bool
    ensures { result ≡ is_kind n }
{
    n <= 4
}

fn is_unbounded(n: u32) -> bool
    ensures { result ≡ is_unbounded n }
{
    n <= 1
}

pub(crate) fn refusal_number(refusal: Refusal) -> u64
    ensures { result ≡ refusal_number refusal }
{
    let index = refusal.index.min(MOST_INDEX) as u64;
    u64::from(refusal.number) + 256 * u64::from(refusal.side) + 65536 * index
}

// ---- two boundaries, as six words

// How many these are.
pub(crate) const SET_SIZE: usize = 6;

// The kinds of start and end, and their keys.
#[derive(Clone, Copy)]
pub(crate) struct SetWords {
    pub(crate) from: u32,
    pub(crate) to: u32,
    pub(crate) start: KeyAt,
    pub(crate) end: KeyAt,
}

pub(crate) fn set_numbers(set: RangeSet) -> [u32; SET_SIZE]
    ensures { result ≡ set_numbers set }
{
    let start = set.start.key();
    let end = set.end.key();
    [
        kind_number(set.start.kind()),
        kind_number(set.end.kind()),
        start.offset,
        start.length,
        end.offset,
        end.length,
    ]
}

pub(crate) fn set_words(numbers: &[u32; SET_SIZE]) -> SetWords
    ensures { result ≡ set_words_in numbers.now }
{
    let start = KeyAt {
        offset: numbers[2],
        length: numbers[3],
    };
    let end = KeyAt {
        offset: numbers[4],
        length: numbers[5],
    };
    SetWords {
        from: numbers[0],
        to: numbers[1],
        start,
        end,
    }
}

// A kind that is none, or key words of an unbounded boundary that are not 0.
pub(crate) fn is_malformed_set(words: SetWords) -> bool
    ensures { result ≡ malformed_set words }
{
    !is_kind(words.from)
        | !is_kind(words.to)
        | (is_unbounded(words.from) & is_nonzero(words.start))
        | (is_unbounded(words.to) & is_nonzero(words.end))
}

pub(crate) fn set_of_words(words: SetWords) -> RangeSet
    ensures { result ≡ set_of_words words }
{
    RangeSet {
        start: RangeSetItem::with_key(kind_numbered(words.from), words.start),
        end: RangeSetItem::with_key(kind_numbered(words.to), words.end),
    }
}

// ---- an item that may be missing, as seven words

pub(crate) fn maybe_numbers(maybe: Option<QueryItem>) -> [u32; MAYBE_SIZE]
    ensures { result ≡ maybe_numbers maybe }
{
    match maybe {
        None => [0; MAYBE_SIZE],
        Some(q) => one_item(words_of(0, q)),
    }
}

fn one_item(words: ItemWords) -> [u32; MAYBE_SIZE]
    ensures { result ≡ 1 ∷ flat words }
{
    [
        1,
        words.code,
        words.wrapper,
        words.start.offset,
        words.start.length,
        words.end.offset,
        words.end.length,
    ]
}

pub(crate) fn containment_numbers(c: KeyContainmentResult) -> [u32; 2]
    ensures { result ≡ containment_numbers c }
{
    [
        bool_number(c.included),
        bool_number(c.on_bounds_not_included),
    ]
}
