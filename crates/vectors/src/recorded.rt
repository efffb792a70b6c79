// An answer held against a recorded one, from its front on.
use item_check::Refusal;
use item_words::{item_at, words_of};
use query_item::pooled::key_bytes;
use query_item::{ItemWords, KeyAt, QueryItem};

// Our recorded answer, and the original's where it is a listed difference.
#[derive(Clone, Copy)]
pub struct Recorded<'a> {
    ours: &'a [u8],
    rust: Option<&'a [u8]>,
}

// What is left of a recorded answer, where all was the same so far.
#[derive(Clone, Copy)]
pub struct Held<'a> {
    left: Option<&'a [u8]>,
}

impl<'a> Recorded<'a> {
    pub fn new(ours: &'a [u8], rust: Option<&'a [u8]>) -> Recorded<'a> {
        Recorded { ours, rust }
    }

    pub fn is_listed(self) -> bool {
        self.rust.is_some()
    }

    // Whether an answer, which begins with a byte and is held by `held` from there on, is the recorded one, and of a listed difference not the
    // original's.
    fn begins<F: Fn(Held<'a>) -> Held<'a>>(self, first: u64, held: F) -> bool
        requires { F.IsAlwaysCallable held }
    {
        let is_ours = held(Held::front(self.ours).byte(first)).is_all();
        match self.rust {
            None => is_ours,
            Some(rust) => is_ours & !held(Held::front(rust).byte(first)).is_all(),
        }
    }

    // An answer: 0, and what `held` holds.
    pub fn answers<F: Fn(Held<'a>) -> Held<'a>>(self, held: F) -> bool
        requires { F.IsAlwaysCallable held }
    {
        self.begins(0, held)
    }

    // An answer that is a number of one byte.
    pub fn number(self, n: u64) -> bool {
        self.answers(|h| h.byte(n))
    }

    // A refusal: 1, then its number and side, a byte each, and its index in 4 bytes.
    pub fn refuses(self, refusal: Refusal) -> bool {
        self.begins(1, |h| {
            h.byte(u64::from(refusal.number))
                .byte(u64::from(refusal.side))
                .word(refusal.index as u64)
        })
    }
}

impl<'a> Held<'a> {
    fn front(answer: &'a [u8]) -> Held<'a> {
        Held { left: Some(answer) }
    }

    // Whether all of the recorded answer is read, and was the same.
    pub fn is_all(self) -> bool {
        match self.left {
            None => false,
            Some(left) => left.is_empty(),
        }
    }

    pub fn byte(self, n: u64) -> Held<'a> {
        Held {
            left: past_byte(self.left, n),
        }
    }

    pub fn short(self, n: u64) -> Held<'a> {
        self.byte(n / 256).byte(n % 256)
    }

    pub fn word(self, n: u64) -> Held<'a> {
        self.short(n / 65536).short(n % 65536)
    }

    pub fn long(self, n: u64) -> Held<'a> {
        self.word(n / 4294967296).word(n % 4294967296)
    }

    // Bytes, after their number.
    pub fn bytes(self, bytes: &[u8]) -> Held<'a> {
        Held {
            left: past_bytes(self.short(bytes.len() as u64).left, bytes),
        }
    }

    pub fn key(self, pool: &[u8], key: KeyAt) -> Held<'a> {
        self.bytes(key_bytes(pool, key))
    }

    // An item: code and wrapper, a byte each, and both keys, an absent one as an empty one.
    pub fn item(self, pool: &[u8], item: ItemWords) -> Held<'a> {
        self.byte(u64::from(item.code))
            .byte(u64::from(item.wrapper))
            .key(pool, item.start)
            .key(pool, item.end)
    }

    // 0, or 1 and an item.
    pub fn maybe(self, pool: &[u8], item: Option<QueryItem>) -> Held<'a> {
        match item {
            None => self.byte(0),
            Some(q) => self.byte(1).item(pool, words_of(0, q)),
        }
    }

    // The items at the front of words, after their number in 2 bytes.
    pub fn items(self, pool: &[u8], words: &[u32], count: usize) -> Held<'a> {
        let mut held = self.short(count as u64);
        for i in 0..count {
            held = held.item(pool, item_at(words, i));
        }
        held
    }
}

fn past_byte(left: Option<&[u8]>, n: u64) -> Option<&[u8]> {
    let (first, rest) = left?.split_first()?;
    if u64::from(*first) != n {
        return None;
    }
    Some(rest)
}

fn past_bytes<'a>(left: Option<&'a [u8]>, bytes: &[u8]) -> Option<&'a [u8]> {
    left?.strip_prefix(bytes)
}
