// Module 4 of document 01: the three lists of two lists of items, without what holds no key (02 §2.1). The crate `intersect` has the pair.
// Definitions: specs/Lists.antt (specs/Sweep.antt is what the pass goes by). Laws: proofs/Demands.antt, which speak by specs/Demand.antt
// and specs/Lists.antt of `item_lists`.
//
// One pass over both lists with two indexes. Our item and theirs, at the indexes, and what is left of them are kept beside these: an item is read
// when its index moves.
#![tactic(auto)]

ghost use Rattle.std.specs.Ordering.{is_lt};
ghost use Rattle.std.specs.Prelude.{MatchResult, Err, ◌≡◌, true, false, cond, [], ◌+◌, ◌/◌, ◌≤◌, length};
ghost use Rattle.query_item.specs.Items.{item_size};
ghost use Rattle.query_item.specs.Boundaries.{set_at, compare_in, invert_of, from_to};
ghost use Rattle.keyless.specs.Keyless.{piece_item};
ghost use Rattle.item_lists.specs.Written.{as_items, Put};
ghost use Rattle.intersect.specs.Pair.{before, left_part};
ghost use Rattle.item_check.specs.Checks.{accepted};
ghost use Rattle.intersect_many.specs.Lists.{keyed_items, lists_verdict, lacks_room, counts_of, IntersectMany};
ghost use Rattle.intersect_many.specs.Sweep.{right_set, rest_left, most_pieces, stand_of, Turn, RoomGives, Emits, Sweeps};

use intersect::pair::{is_before, overlap_by};
use item_check::{Reason, Refusal, check_pool, check_words, refuse, set_at};
use item_lists::{passes_room, put_item};
use item_words::ITEM_SIZE;
use keyless::piece_item;
use query_item::RangeSet;
use query_item::pooled::{below_in, compare_in};
use std::cmp::Ordering;

// How many items the three lists have.
#[derive(Clone, Copy, PartialEq, Eq)]
pub struct ManyCounts {
    pub shared: usize,
    pub ours: usize,
    pub theirs: usize,
}

// How two ranges stand: ours before theirs, after it, or meeting it, with the order of their ends.
#[derive(Clone, Copy)]
enum Stand {
    Before,
    After,
    Meets(Ordering),
}

// What two lists share, what ours keeps without theirs, and what theirs keeps without ours, written to the front of three lists, with their
// counts. No more than one item a turn for each, and each turn moves an index: at most as many items as both lists have (01 m4.1, m4.2,
// m4.3, demand.1). A piece that holds no key is left out, and an item of the input that holds none still cuts (02 §2.1, §2.3).
pub fn intersect_many_ordered(
    pool: &[u8],
    ours: &[u32],
    theirs: &[u32],
    shared_out: &mut [u32],
    ours_out: &mut [u32],
    theirs_out: &mut [u32],
) -> Result<ManyCounts, Refusal>
    ensures { IntersectMany pool.now ours.now theirs.now
        shared_out.old ours_out.old theirs_out.old
        result shared_out.new ours_out.new theirs_out.new }
{
    let lists = Lists::check(pool, ours, theirs)?;
    lists.write(shared_out, ours_out, theirs_out)
}

// Writes the item of a range, if it holds a key, at index n, and says where the next one goes.
fn put_set(pool: &[u8], out: &mut [u32], n: usize, set: RangeSet) -> usize
    requires { n ≤ most_pieces }
    ensures { Put out.old n (as_items (piece_item pool.now set)) out.new result }
{
    n + put_item(out, n, piece_item(pool, set))
}

// An item's range as it stands in its list, and what is left of it.
#[derive(Clone, Copy)]
struct Rest {
    whole: RangeSet,
    left: RangeSet,
}

impl Rest {
    // Of the item at an index all is left.
    fn at(words: &[u32], i: usize) -> Rest
        ensures whole { result.whole ≡ set_at words.now i }
        ensures left { result.left ≡ set_at words.now i }
    {
        let whole = set_at(words, i);
        Rest { whole, left: whole }
    }
}

// What of a's rest stands past b, where b ends first. As long as it starts where the whole item does, which meets b, that need not be asked.
fn right_set(pool: &[u8], a: Rest, b: RangeSet) -> RangeSet
    requires { before pool.now b a.whole ≡ false }
    ensures { result ≡ right_set pool.now a.left b }
{
    if a.left.start != a.whole.start {
        return right_asked(pool, a.left, b);
    }
    past_set(a.left, b)
}

fn right_asked(pool: &[u8], x: RangeSet, b: RangeSet) -> RangeSet
    ensures { result ≡ right_set pool.now x b }
{
    if is_before(pool, b, x) {
        return x;
    }
    past_set(x, b)
}

fn past_set(x: RangeSet, b: RangeSet) -> RangeSet
    ensures { result ≡ from_to (invert_of b.end true) x.end }
{
    RangeSet {
        start: b.end.invert(true),
        end: x.end,
    }
}

// How our range stands to theirs: one comparison where ours stands before theirs.
fn how_they_stand(pool: &[u8], a: RangeSet, b: RangeSet) -> Stand
    ensures { result ≡ stand_of pool.now a b }
{
    if is_before(pool, a, b) {
        return Stand::Before;
    }
    if is_before(pool, b, a) {
        return Stand::After;
    }
    Stand::Meets(compare_in(pool, a.end, b.end))
}

// What of a's rest starts below b, written at index n, where it is not known that none does. As long as it starts where the whole item does, which
// starts below b then, that need not be asked again.
fn put_left(pool: &[u8], may: bool, a: Rest, b: RangeSet, out: &mut [u32], n: usize) -> usize
    requires { (n ≤ most_pieces) × (may ≡ true → is_lt (compare_in pool.now a.whole.start b.start) ≡ true) }
    ensures { Put out.old n (keyed_items pool.now (cond may (left_part pool.now a.left b) [])) out.new result }
{
    if !may {
        return n;
    }
    if a.left.start == a.whole.start {
        return put_below(pool, a.left, b, out, n);
    }
    if below_in(pool, a.left.start, b.start) {
        return put_below(pool, a.left, b, out, n);
    }
    n
}

// What of x stands below the start of b.
fn put_below(pool: &[u8], x: RangeSet, b: RangeSet, out: &mut [u32], n: usize) -> usize
    requires { n ≤ most_pieces }
    ensures { Put out.old n (as_items (piece_item pool.now (from_to x.start (invert_of b.start false)))) out.new result }
{
    let below = RangeSet {
        start: x.start,
        end: b.start.invert(false),
    };
    put_set(pool, out, n, below)
}

// A turn's items where a and b meet: what they share, and what of each one's rest starts below the other.
fn emit(
    pool: &[u8],
    ends: Ordering,
    a: Rest,
    b: Rest,
    shared_out: &mut [u32],
    ours_out: &mut [u32],
    theirs_out: &mut [u32],
    n: ManyCounts,
) -> ManyCounts
    requires { Turn pool.now ends a.whole b.whole a.left b.left n }
    ensures { Emits pool.now a.whole b.whole a.left b.left n shared_out.old ours_out.old theirs_out.old
        result shared_out.new ours_out.new theirs_out.new }
{
    let starts = compare_in(pool, a.whole.start, b.whole.start);
    let meet = overlap_by(starts, ends, a.whole, b.whole);
    ManyCounts {
        shared: put_set(pool, shared_out, n.shared, meet),
        ours: put_left(pool, starts.is_lt(), a, b.whole, ours_out, n.ours),
        theirs: put_left(pool, !starts.is_le(), b, a.whole, theirs_out, n.theirs),
    }
}

// What is left of a list from an index on, of whose item there x is left, once the other list has ended.
fn put_rest(pool: &[u8], words: &[u32], i: usize, x: RangeSet, out: &mut [u32], n: usize) -> usize
    requires { n + length words.now / item_size ≤ most_pieces + i }
    ensures { Put out.old n (keyed_items pool.now (rest_left words.now i x)) out.new result }
{
    let count = words.len() / ITEM_SIZE;
    if count <= i {
        return n;
    }
    let mut m = put_set(pool, out, n, x);
    for k in i + 1..count {
        m = put_set(pool, out, m, set_at(words, k));
    }
    m
}

// Two accepted lists over one pool.
#[derive(Clone, Copy)]
struct Lists<'a> {
    pool: &'a [u8],
    ours: &'a [u32],
    theirs: &'a [u32],
    ghost accepted: { lists_verdict pool.now ours.now theirs.now ≡ accepted },
}

impl<'a> Lists<'a> {
    // The pool, then ours entirely, then theirs entirely.
    fn check(pool: &'a [u8], ours: &'a [u32], theirs: &'a [u32]) -> Result<Lists<'a>, Refusal>
        ensures { MatchResult result (λ l. (l.pool.now ≡ pool.now) × (l.ours.now ≡ ours.now) × (l.theirs.now ≡ theirs.now)) (λ r. lists_verdict pool.now ours.now theirs.now ≡ Err r) }
    {
        check_pool(pool)?;
        check_words(pool, ours, 0)?;
        check_words(pool, theirs, 1)?;
        Ok(Lists { pool, ours, theirs })
    }

    // The three lists, written as far as there is room, and their counts.
    fn sweep(
        self,
        shared_out: &mut [u32],
        ours_out: &mut [u32],
        theirs_out: &mut [u32],
    ) -> ManyCounts
        ensures { Sweeps self.entry.pool.now self.entry.ours.now self.entry.theirs.now
            shared_out.old ours_out.old theirs_out.old
            result shared_out.new ours_out.new theirs_out.new }
    {
        let our_count = self.ours.len() / ITEM_SIZE;
        let their_count = self.theirs.len() / ITEM_SIZE;
        let mut n = ManyCounts {
            shared: 0,
            ours: 0,
            theirs: 0,
        };
        let mut i: usize = 0;
        let mut j: usize = 0;
        let mut a = Rest::at(self.ours, 0);
        let mut b = Rest::at(self.theirs, 0);
        // two places: a turn moves one of them or both
        while (i < our_count) & (j < their_count) {
            match how_they_stand(self.pool, a.whole, b.whole) {
                Stand::Before => {
                    n.ours = put_set(self.pool, ours_out, n.ours, a.left);
                    i += 1;
                    a = Rest::at(self.ours, i);
                }
                Stand::After => {
                    n.theirs = put_set(self.pool, theirs_out, n.theirs, b.left);
                    j += 1;
                    b = Rest::at(self.theirs, j);
                }
                Stand::Meets(ends) => {
                    n = emit(self.pool, ends, a, b, shared_out, ours_out, theirs_out, n);
                    match ends {
                        Ordering::Less => {
                            b.left = right_set(self.pool, b, a.whole);
                            i += 1;
                            a = Rest::at(self.ours, i);
                        }
                        Ordering::Greater => {
                            a.left = right_set(self.pool, a, b.whole);
                            j += 1;
                            b = Rest::at(self.theirs, j);
                        }
                        Ordering::Equal => {
                            i += 1;
                            j += 1;
                            a = Rest::at(self.ours, i);
                            b = Rest::at(self.theirs, j);
                        }
                    }
                }
            }
        }
        ManyCounts {
            shared: n.shared,
            ours: put_rest(self.pool, self.ours, i, a.left, ours_out, n.ours),
            theirs: put_rest(self.pool, self.theirs, j, b.left, theirs_out, n.theirs),
        }
    }

    // The counts of the three lists: a pass that has no room to write.
    fn count(self) -> ManyCounts
        ensures { result ≡ counts_of self.entry.pool.now self.entry.ours.now self.entry.theirs.now }
    {
        self.sweep(&mut [], &mut [], &mut [])
    }

    // The lists at once where there is room for the most that they can have; else the room that they need, known before anything is written, and
    // then the lists.
    fn write(
        self,
        shared_out: &mut [u32],
        ours_out: &mut [u32],
        theirs_out: &mut [u32],
    ) -> Result<ManyCounts, Refusal>
        ensures { RoomGives self.entry.pool.now self.entry.ours.now self.entry.theirs.now
            shared_out.old ours_out.old theirs_out.old
            result shared_out.new ours_out.new theirs_out.new }
    {
        let all = self.ours.len() / ITEM_SIZE + self.theirs.len() / ITEM_SIZE;
        let most = ManyCounts {
            shared: all,
            ours: all,
            theirs: all,
        };
        if !lack_room(most, shared_out, ours_out, theirs_out) {
            return Ok(self.sweep(shared_out, ours_out, theirs_out));
        }
        let n = self.count();
        if lack_room(n, shared_out, ours_out, theirs_out) {
            return refuse(Reason::NoRoom, 0, 0);
        }
        self.sweep(shared_out, ours_out, theirs_out);
        Ok(n)
    }
}

// Whether one of the three lists has less room than a count asks for.
fn lack_room(n: ManyCounts, shared_out: &[u32], ours_out: &[u32], theirs_out: &[u32]) -> bool
    ensures { result ≡ lacks_room n shared_out.now ours_out.now theirs_out.now }
{
    passes_room(n.shared, shared_out)
        | passes_room(n.ours, ours_out)
        | passes_room(n.theirs, theirs_out)
}
