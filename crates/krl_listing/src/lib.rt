// Module 7 of document 01: the listing of the three lists, written line by line into lent bytes.
// Definitions: specs/Listing.antt. Laws: proofs/Laws.antt; among them that no line of checked items is longer than MAX_LINE.
//
// `listing_line` is inner: what has no room is left out, and whoever calls it lends as many bytes as the longest line has.
#![tactic(auto)]

ghost use Rattle.std.specs.Prelude.{[], ◌≤◌, length, get_or};
ghost use Rattle.query_item.specs.Items.{items_from};
ghost use Rattle.krl_line.specs.Lines.{PutFront};
ghost use Rattle.krl_listing.specs.Listing.{bare_line, key_line, keys_line, item_line, title_line, list_lines, line_at};

use intersect_many::ManyCounts;
use item_words::{item_at, query_item};
use key_text::put_key;
use lent_text::{put, put_spaced, put_text};
use query_item::{KeyAt, QueryItem};

// The longest line of items with keys of at most 255 bytes: so many lent bytes are always room enough.
pub const MAX_LINE: usize = 1044;

// inner: writes the i-th line of the listing to the front of lent bytes, and answers how many bytes it has. Line 0 is the title of the shared
// items, and there are 3 lines more than items; a line past the last has no bytes (01 m7.3, m7.4).
pub fn listing_line(
    out: &mut [u8],
    pool: &[u8],
    shared_out: &[u32],
    ours_out: &[u32],
    theirs_out: &[u32],
    counts: ManyCounts,
    i: usize,
) -> usize
    ensures { PutFront out.old
        (line_at pool.now shared_out.now ours_out.now theirs_out.now counts i) result out.new }
{
    let shared = counts.shared;
    if i <= shared {
        return put_of_list(out, pool, b"shared", shared_out, shared, i);
    }
    let later = i - shared - 1;
    let ours = counts.ours;
    if later <= ours {
        return put_of_list(out, pool, b"ours", ours_out, ours, later);
    }
    let last = later - ours - 1;
    let theirs = counts.theirs;
    if last <= theirs {
        return put_of_list(out, pool, b"theirs", theirs_out, theirs, last);
    }
    0
}

// A line of one list: its title, or an item.
fn put_of_list(
    out: &mut [u8],
    pool: &[u8],
    title: &[u8],
    words: &[u32],
    count: usize,
    i: usize,
) -> usize
    requires { (length title.now ≤ 30) × (i ≤ count) }
    ensures { PutFront out.old (get_or (list_lines pool.now title.now (items_from words.now 0 count)) i []) result out.new }
{
    if i == 0 {
        return put_title(out, title, count);
    }
    put_item(out, pool, query_item(item_at(words, i - 1)))
}

fn put_title(out: &mut [u8], title: &[u8], count: usize) -> usize
    requires { length title.now ≤ 30 }
    ensures { PutFront out.old (title_line title.now count) result out.new }
{
    let a = put_text(out, 0, title);
    let b = a + put_spaced(out, a, count as u64);
    put(out, b, b'\n');
    b + 1
}

// ---- items

#[tactic(auto, unfolding(crate::specs::Listing::item_line))]
fn put_item(out: &mut [u8], pool: &[u8], item: QueryItem) -> usize
    ensures { PutFront out.old (item_line pool.now item) result out.new }
{
    match item {
        QueryItem::Key(a) => put_one(out, pool, b"Key", a),
        QueryItem::Range(a, b) => put_two(out, pool, b"Range", a, b),
        QueryItem::RangeInclusive(a, b) => put_two(out, pool, b"RangeInclusive", a, b),
        QueryItem::RangeFull => put_bare(out, b"RangeFull"),
        QueryItem::RangeFrom(a) => put_one(out, pool, b"RangeFrom", a),
        QueryItem::RangeTo(b) => put_one(out, pool, b"RangeTo", b),
        QueryItem::RangeToInclusive(b) => put_one(out, pool, b"RangeToInclusive", b),
        QueryItem::RangeAfter(a) => put_one(out, pool, b"RangeAfter", a),
        QueryItem::RangeAfterTo(a, b) => put_two(out, pool, b"RangeAfterTo", a, b),
        QueryItem::RangeAfterToInclusive(a, b) => {
            put_two(out, pool, b"RangeAfterToInclusive", a, b)
        }
    }
}

// The names of items are literals: a type for names of at most 30 bytes would say that once more at each of them.

// A name with no key behind it.
fn put_bare(out: &mut [u8], name: &[u8]) -> usize
    requires { length name.now ≤ 30 }
    ensures { PutFront out.old (bare_line name.now) result out.new }
{
    let a = put_text(out, 0, name);
    put(out, a, b'\n');
    a + 1
}

// A name with one key behind it.
fn put_one(out: &mut [u8], pool: &[u8], name: &[u8], key: KeyAt) -> usize
    requires { length name.now ≤ 30 }
    ensures { PutFront out.old (key_line pool.now name.now key) result out.new }
{
    let a = put_text(out, 0, name);
    let b = a + put_key(out, a, pool, key);
    put(out, b, b'\n');
    b + 1
}

// A name with two keys behind it.
fn put_two(out: &mut [u8], pool: &[u8], name: &[u8], start: KeyAt, end: KeyAt) -> usize
    requires { length name.now ≤ 30 }
    ensures { PutFront out.old (keys_line pool.now name.now start end) result out.new }
{
    let a = put_text(out, 0, name);
    let b = a + put_key(out, a, pool, start);
    let c = b + put_key(out, b, pool, end);
    put(out, c, b'\n');
    c + 1
}
