// Section 1 of document 02: a lane sheet read into a lent pool and a lent list of items.
// Definitions: specs/Reading.antt; specs/Passes.antt has what the passes go by. Laws: proofs/Laws.antt.
//
// A first pass reads row by row, up to the first bad one, counts, and writes nothing lent. If nothing is refused, a second one writes keys and
// items; it does not ask again whether a row is good.
#![tactic(auto)]

ghost use Rattle.std.specs.Prelude.{◌≡◌, true, None, ◌++◌, ◌+◌, ◌*◌, ◌/◌, ◌<◌, length};
ghost use Rattle.lent_text.specs.Text.{stored};
ghost use Rattle.sheet_row.specs.Lanes.{is_hex, hex_value, hex_bytes, sheet_of};
ghost use Rattle.query_item.specs.Items.{with_item};
ghost use Rattle.item_lists.specs.Written.{put_all};
ghost use Rattle.sheet_read.specs.Reading.{packed_keys, key_for, packed_item, lane_item, packed_items, lanes_in, read_answer, read_pool, read_list};
ghost use Rattle.sheet_read.specs.Scan.{row_lane};
ghost use Rattle.sheet_read.specs.Passes.{measured, longest_first, add_keys, measure_of, Adds, measure_verdict, Readable, Digits, Puts};

use crate::row::{RowFields, good_row, row_fields};
use item_check::{MOST_ITEMS, MOST_KEY, MOST_POOL, Reason, Refusal, has_end, has_start, refuse};
use item_lists::passes_room;
use item_words::{make_item, write_item};
use lent_text::put_past;
use query_item::{ItemWords, KeyAt};

mod row;

// How many items a sheet has, and how many bytes their keys.
#[derive(Clone, Copy)]
pub struct SheetCounts {
    pub items: usize,
    pub bytes: usize,
}

// What a counting pass finds: rows and key bytes, and the first row with a key that is too long, if there is one.
#[derive(Clone, Copy)]
pub(crate) struct Measured {
    pub(crate) rows: usize,
    pub(crate) bytes: usize,
    pub(crate) long: Option<usize>,
}

// Packs the keys of a sheet to the front of a pool and writes its items to the front of a list, and answers how many items and bytes these are.
// Memory past them stays (02 §1.8, §1.9, §1.11, §1.13).
pub fn read_sheet(text: &[u8], pool: &mut [u8], out: &mut [u32]) -> Result<SheetCounts, Refusal>
    ensures result_value { result ≡ read_answer text.now pool.old out.old }
    ensures pool_after { pool.new ≡ read_pool text.now pool.old out.old }
    ensures out_after { out.new ≡ read_list text.now pool.old out.old }
{
    let m = measure(text)?;
    check_measure(m, pool, out)?;
    fill(text, pool, out);
    Ok(SheetCounts {
        items: m.rows,
        bytes: m.bytes,
    })
}

// ---- counting

// A bad row is refused with its number, whatever the rows before it have.
fn measure(text: &[u8]) -> Result<Measured, Refusal>
    ensures { result ≡ measure_of (measured 0 0 None) (sheet_of text.now) }
{
    let mut m = Measured {
        rows: 0,
        bytes: 0,
        long: None,
    };
    let mut rest = text;
    while !rest.is_empty() {
        let Some((row, after)) = good_row(rest) else {
            return refuse(Reason::BadRow, 0, m.rows);
        };
        m = add_row(m, row);
        rest = after;
    }
    Ok(m)
}

fn add_row(m: Measured, row: RowFields) -> Measured
    requires { Adds m row }
    ensures { result ≡ add_keys m (length row.entry.start.now / 2) (length row.entry.end.now / 2) }
{
    let a = row.start.len() / 2;
    let b = row.end.len() / 2;
    Measured {
        rows: m.rows + 1,
        bytes: m.bytes + a + b,
        long: first_long(m, a.max(b)),
    }
}

fn first_long(m: Measured, n: usize) -> Option<usize>
    ensures { result ≡ longest_first m n }
{
    if m.long.is_none() & ((MOST_KEY as usize) < n) {
        Some(m.rows)
    } else {
        m.long
    }
}

// What a sheet with no bad row is refused for, by what was counted and what is lent.
fn check_measure(m: Measured, pool: &[u8], out: &[u32]) -> Result<(), Refusal>
    ensures { result ≡ measure_verdict m pool.now out.now }
{
    if MOST_POOL < pool.len() {
        return refuse(Reason::Malformed, 0, 0);
    }
    if let Some(row) = m.long {
        return refuse(Reason::KeyOutside, 0, row);
    }
    if (pool.len() < m.bytes) | passes_room(m.rows, out) | (MOST_ITEMS < m.rows) {
        return refuse(Reason::NoRoom, 0, 0);
    }
    Ok(())
}

// ---- writing

fn fill(text: &[u8], pool: &mut [u8], out: &mut [u32])
    requires { Readable text.now }
    ensures pool_after { pool.new ≡ stored pool.old 0 (packed_keys (lanes_in text.now)) }
    ensures out_after { out.new ≡ put_all out.old 0 (packed_items 0 (lanes_in text.now)) }
{
    let mut rest = text;
    let mut n: usize = 0;
    let mut used: usize = 0;
    // how many rows there are shows only as they are read, so that no `for` has them
    while let Some((row, after)) = row_fields(rest) {
        used = put_row(row, used, n, pool, out);
        n += 1;
        rest = after;
    }
}

// A row's keys to the pool, its item to the list, and where the next key goes.
fn put_row(row: RowFields, used: usize, n: usize, pool: &mut [u8], out: &mut [u32]) -> usize
    requires { Puts row used }
    ensures value { result ≡ used + (length (row_lane row.entry).start + length (row_lane row.entry).end) }
    ensures pool_after { pool.new ≡ stored pool.old used ((row_lane row.entry).start ++ (row_lane row.entry).end) }
    ensures out_after { out.new ≡ with_item out.old n (lane_item used (row_lane row.entry)) }
{
    let a = put_bytes(pool, used, row.start);
    let b = put_bytes(pool, used + a, row.end);
    write_item(
        out,
        n,
        packed_item(row.code, used as u32, a as u32, b as u32),
    );
    used + (a + b)
}

fn packed_item(code: u32, at: u32, a: u32, b: u32) -> ItemWords
    requires { at + a < 4294967296 }
    ensures { result ≡ packed_item code at a b }
{
    let start = key_for(has_start(code), at, a);
    let end = key_for(has_end(code), at + a, b);
    make_item(code, 0, start, end)
}

fn key_for(present: bool, at: u32, n: u32) -> KeyAt
    ensures { result ≡ key_for present at n }
{
    if present {
        KeyAt {
            offset: at,
            length: n,
        }
    } else {
        KeyAt::NONE
    }
}

// The bytes of digits, from a place on, and how many that is. What has no room is left out.
fn put_bytes(out: &mut [u8], at: usize, s: &[u8]) -> usize
    requires { Digits s.now }
    ensures { (result ≡ length (hex_bytes s.now)) × (out.new ≡ stored out.old at (hex_bytes s.now)) }
{
    for (i, pair) in s.chunks_exact(2).enumerate() {
        put_past(out, at, i, byte_of(pair[0], pair[1]));
    }
    s.len() / 2
}

fn byte_of(c: u8, d: u8) -> u8
    requires { (is_hex c ≡ true) × (is_hex d ≡ true) }
    ensures { result ≡ 16 * hex_value c + hex_value d }
{
    16 * hex_value(c) + hex_value(d)
}

// What a digit counts: one of 0 to 9 its last four bits; a letter, which stands at 65 or at 97, nine more. std's `to_digit` answers an Option
// and branches by the digit, which is what a sheet's reading spends its time on.
fn hex_value(c: u8) -> u8
    requires { is_hex c ≡ true }
    ensures { (result ≡ hex_value c) × (result < 16) }
{
    c % 16 + 9 * (c / 64)
}
