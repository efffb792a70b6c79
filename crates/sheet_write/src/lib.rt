// Section 1 of document 02: a list of plain items written as a lane sheet.
// Definitions: specs/Writing.antt. Laws: proofs/Laws.antt; among them that a sheet that is written is read as the same items, and that what was read
// is written in its plain form.
//
// The text is put twice: first into no bytes, which counts it, and then, where it has room, into those that are lent.
#![tactic(auto)]

ghost use Rattle.std.specs.Prelude.{◌≡◌, ◌∷◌, ◌+◌, ◌/◌, ◌≤◌, ◌<◌, length};
ghost use Rattle.query_item.specs.Items.{bytes_of, item_size};
ghost use Rattle.item_check.specs.Checks.{fault_at, first_bad, items_of, most_items};
ghost use Rattle.lent_text.specs.Text.{stored};
ghost use Rattle.sheet_row.specs.Fields.{comma};
ghost use Rattle.sheet_row.specs.Lanes.{lane_at, key_field, row_text};
ghost use Rattle.sheet_write.specs.Writing.{plain_fault, plain_verdict, text_room, room_bytes, list_text, write_answer, write_bytes};

use item_check::{
    Reason, Refusal, check_formed, check_pool, check_shape, has_end, has_start, refuse,
};
use item_name::put_name;
use item_words::{ITEM_SIZE, item_at};
use key_text::put_key_behind;
use lent_text::{put, put_text};
use query_item::{ItemWords, KeyAt};

// Writes a list of plain items as a sheet to the front of lent bytes, and answers how many bytes it has. Bytes past it stay (02 §1.9, §1.11, §1.12,
// §1.13).
pub fn write_sheet(pool: &[u8], words: &[u32], out: &mut [u8]) -> Result<usize, Refusal>
    ensures result_value { result ≡ write_answer pool.now words.now out.old }
    ensures out_after { out.new ≡ write_bytes pool.now words.now out.old }
{
    check_plain_list(pool, words)?;
    put_sheet(out, pool, words)
}

// The text, where it has room.
fn put_sheet(out: &mut [u8], pool: &[u8], words: &[u32]) -> Result<usize, Refusal>
    requires { length words.now / item_size ≤ most_items }
    ensures result_value { result ≡ text_room (list_text pool.now words.now) out.old }
    ensures out_after { out.new ≡ room_bytes (list_text pool.now words.now) out.old }
{
    let n = put_rows(&mut [], pool, words);
    if out.len() < n {
        return refuse(Reason::NoRoom, 0, 0);
    }
    Ok(put_rows(out, pool, words))
}

// The row of an item, from a place on.
fn put_row(out: &mut [u8], at: usize, pool: &[u8], item: ItemWords) -> usize
    requires { at < 1000000000000000 }
    ensures { (result ≡ length (row_text (lane_at pool.now item)))
        × (out.new ≡ stored out.old at (row_text (lane_at pool.now item)))
        × (result ≤ 17179869300) }
{
    let a = put_name(out, at, item.code);
    let b = put_field(out, at + a, pool, has_start(item.code), item.start);
    let c = put_field(out, at + a + b, pool, has_end(item.code), item.end);
    let d = put_text(out, at + a + b + c, b"\r\n");
    a + b + c + d
}

// A comma, and a key's field behind it.
fn put_field(out: &mut [u8], at: usize, pool: &[u8], present: bool, key: KeyAt) -> usize
    ensures { (result ≡ length (comma ∷ key_field present (bytes_of pool.now key)))
        × (out.new ≡ stored out.old at (comma ∷ key_field present (bytes_of pool.now key)))
        × (result ≤ 8589934592) }
{
    if present {
        return put_key_behind(out, at, b',', pool, key);
    }
    put(out, at, b',');
    1
}

// The rows of a list, from the front on, and how many bytes that is.
fn put_rows(out: &mut [u8], pool: &[u8], words: &[u32]) -> usize
    requires { length words.now / item_size ≤ most_items }
    ensures { (result ≡ length (list_text pool.now words.now)) × (out.new ≡ stored out.old 0 (list_text pool.now words.now)) }
{
    let mut at: usize = 0;
    for i in 0..words.len() / ITEM_SIZE {
        at += put_row(out, at, pool, item_at(words, i));
    }
    at
}

// ---- checks

// What a list is refused for, before want of room: the pool, the list's shape, its items.
fn check_plain_list(pool: &[u8], words: &[u32]) -> Result<(), Refusal>
    ensures { result ≡ plain_verdict pool.now words.now }
{
    check_pool(pool)?;
    check_shape(words, 0)?;
    check_plain_items(pool, words)
}

// What the first bad item is refused for.
fn check_plain_items(pool: &[u8], words: &[u32]) -> Result<(), Refusal>
    ensures { result ≡ first_bad (plain_fault pool.now) 0 0 (items_of words.now) }
{
    for i in 0..words.len() / ITEM_SIZE {
        check_plain(pool, item_at(words, i), i)?;
    }
    Ok(())
}

// What an item that is to be written, at an index, is refused for: 1, 2 or 5.
fn check_plain(pool: &[u8], item: ItemWords, index: usize) -> Result<(), Refusal>
    ensures { result ≡ fault_at (plain_fault pool.now item) 0 index }
{
    check_formed(pool, item, 0, index)?;
    if item.wrapper != 0 {
        return refuse(Reason::Wrapped, 0, index);
    }
    Ok(())
}
