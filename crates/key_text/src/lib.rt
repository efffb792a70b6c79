// Module 7 of document 01: the text of a key in lent bytes; what is put into no bytes is only counted.
// Definitions: specs/Text.antt. Laws: proofs/Laws.antt.
#![tactic(auto)]

ghost use Rattle.std.specs.Prelude.{◌≡◌, ◌+◌, ◌≤◌, ◌<◌, length};
ghost use Rattle.lent_text.specs.Text.{stored};
ghost use Rattle.key_text.specs.Text.{hex_digit, hex_byte, hex_text, key_text, marked_key, spaced_key};

use lent_text::{put, put_past};
use query_item::KeyAt;
use query_item::pooled::key_bytes;

// inner: a space and a key, from the place at on, and how many bytes that is: a key has fewer than 2^32.
pub fn put_key(out: &mut [u8], at: usize, pool: &[u8], key: KeyAt) -> usize
    ensures { (result ≡ length (spaced_key pool.now key)) × (out.new ≡ stored out.old at (spaced_key pool.now key)) × (result ≤ 8589934592) }
{
    put_key_behind(out, at, b' ', pool, key)
}

// inner: the same with any byte in the place of the space.
pub fn put_key_behind(out: &mut [u8], at: usize, mark: u8, pool: &[u8], key: KeyAt) -> usize
    ensures { (result ≡ length (marked_key mark pool.now key)) × (out.new ≡ stored out.old at (marked_key mark pool.now key)) × (result ≤ 8589934592) }
{
    put(out, at, mark);
    1 + put_key_text(out, at, key_bytes(pool, key))
}

// The text of a key's bytes, one byte past the place at.
fn put_key_text(out: &mut [u8], at: usize, key: &[u8]) -> usize
    requires { length key.now < 4294967296 }
    ensures { (result ≡ length (key_text key.now)) × (out.new ≡ stored out.old (at + 1) (key_text key.now)) × (result < 8589934592) }
{
    if key.is_empty() {
        put_past(out, at, 1, b'-');
        return 1;
    }
    put_hex(out, at, key)
}

// Where the first digit has no room, all are only counted.
fn put_hex(out: &mut [u8], at: usize, key: &[u8]) -> usize
    requires { length key.now < 4294967296 }
    ensures { (result ≡ length (hex_text key.now)) × (out.new ≡ stored out.old (at + 1) (hex_text key.now)) × (result < 8589934592) }
{
    if at < out.len() {
        for (i, byte) in key.iter().enumerate() {
            put_byte(out, at, 1 + 2 * i, *byte);
        }
    }
    2 * key.len()
}

// The two digits of a byte, i bytes past the place at; where both have no room, the first alone.
fn put_byte(out: &mut [u8], at: usize, i: usize, byte: u8)
    requires { i < 8589934592 }
    ensures { out.new ≡ stored out.old (at + i) (hex_byte byte) }
{
    if at < out.len() && i + 1 < out.len() - at {
        out[at + i] = hex_digit(byte / 16);
        out[at + i + 1] = hex_digit(byte % 16);
    } else {
        put_past(out, at, i, hex_digit(byte / 16));
    }
}

#[tactic(auto, unfolding(crate::specs::Text::hex_digit))]
fn hex_digit(d: u8) -> u8
    requires { d < 16 }
    ensures { result ≡ hex_digit d }
{
    if d < 10 { b'0' + d } else { b'A' - 10 + d }
}
