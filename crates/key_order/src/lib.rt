// Module 1 of document 01: keys are finite byte strings, ordered byte by byte, a proper prefix first; and section 3 of document 02: long keys
// that begin alike are compared many bytes a turn.
// Definitions: specs/Order.antt, specs/Boundary.antt for the order of boundaries, specs/Words.antt for bytes read as a number, specs/Inner.antt
// for what private functions promise. Laws: proofs/Laws.antt, proofs/Line.antt, proofs/Ranks.antt, proofs/Words.antt.
#![tactic(auto)]

ghost use Rattle.std.specs.Prelude.{◌≡◌, true, ◌+◌, ◌≤◌, length, drop};
ghost use Rattle.key_order.specs.Order.{compare_keys, smaller};
ghost use Rattle.key_order.specs.Words.{be};
ghost use Rattle.key_order.specs.Inner.{Reached};

use std::cmp::Ordering;

// The bytes of a block.
const BLOCK: usize = 32;

// How a stands to b: blocks while they agree, then eight bytes a turn while both keys have them, then a byte a turn (01 m1.1, m1.2, 02 §3.1, §3.2).
// The library's order of slices does as much, and was tried: keys of 8 and of 16 bytes that begin alike take it twice as long.
pub fn compare(a: &[u8], b: &[u8]) -> Ordering
    ensures { result ≡ compare_keys a.now b.now }
{
    let end = a.len().min(b.len());
    let mut i = same_blocks(a, b);
    // no `chunks_exact`: the place goes on from where the blocks end, by eight, and the last bytes go on from there
    while 8 <= end - i {
        let x = word(&a[i..i + 8]);
        let y = word(&b[i..i + 8]);
        if x != y {
            return x.cmp(&y);
        }
        i += 8;
    }
    compare_from(a, b, i)
}

// A place from which on the keys stand as they do as a whole: behind the blocks that agree.
fn same_blocks(a: &[u8], b: &[u8]) -> usize
    ensures { Reached a.now b.now result }
{
    let end = a.len().min(b.len());
    let mut i = 0;
    // no `for`: the place at which a block differs is the answer, and goes on by 32
    while BLOCK <= end - i {
        if !same_block(a, b, i) {
            return i;
        }
        i += BLOCK;
    }
    i
}

// Whether the bytes of the block at i agree. No branch stands between them, so that LLVM takes sixteen at once.
fn same_block(a: &[u8], b: &[u8], i: usize) -> bool
    requires { (i + 32 ≤ length a.now) × (i + 32 ≤ length b.now) }
    ensures { result ≡ true → Reached a.now b.now i → Reached a.now b.now (i + 32) }
{
    let mut apart = 0u8;
    for k in 0..BLOCK {
        apart |= a[i + k] ^ b[i + k];
    }
    apart == 0
}

// The number of eight bytes, the first the greatest.
fn word(bytes: &[u8]) -> u64
    requires { length bytes.now ≡ 8 }
    ensures { result ≡ be bytes.now }
{
    u64::from_be_bytes([
        bytes[0], bytes[1], bytes[2], bytes[3], bytes[4], bytes[5], bytes[6], bytes[7],
    ])
}

// How what is left of a stands to what is left of b, from a place on that both have.
fn compare_from(a: &[u8], b: &[u8], from: usize) -> Ordering
    requires { (from ≤ length a.now) × (from ≤ length b.now) }
    ensures { result ≡ compare_keys (drop from a.now) (drop from b.now) }
{
    for i in from..a.len().min(b.len()) {
        if a[i] != b[i] {
            return a[i].cmp(&b[i]);
        }
    }
    a.len().cmp(&b.len())
}

// The smaller of a and b as the part of its pool that was lent, and b on a tie. One lifetime serves both pools (01 m1.3, form.6).
pub fn order_items<'a>(a: &'a [u8], b: &'a [u8]) -> &'a [u8]
    ensures { result ≡ smaller (compare_keys a.now b.now) a.entry b.entry }
{
    match compare(a, b) {
        Ordering::Less => a,
        Ordering::Equal => b,
        Ordering::Greater => b,
    }
}
