// Module 7 of document 01: the line of a refusal, written into lent bytes. Definitions: specs/Lines.antt. Laws: proofs/Laws.antt; among them that
// no such line is longer than 57 bytes.
//
// `refusal_line` is inner, as are the functions of `lent_text` that it calls: what has no room is left out, and whoever calls it lends enough.
#![tactic(auto)]

ghost use Rattle.std.specs.Prelude.{◌≡◌, ◌≤◌, length};
ghost use Rattle.lent_text.specs.Text.{stored};
ghost use Rattle.krl_line.specs.Lines.{side_text, place_text, refusal_line, PutFront};

use item_check::Refusal;
use lent_text::{put, put_spaced, put_text};

// inner: writes the line of a refusal to the front of lent bytes, and answers how many bytes it has (01 m7.6).
pub fn refusal_line(out: &mut [u8], refusal: Refusal) -> usize
    ensures { PutFront out.old (refusal_line refusal) result out.new }
{
    let number = refusal.number;
    let a = put_text(out, 0, b"refused");
    let b = a + put_spaced(out, a, u64::from(number));
    let c = b + put_place(out, b, number, refusal.side, refusal.index);
    put(out, c, b'\n');
    c + 1
}

// The side and the index, where the number does not stand bare.
fn put_place(out: &mut [u8], at: usize, number: u32, side: u32, index: usize) -> usize
    requires { at ≤ 100 }
    ensures { (result ≡ length (place_text number side index)) × (out.new ≡ stored out.old at (place_text number side index)) × (result ≤ 28) }
{
    if (number == 6) | (number == 10) {
        return 0;
    }
    let a = put_side(out, at, side);
    a + put_spaced(out, at + a, index as u64)
}

#[tactic(auto, unfolding(crate::specs::Lines::side_text))]
fn put_side(out: &mut [u8], at: usize, side: u32) -> usize
    ensures { (result ≡ length (side_text side)) × (out.new ≡ stored out.old at (side_text side)) × (result ≤ 7) }
{
    if side == 0 {
        put_text(out, at, b" ours")
    } else {
        put_text(out, at, b" theirs")
    }
}
