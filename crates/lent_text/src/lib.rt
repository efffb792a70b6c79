// Texts in lent bytes. What has no room is left out, so that a text that is put into no bytes is only counted: the same code learns its length and
// writes it. Answered is how many bytes a text has, not the place after it. Definitions: specs/Text.antt. Laws: proofs/Laws.antt.
//
// Every function is inner: it is public only because other crates need it, checks nothing, and its definition covers every input.
#![tactic(auto)]

ghost use Rattle.std.specs.Prelude.{◌≡◌, ◌∷◌, [], ◌+◌, ◌≤◌, ◌<◌, length};
ghost use Rattle.lent_text.specs.Text.{stored, decimal, spaced_number};

// inner: one byte.
pub fn put(out: &mut [u8], at: usize, byte: u8)
    ensures { out.new ≡ stored out.old at (byte ∷ []) }
{
    if at < out.len() {
        out[at] = byte;
    }
}

// inner: one byte, i bytes past the place at.
pub fn put_past(out: &mut [u8], at: usize, i: usize, byte: u8)
    ensures { out.new ≡ stored out.old (at + i) (byte ∷ []) }
{
    if at < out.len() && i < out.len() - at {
        out[at + i] = byte;
    }
}

// inner: a text, from the place at on.
pub fn put_text(out: &mut [u8], at: usize, text: &[u8]) -> usize
    ensures { (result ≡ length text.now) × (out.new ≡ stored out.old at text.now) }
{
    // no `copy_from_slice`: the archive for C would ask for memcpy and memmove
    if at < out.len() {
        for (i, byte) in text.iter().enumerate() {
            put_past(out, at, i, *byte);
        }
    }
    text.len()
}

// inner: a number's decimal digits, from the place at on: those of a tenth of it, then the last.
pub fn put_number(out: &mut [u8], at: usize, n: u64) -> usize
    ensures { (result ≡ length (decimal n)) × (out.new ≡ stored out.old at (decimal n)) × (result ≤ 20) }
{
    if n < 10 {
        put(out, at, digit(n));
        return 1;
    }
    let k = put_number(out, at, n / 10);
    put_past(out, at, k, digit(n % 10));
    k + 1
}

// inner: a space and a number.
pub fn put_spaced(out: &mut [u8], at: usize, n: u64) -> usize
    ensures { (result ≡ length (spaced_number n)) × (out.new ≡ stored out.old at (spaced_number n)) × (result ≤ 21) }
{
    put(out, at, b' ');
    1 + put_number(out, at.saturating_add(1), n)
}

fn digit(d: u64) -> u8
    requires { d < 10 }
    ensures { result ≡ 48 + d }
{
    b'0' + d as u8
}
