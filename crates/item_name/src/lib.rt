// The names of items as in document 01: the code of a name, and the name of a code in lent bytes. Definitions: specs/Names.antt. Laws:
// proofs/Laws.antt.
//
// Every function is inner: it is public only because other crates need it, checks nothing, and its definition covers every input.
#![tactic(auto)]

ghost use Rattle.std.specs.Prelude.{◌≡◌, cond, ◌≤◌, length};
ghost use Rattle.query_item.specs.Items.{same};
ghost use Rattle.lent_text.specs.Text.{stored};
ghost use Rattle.item_name.specs.Names.{no_code, name_of, code_of};

use lent_text::put_text;

// inner: the code of a name; 10 where no item is called so. But for two, the names differ in length. A match over the names themselves was tried: it
// leaves a goal for each letter of each.
pub fn code_of(name: &[u8]) -> u32
    ensures { result ≡ code_of name.now }
{
    match name.len() {
        3 => code_if(name, b"Key", 0),
        5 => code_if(name, b"Range", 1),
        7 => code_if(name, b"RangeTo", 5),
        9 => full_or_from(name),
        10 => code_if(name, b"RangeAfter", 7),
        12 => code_if(name, b"RangeAfterTo", 8),
        14 => code_if(name, b"RangeInclusive", 2),
        16 => code_if(name, b"RangeToInclusive", 6),
        21 => code_if(name, b"RangeAfterToInclusive", 9),
        _ => 10,
    }
}

fn code_if(name: &[u8], known: &[u8], code: u32) -> u32
    ensures { result ≡ cond (same name.now known.now) code no_code }
{
    if name == known { code } else { 10 }
}

fn full_or_from(name: &[u8]) -> u32
    requires { length name.now ≡ 9 }
    ensures { result ≡ code_of name.now }
{
    if name == b"RangeFull".as_slice() {
        return 3;
    }
    code_if(name, b"RangeFrom", 4)
}

// inner: the name of a code, from the place at on, and how many bytes that is.
pub fn put_name(out: &mut [u8], at: usize, code: u32) -> usize
    ensures { (result ≡ length (name_of code)) × (out.new ≡ stored out.old at (name_of code)) × (result ≤ 21) }
{
    put_text(out, at, name_of(code))
}

#[tactic(auto, unfolding(crate::specs::Names::name_of))]
fn name_of(code: u32) -> &'static [u8]
    ensures { (result.now ≡ name_of code) × (length result.now ≤ 21) }
{
    match code {
        0 => b"Key",
        1 => b"Range",
        2 => b"RangeInclusive",
        3 => b"RangeFull",
        4 => b"RangeFrom",
        5 => b"RangeTo",
        6 => b"RangeToInclusive",
        7 => b"RangeAfter",
        8 => b"RangeAfterTo",
        _ => b"RangeAfterToInclusive",
    }
}
