// The C interface: thin exported functions over the other crates, for Rust or C to link. A lent slice is an address and a length, lent
// numbers of a known count are an address alone, and what is lent for writing may not overlap anything else; a bool is 0 or 1.
//
// A call that may refuse returns the refusal as number + 256 · side + 65,536 · index, or 0, and writes its answer to the places lent for it
// only where it returns 0. A place for an answer of fixed size has that size, so that 6 is want of room for a list, pairs or a text alone. An
// item that may be missing is seven words: 1 and its words, or seven times 0. A call that refuses nothing returns its answer.
// Definitions: specs/Answers.antt (numbers, what is returned and left), specs/Calls.antt (kinds as numbers), specs/Intersect.antt (modules 3
// and 4), specs/Positions.antt (module 6, section 4 of document 02), specs/Plans.antt, specs/Cards.antt, specs/Collecting.antt and
// specs/Sheets.antt (its sections 9, 8, 6 and 1). Laws: proofs/Laws.antt.
#![tactic(auto)]

pub mod cards;
pub mod collecting;
pub mod insertion;
pub mod items;
pub mod many;
mod numbers;
pub mod pair;
pub mod plans;
pub mod positions;
pub mod sheets;
pub mod stored;

ghost use Rattle.std.specs.Prelude.{◌≡◌};
ghost use Rattle.key_order.specs.Order.{compare_keys, order_number, smaller};

use crate::numbers::order_number;

// How a stands to b: 0 less, 1 equal, 2 greater (01 m1.1).
#[unsafe(no_mangle)]
pub extern "C" fn fernsponge_compare(a: &[u8], b: &[u8]) -> u64
    ensures { result ≡ order_number (compare_keys a.now b.now) }
{
    u64::from(order_number(key_order::compare(a, b)))
}

// Writes the smaller of a and b into part, and b on a tie: the lent bytes themselves. An exported function can't return them (01 m1.3).
#[unsafe(no_mangle)]
pub extern "C" fn fernsponge_order_items<'a>(a: &'a [u8], b: &'a [u8], part: &mut &'a [u8])
    ensures { part.new ≡ smaller (compare_keys a.now b.now) a.entry b.entry }
{
    *part = key_order::order_items(a, b);
}
