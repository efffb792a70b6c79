// Calls on keys and on boundaries whose keys are lent bytes.
use boundary::BoundaryKind;
use range_borrowed::{kind_number, kind_numbered};
use std::cmp::Ordering;
use vectors::{Reader, Recorded};

// Inputs: two keys.
pub(crate) fn compare(mut x: Reader<'_>, recorded: Recorded<'_>) -> bool {
    let order = key_order::compare(x.key(), x.key());
    recorded.number(order_number(order))
}

// Inputs: two keys. The answer is the bytes of the smaller one.
pub(crate) fn order_items(mut x: Reader<'_>, recorded: Recorded<'_>) -> bool {
    let smaller = key_order::order_items(x.key(), x.key());
    recorded.answers(|held| held.bytes(smaller))
}

// Inputs: kind and key of one boundary, and of the other.
pub(crate) fn compare_boundaries(mut x: Reader<'_>, recorded: Recorded<'_>) -> bool {
    let left = kind(&mut x);
    let a = x.key();
    let right = kind(&mut x);
    let b = x.key();
    let order = boundary::compare_boundaries(left, a, right, b);
    recorded.number(order_number(order))
}

// Inputs: a kind, and 1 for the start.
pub(crate) fn invert(mut x: Reader<'_>, recorded: Recorded<'_>) -> bool {
    let inverted = kind(&mut x).invert(x.flag());
    recorded.number(u64::from(kind_number(inverted)))
}

fn kind(x: &mut Reader<'_>) -> BoundaryKind {
    kind_numbered(u32::from(x.byte()))
}

// The recorded answers have 0, 1, 2 for an order.
fn order_number(o: Ordering) -> u64 {
    match o {
        Ordering::Less => 0,
        Ordering::Equal => 1,
        Ordering::Greater => 2,
    }
}
