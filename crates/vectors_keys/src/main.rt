// Replays recorded answers of modules 1 and 2, by the code of the call: 1 compare, 2 order_items, 3 compare_boundaries, 4 invert,
// 5 to_range_set, 6 to_query_item, 7 could_contain_key, 8 could_have_items_in_direction.
#![tactic(auto)]

mod items;
mod keys;

use std::io;
use vectors::{Reader, Recorded};

fn main(rt: HostRuntime) -> io::Result<()> {
    let mut buffer = vectors::buffer();
    let n = vectors::read_sample(&mut rt.reader(), &mut buffer)?;
    vectors::replay(&rt, &buffer[..n], call)
}

// Whether the answer of a call on the inputs x is as recorded.
fn call(code: u8, x: Reader<'_>, recorded: Recorded<'_>) -> bool {
    match code {
        1 => keys::compare(x, recorded),
        2 => keys::order_items(x, recorded),
        3 => keys::compare_boundaries(x, recorded),
        4 => keys::invert(x, recorded),
        5 => items::to_range_set(x, recorded),
        6 => items::to_query_item(x, recorded),
        7 => items::could_contain_key(x, recorded),
        8 => items::could_have_items(x, recorded),
        _ => false,
    }
}
