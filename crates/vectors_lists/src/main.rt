// Replays recorded answers of modules 3 and 4, by the code of the call: 1 intersect_items, 2 intersect_many_ordered, 3 our list after
// intersect_many_ordered.
#![tactic(auto)]

mod many;
mod pair;

use std::io;
use vectors::{Reader, Recorded};

fn main(rt: HostRuntime) -> io::Result<()> {
    let mut buffer = vectors::buffer();
    let n = vectors::read_sample(&mut rt.reader(), &mut buffer)?;
    vectors::replay(&rt, &buffer[..n], call)
}

// Whether the answer of a call on the inputs x is as recorded.
fn call(code: u8, x: Reader<'_>, recorded: Recorded<'_>) -> bool {
    match code {
        1 => pair::intersect_items(x, recorded),
        2 => many::intersect_many(x, recorded),
        3 => many::ours_after(x, recorded),
        _ => false,
    }
}
