// Replays recorded answers of module 5, by the code of the call: 1 insert_item where no items merge, 2 where some do. The original's own answers
// are those of 1 alone: how items merge is document 01's.
#![tactic(auto)]

mod insertion;

use std::io;
use vectors::{Reader, Recorded};

fn main(rt: HostRuntime) -> io::Result<()> {
    let mut buffer = vectors::buffer();
    let n = vectors::read_sample(&mut rt.reader(), &mut buffer)?;
    vectors::replay(&rt, &buffer[..n], call)
}

// Whether the answer of a call on the inputs x is as recorded.
fn call(code: u8, x: Reader<'_>, recorded: Recorded<'_>) -> bool {
    match code {
        1 | 2 => insertion::insert_item(x, recorded),
        _ => false,
    }
}
