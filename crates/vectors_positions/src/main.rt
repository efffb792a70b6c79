// Replays recorded answers of module 6, by the code of the call: 1 be_u64, 2 from_query_items, 3 contains, 4 len, 5 is_empty, 6 missing_from,
// 7 extra_in, 8 missing_from_spans on the spans' words, 9 describe.
#![tactic(auto)]

mod asked;
mod query;
mod reports;
mod words;

use position_mismatch::compare::{extra_in, missing_from};
use position_mismatch::spans::missing_from_span_words;
use std::io;
use vectors::{Reader, Recorded};

fn main(rt: HostRuntime) -> io::Result<()> {
    let mut buffer = vectors::buffer();
    let n = vectors::read_sample(&mut rt.reader(), &mut buffer)?;
    vectors::replay(&rt, &buffer[..n], call)
}

// Whether the answer of a call on the inputs x is as recorded.
fn call(code: u8, x: Reader<'_>, recorded: Recorded<'_>) -> bool {
    match code {
        1 => query::be_u64(x, recorded),
        2 => query::from_query_items(x, recorded),
        3 => asked::contains(x, recorded),
        4 => asked::len(x, recorded),
        5 => asked::is_empty(x, recorded),
        6 => reports::compared(missing_from, x, recorded),
        7 => reports::compared(extra_in, x, recorded),
        8 => reports::compared(missing_from_span_words, x, recorded),
        9 => reports::describe(x, recorded),
        _ => false,
    }
}
