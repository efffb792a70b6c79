// Samples of recorded answers: how they are read, how an answer is held against a recorded one, and what is counted. The programs
// `vectors_..` make the calls. Numbers are big-endian; a sample is
//
//     the mark FSV1, its length and the number of its cases (4 bytes each), the cases, and the byte EE
//
// and a case is the code of a call (a byte), a block of inputs, a block with our answer, a byte, and a block with the original's answer: the byte
// is 1 for a listed difference (docs/DIFFERENCES.md), or else 0, and the last block is then empty. A block is its length in 4 bytes, and its
// bytes; a key is its length in 2 bytes, and its bytes; an item that is given is its code and wrapper, a byte each, and offset and length of
// both keys, 2 bytes each.
#![tactic(auto)]

mod counts;
pub mod lent;
mod reader;
mod recorded;

ghost use Rattle.std.specs.Prelude.{◌≤◌, ◌≡◌, IfOk, length};

use counts::Tally;
pub use reader::Reader;
pub use recorded::{Held, Recorded};
use std::io;
use std::io::Read;

// A case: the code of its call, the inputs, and the recorded answer.
#[derive(Clone, Copy)]
struct Case<'a> {
    code: u8,
    inputs: Reader<'a>,
    recorded: Recorded<'a>,
}

// FSV1.
const MARK: u32 = 1179866673;

const END_MARK: u8 = 238;

// Room for the longest sample. The `ensures` gives its length, which lending it as a slice needs.
pub fn buffer() -> [u8; 393216]
    ensures { 393216 ≡ length result }
{
    [0; 393216]
}

// Reads into the lent bytes until they are full or the input ends, and answers how many it has read.
pub fn read_sample(input: &mut impl Read, s: &mut [u8]) -> io::Result<usize>
    ensures { IfOk result (λ n. n ≤ length s.new) }
{
    let mut done = 0;
    while done < s.len() {
        let more = input.read(&mut s[done..])?;
        if more == 0 {
            break;
        }
        done += more;
    }
    Ok(done)
}

// Makes the call of each case of a sample, which says whether its answer is as recorded, and writes what was counted.
pub fn replay<F: Fn(u8, Reader<'_>, Recorded<'_>) -> bool>(
    rt: &impl Print,
    s: &[u8],
    call: F,
) -> io::Result<()>
    requires { F.IsAlwaysCallable call }
{
    let mut r = Reader::new(s);
    let is_sample = (r.word() == MARK) & (r.word() as usize == s.len());
    let mut tally = Tally::new();
    // a case has more than one byte
    for _ in 0..s.len().min(r.word() as usize) {
        let case = r.case();
        tally.count(
            case.recorded.is_listed(),
            call(case.code, case.inputs, case.recorded),
        );
    }
    if is_sample & r.is_last(END_MARK) {
        return tally.report(rt);
    }
    println!(rt; "the sample is cut short or malformed")
}

impl<'a> Reader<'a> {
    fn case(&mut self) -> Case<'a> {
        let code = self.byte();
        let inputs = Reader::new(self.block());
        let ours = self.block();
        let is_listed = self.flag();
        let rust = self.block();
        Case {
            code,
            inputs,
            recorded: Recorded::new(ours, if is_listed { Some(rust) } else { None }),
        }
    }
}
