// Module 7 of document 01: what the program does with a file. Definitions: specs/Program.antt (specs/Decided.antt is what the steps go by).
// Laws: proofs/Laws.antt.
//
// A file is read whole, its answer is decided (`decide`), and then line after line of it is asked for (`line_of`) and written. No contract can
// say what is read or written; that the i-th line is the i-th of `program_lines`, and that there are so many, is proved.
#![tactic(auto)]

ghost use Rattle.std.specs.Prelude.{◌≡◌, ◌+◌, ◌*◌, ◌≤◌, IfOk, length, take};
ghost use Rattle.query_item.specs.Items.{item_size};
ghost use Rattle.krl_file.specs.File.{most_file};
ghost use Rattle.krl_listing.specs.Listing.{most_line};
ghost use Rattle.krl_program.specs.Program.{list_room, program_lines};
ghost use Rattle.krl_program.specs.Decided.{most_records, Rooms, Decided, lines_of, Asked, Given};

use intersect_many::{ManyCounts, intersect_many_ordered};
use item_check::Refusal;
use item_words::ITEM_SIZE;
use krl_file::{pool_of, read_file};
use krl_line::refusal_line;
use krl_listing::{MAX_LINE, listing_line};
use std::io;
use std::io::Read;

// inner: reads a KRL file to the end of the input, and writes its listing or refusal to standard output. Where reading or writing fails, one
// line on standard error says so, and nothing more is written.
pub fn run<R: Read>(rt: &(impl Print + Eprint), input: &mut R) {
    let mut file = file_room();
    match read_all(input, &mut file) {
        Ok(n) => write_answer(rt, &file[..n]),
        Err(error) => tell(rt, "input", error),
    }
}

// Writes the line of a failure. Where that cannot be written either, nothing is left to do.
fn tell(rt: &impl Eprint, stream: &str, error: io::Error) {
    let _ = eprintln!(rt; "krl: standard {stream}: {error}");
}

// One byte more than a file may have, so that a longer one shows.
fn file_room() -> [u8; 65537]
    ensures { most_file + 1 ≡ length result }
{
    [0; 65537]
}

// Reads until the input ends or the lent bytes are full, and answers how many bytes there are. What comes in parts is waited for; a read that
// fails is not the end.
fn read_all<R: Read>(input: &mut R, file: &mut [u8]) -> io::Result<usize>
    ensures { IfOk result (λ n. n ≤ length file.new) }
{
    let mut done: usize = 0;
    while done < file.len() {
        match input.read(&mut file[done..])? {
            0 => break,
            more => done += more,
        }
    }
    Ok(done)
}

// The file's lists and the three lists have their places here, and go no further.
fn write_answer(rt: &(impl Print + Eprint), file: &[u8]) {
    let mut ours = records_room();
    let mut theirs = records_room();
    let mut shared_out = list_room();
    let mut ours_out = list_room();
    let mut theirs_out = list_room();
    let answer = decide(
        file,
        &mut ours,
        &mut theirs,
        &mut shared_out,
        &mut ours_out,
        &mut theirs_out,
    );
    if let Err(error) = write_lines(rt, file, &shared_out, &ours_out, &theirs_out, answer) {
        tell(rt, "output", error);
    }
}

fn records_room() -> [u32; 49140]
    ensures { item_size * most_records ≡ length result }
{
    [0; 49140]
}

fn list_room() -> [u32; 12288]
    ensures { item_size * list_room ≡ length result }
{
    [0; 12288]
}

fn line_room() -> [u8; MAX_LINE]
    ensures { most_line ≡ length result }
{
    [0; MAX_LINE]
}

// The file is read to two lists, and these make the three; or one of the two is refused.
fn decide(
    file: &[u8],
    ours: &mut [u32],
    theirs: &mut [u32],
    shared_out: &mut [u32],
    ours_out: &mut [u32],
    theirs_out: &mut [u32],
) -> Result<ManyCounts, Refusal>
    requires { Rooms ours.old theirs.old shared_out.old ours_out.old theirs_out.old }
    ensures { Decided file.now shared_out.new ours_out.new theirs_out.new result }
{
    let parts = read_file(file, ours, theirs)?;
    intersect_many_ordered(
        pool_of(file),
        front(ours, parts.ours),
        front(theirs, parts.theirs),
        shared_out,
        ours_out,
        theirs_out,
    )
}

// The words of the first items of a list.
fn front(words: &[u32], count: usize) -> &[u32]
    requires { item_size * count ≤ length words.now }
    ensures { result.now ≡ take (item_size * count) words.now }
{
    let end = ITEM_SIZE * count;
    &words[..end]
}

// Asks for line after line of an answer and writes it, to the last one or to one that cannot be written, and answers how many it has written.
fn write_lines(
    rt: &impl Print,
    file: &[u8],
    shared_out: &[u32],
    ours_out: &[u32],
    theirs_out: &[u32],
    answer: Result<ManyCounts, Refusal>,
) -> io::Result<usize>
    requires { Decided file.now shared_out.now ours_out.now theirs_out.now answer }
    ensures { IfOk result (λ n. n ≡ length (program_lines file.now)) }
{
    let mut room = line_room();
    let line: &mut [u8] = &mut room;
    let lines = count_lines(answer);
    let mut written: usize = 0;
    for i in 0..lines {
        let n = line_of(file, shared_out, ours_out, theirs_out, answer, i, line);
        rt.write_all(&line[..n])?;
        written += 1;
    }
    Ok(written)
}

fn count_lines(answer: Result<ManyCounts, Refusal>) -> usize
    requires { lines_of answer ≤ 3 + 3 * list_room }
    ensures { result ≡ lines_of answer }
{
    match answer {
        Ok(counts) => 3 + counts.shared + counts.ours + counts.theirs,
        Err(_) => 1,
    }
}

// The i-th line of what is written of a file.
fn line_of(
    file: &[u8],
    shared_out: &[u32],
    ours_out: &[u32],
    theirs_out: &[u32],
    answer: Result<ManyCounts, Refusal>,
    i: usize,
    line: &mut [u8],
) -> usize
    requires { Asked file.now shared_out.now ours_out.now theirs_out.now answer i line.old }
    ensures { Given file.now i line.new result }
{
    match answer {
        Ok(counts) => {
            listing_line(
                line,
                pool_of(file),
                shared_out,
                ours_out,
                theirs_out,
                counts,
                i,
            )
        }
        Err(refusal) => refusal_line(line, refusal),
    }
}
