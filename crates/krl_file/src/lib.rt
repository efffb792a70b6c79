// Module 7 of document 01: the KRL file, read from a slice to lent lists of items. Definitions: specs/File.antt. Laws: proofs/Laws.antt.
//
// The pool is not copied: it is a part of the file. Everything is decided before the first word is written.
#![tactic(auto)]

ghost use Rattle.std.specs.Prelude.{◌≡◌, true, ◌+◌, ◌*◌, ◌/◌, ◌<◌, ◌≤◌, length};
ghost use Rattle.query_item.specs.Items.{item_size};
ghost use Rattle.item_lists.specs.Written.{laid_over, written};
ghost use Rattle.krl_file.specs.File.{record_size, most_file, byte_at, u16_at, has_mark, has_version, pool_length, ours_count, theirs_count, whole_size, well_formed};
ghost use Rattle.krl_file.specs.File.{pool_of, record_at, records_from, ours_of, theirs_of, parts_of, file_room_answer, file_answer};

use item_check::{Reason, Refusal, refuse};
use item_lists::passes_room;
use item_words::{make_item, write_item};
use query_item::pooled::key_bytes;
use query_item::{ItemWords, KeyAt};

// The pool's length and the two counts.
#[derive(Clone, Copy)]
pub struct FileParts {
    pub pool: usize,
    pub ours: usize,
    pub theirs: usize,
}

// The mark and four u16.
pub const HEAD_SIZE: usize = 11;

pub const RECORD_SIZE: usize = 8;

pub const MOST_FILE: usize = 65536;

// The items of a file, written to the front of two lists, with the pool's length and their counts (01 m7.1, m7.2).
pub fn read_file(file: &[u8], ours: &mut [u32], theirs: &mut [u32]) -> Result<FileParts, Refusal>
    ensures result_value { result ≡ file_answer file.now ours.old theirs.old }
    ensures ours_after { ours.new ≡ written (file_answer file.now ours.old theirs.old) (ours_of file.now) ours.old }
    ensures theirs_after { theirs.new ≡ written (file_answer file.now ours.old theirs.old) (theirs_of file.now) theirs.old }
{
    if is_well_formed(file) {
        return read_lists(file, ours, theirs);
    }
    refuse(Reason::BadFile, 0, 0)
}

// The pool of a file: the part from HEAD_SIZE on, of the pool's length; of a file that ends before it does, what is there (01 m7.1).
pub fn pool_of(file: &[u8]) -> &[u8]
    ensures { result.now ≡ pool_of file.now }
{
    key_bytes(
        file,
        KeyAt {
            offset: HEAD_SIZE as u32,
            length: pool_length(file),
        },
    )
}

// The room of the two lists, known before anything is written; then the lists.
fn read_lists(file: &[u8], ours: &mut [u32], theirs: &mut [u32]) -> Result<FileParts, Refusal>
    requires { well_formed file.now ≡ true }
    ensures result_value { result ≡ file_room_answer file.now ours.old theirs.old }
    ensures ours_after { ours.new ≡ written (file_room_answer file.now ours.old theirs.old) (ours_of file.now) ours.old }
    ensures theirs_after { theirs.new ≡ written (file_room_answer file.now ours.old theirs.old) (theirs_of file.now) theirs.old }
{
    let p = parts_of(file);
    if passes_room(p.ours, ours) | passes_room(p.theirs, theirs) {
        return refuse(Reason::NoRoom, 0, 0);
    }
    let at = HEAD_SIZE + p.pool;
    write_records(file, at, p.ours, ours);
    write_records(file, at + RECORD_SIZE * p.ours, p.theirs, theirs);
    Ok(p)
}

fn is_well_formed(file: &[u8]) -> bool
    ensures { result ≡ well_formed file.now }
{
    (file.len() <= MOST_FILE)
        & has_mark(file)
        & has_version(file)
        & (file.len() == whole_size(file))
}

// 4B 52 4C.
fn has_mark(file: &[u8]) -> bool
    ensures { result ≡ has_mark file.now }
{
    file.starts_with(b"KRL")
}

fn has_version(file: &[u8]) -> bool
    ensures { result ≡ has_version file.now }
{
    u16_at(file, 3) == 1
}

// The length that the head asks for: nothing follows the last record.
fn whole_size(file: &[u8]) -> usize
    ensures { result ≡ whole_size file.now }
{
    HEAD_SIZE
        + pool_length(file) as usize
        + RECORD_SIZE * ours_count(file) as usize
        + RECORD_SIZE * theirs_count(file) as usize
}

fn parts_of(file: &[u8]) -> FileParts
    ensures { result ≡ parts_of file.now }
{
    FileParts {
        pool: pool_length(file) as usize,
        ours: ours_count(file) as usize,
        theirs: theirs_count(file) as usize,
    }
}

fn pool_length(file: &[u8]) -> u32
    ensures { result ≡ pool_length file.now }
{
    u16_at(file, 5)
}

fn ours_count(file: &[u8]) -> u32
    ensures { result ≡ ours_count file.now }
{
    u16_at(file, 7)
}

fn theirs_count(file: &[u8]) -> u32
    ensures { result ≡ theirs_count file.now }
{
    u16_at(file, 9)
}

// Writes n records, the first of which starts at a byte, to the front of a list.
fn write_records(file: &[u8], from: usize, n: usize, out: &mut [u32])
    requires { (from + record_size * n ≤ most_file) × (n ≤ length out.old / item_size) }
    ensures { out.new ≡ laid_over out.old (records_from file.now from n) }
{
    for i in 0..n {
        write_item(out, i, record_at(file, from + RECORD_SIZE * i));
    }
}

// The item of a record.
#[tactic(auto, unfolding(crate::specs::File::record_at))]
fn record_at(file: &[u8], at: usize) -> ItemWords
    requires { at + record_size ≤ most_file }
    ensures { result ≡ record_at file.now at }
{
    let start = KeyAt {
        offset: u16_at(file, at + 2),
        length: byte_at(file, at + 4),
    };
    let end = KeyAt {
        offset: u16_at(file, at + 5),
        length: byte_at(file, at + 7),
    };
    make_item(byte_at(file, at), byte_at(file, at + 1), start, end)
}

// A big-endian u16.
#[tactic(auto, unfolding(crate::specs::File::u16_at))]
fn u16_at(file: &[u8], i: usize) -> u32
    requires { i < most_file }
    ensures { result ≡ u16_at file.now i }
{
    let next = i + 1;
    byte_at(file, i) * 256 + byte_at(file, next)
}

// The byte at an index; past the file's end 0.
fn byte_at(file: &[u8], i: usize) -> u32
    ensures { (result ≡ byte_at file.now i) × (result < 256) }
{
    match file.get(i) {
        Some(byte) => u32::from(*byte),
        None => 0,
    }
}
