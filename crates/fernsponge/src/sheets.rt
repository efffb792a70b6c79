// Section 1 of document 02.
ghost use Rattle.std.specs.Prelude.{◌≡◌};
ghost use Rattle.sheet_read.specs.Reading.{read_answer, read_pool, read_list};
ghost use Rattle.sheet_write.specs.Writing.{write_answer, write_bytes};
ghost use Rattle.fernsponge.specs.Answers.{returned, left, itself};
ghost use Rattle.fernsponge.specs.Sheets.{items_read, bytes_read};

use crate::numbers::refusal_number;

// Packs the keys of a sheet to the front of a pool, writes its items to the front of a list, and tells how many items and bytes these are (02 §1.8,
// §1.9, §1.11, §1.13).
#[unsafe(no_mangle)]
pub extern "C" fn fernsponge_read_sheet(
    text: &[u8],
    pool: &mut [u8],
    out: &mut [u32],
    items: &mut u64,
    bytes: &mut u64,
) -> u64
    ensures value { result ≡ returned (read_answer text.now pool.old out.old) }
    ensures pool_after { pool.new ≡ read_pool text.now pool.old out.old }
    ensures out_after { out.new ≡ read_list text.now pool.old out.old }
    ensures after { items.new ≡ left items_read (read_answer text.now pool.old out.old) items.old }
    ensures bytes_after { bytes.new ≡ left bytes_read (read_answer text.now pool.old out.old) bytes.old }
{
    match sheet_read::read_sheet(text, pool, out) {
        Ok(n) => {
            *items = n.items as u64;
            *bytes = n.bytes as u64;
            0
        }
        Err(refusal) => refusal_number(refusal),
    }
}

// Writes a list of plain items as a sheet to the front of lent bytes, and tells how many bytes it has (02 §1.9, §1.11, §1.12, §1.13).
#[unsafe(no_mangle)]
pub extern "C" fn fernsponge_write_sheet(
    pool: &[u8],
    words: &[u32],
    text: &mut [u8],
    bytes: &mut u64,
) -> u64
    ensures value { result ≡ returned (write_answer pool.now words.now text.old) }
    ensures text_after { text.new ≡ write_bytes pool.now words.now text.old }
    ensures bytes_after { bytes.new ≡ left itself (write_answer pool.now words.now text.old) bytes.old }
{
    match sheet_write::write_sheet(pool, words, text) {
        Ok(n) => {
            *bytes = n as u64;
            0
        }
        Err(refusal) => refusal_number(refusal),
    }
}
