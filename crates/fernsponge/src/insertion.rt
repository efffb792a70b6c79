// Module 5.
ghost use Rattle.std.specs.Prelude.{◌≡◌};
ghost use Rattle.query_item.specs.Items.{item_at};
ghost use Rattle.insert.specs.Answers.{insert_answer, insert_words};
ghost use Rattle.fernsponge.specs.Answers.{returned, left, itself};

use crate::numbers::refusal_number;
use item_words::{ITEM_SIZE, item_at};

// Inserts an item into the list of the first count items of words, and tells the new count (01 m5.9).
#[unsafe(no_mangle)]
pub extern "C" fn fernsponge_insert_item(
    pool: &[u8],
    words: &mut [u32],
    count: usize,
    item: &[u32; ITEM_SIZE],
    after: &mut u64,
) -> u64
    ensures value { result ≡ returned (insert_answer pool.now words.old count (item_at item.now 0)) }
    ensures words_after { words.new ≡ insert_words pool.now words.old count (item_at item.now 0) }
    ensures after_after { after.new ≡ left itself (insert_answer pool.now words.old count (item_at item.now 0)) after.old }
{
    match insert::insert_item(pool, words, count, item_at(item, 0)) {
        Ok(n) => {
            *after = n as u64;
            0
        }
        Err(refusal) => refusal_number(refusal),
    }
}
