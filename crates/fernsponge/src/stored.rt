// Section 4 of document 02. A stored list is a buffer of words, how many pairs of it the list has, and how many rows those cover.
ghost use Rattle.std.specs.Prelude.{◌≡◌};
ghost use Rattle.position_given.specs.Answers.{stored_of};
ghost use Rattle.position_stored.specs.Stored.{total_answer, cover_answer, cover_words, uncover_answer, uncover_words};
ghost use Rattle.fernsponge.specs.Answers.{returned, left, itself};
ghost use Rattle.fernsponge.specs.Positions.{pairs_in, rows_in};

use crate::numbers::refusal_number;
use item_check::Refusal;
use position_given::{LogPosition, RowCount, Stored};
use position_stored::change::{cover, uncover};
use position_stored::total::stored_total;

// The total of a stored list, which is what counting afresh gives (02 §4.6, §4.10).
#[unsafe(no_mangle)]
pub extern "C" fn fernsponge_stored_total(
    words: &[u64],
    pairs: usize,
    total: u64,
    rows: &mut u64,
) -> u64
    ensures value { result ≡ returned (total_answer words.now pairs total) }
    ensures rows_after { rows.new ≡ left itself (total_answer words.now pairs total) rows.old }
{
    match stored_total(words, pairs, RowCount(total)) {
        Ok(n) => {
            *rows = n.0;
            0
        }
        Err(refusal) => refusal_number(refusal),
    }
}

// Covers the rows from a start on, below an end, and tells the new number of pairs and the new total (02 §4.2).
#[unsafe(no_mangle)]
pub extern "C" fn fernsponge_cover(
    words: &mut [u64],
    pairs: usize,
    total: u64,
    start: u64,
    end: u64,
    after: &mut u64,
    rows: &mut u64,
) -> u64
    ensures value { result ≡ returned (cover_answer words.old pairs total start end) }
    ensures words_after { words.new ≡ cover_words words.old pairs total start end }
    ensures after_after { after.new ≡ left pairs_in (cover_answer words.old pairs total start end) after.old }
    ensures rows_after { rows.new ≡ left rows_in (cover_answer words.old pairs total start end) rows.old }
{
    give_stored(
        cover(
            words,
            pairs,
            RowCount(total),
            LogPosition(start),
            LogPosition(end),
        ),
        after,
        rows,
    )
}

// Uncovers them; the rest as `fernsponge_cover` (02 §4.3).
#[unsafe(no_mangle)]
pub extern "C" fn fernsponge_uncover(
    words: &mut [u64],
    pairs: usize,
    total: u64,
    start: u64,
    end: u64,
    after: &mut u64,
    rows: &mut u64,
) -> u64
    ensures value { result ≡ returned (uncover_answer words.old pairs total start end) }
    ensures words_after { words.new ≡ uncover_words words.old pairs total start end }
    ensures after_after { after.new ≡ left pairs_in (uncover_answer words.old pairs total start end) after.old }
    ensures rows_after { rows.new ≡ left rows_in (uncover_answer words.old pairs total start end) rows.old }
{
    give_stored(
        uncover(
            words,
            pairs,
            RowCount(total),
            LogPosition(start),
            LogPosition(end),
        ),
        after,
        rows,
    )
}

// Tells what a stored list has: its number of pairs and its total have a place each.
pub(crate) fn give_stored(answer: Result<Stored, Refusal>, pairs: &mut u64, total: &mut u64) -> u64
    ensures value { result ≡ returned (stored_of answer) }
    ensures pairs_after { pairs.new ≡ left pairs_in (stored_of answer) pairs.old }
    ensures total_after { total.new ≡ left rows_in (stored_of answer) total.old }
{
    match answer {
        Ok(stored) => {
            *pairs = stored.pairs as u64;
            *total = stored.rows.0;
            0
        }
        Err(refusal) => refusal_number(refusal),
    }
}
