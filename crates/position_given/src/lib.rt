// Module 6 of document 01: intervals and proved positions, which are lent as words: their checks, in the order that document 01 fixes.
// Definitions: specs/Given.antt (the checks), specs/Positions.antt (the positions of intervals), specs/Answers.antt (answers that several calls
// have), specs/Inner.antt (what inner and private functions promise, here and in the crates above). Laws: proofs/Laws.antt; of lists of
// positions, proofs/Positions.antt; of widths and rows, proofs/Widths.antt and proofs/Rows.antt.
//
// Every function is inner: it is public only because other crates need it, and its definition covers every input.
#![tactic(auto)]

ghost use Rattle.std.specs.Prelude.{◌≡◌};
ghost use Rattle.position_given.specs.Given.{intervals_of, even_verdict, intervals_verdict, ascending_verdict, proved_verdict};
ghost use Rattle.position_given.specs.Answers.{length_of, rows_answer};

use item_check::{Reason, Refusal, refuse};

// The last u64. As a position it is covered by nothing, since no count is above it: nothing adds 1 to it.
pub const LAST_WORD: u64 = 18446744073709551615;

// A row of the log. Nothing adds two of them (01 m6.7, form.2).
#[derive(Clone, Copy)]
pub struct LogPosition(pub u64);

// How many rows (01 m6.7, form.2).
#[derive(Clone, Copy)]
pub struct RowCount(pub u64);

// What a stored list has: how many pairs, and how many rows these cover. It is what `from_query_items`, `cover` and `uncover` answer (02 §4.1).
#[derive(Clone, Copy)]
pub struct Stored {
    pub pairs: usize,
    pub rows: RowCount,
}

// inner: whether words are intervals: in pairs, and canonical.
pub fn check_intervals(intervals: &[u64]) -> Result<(), Refusal>
    ensures { result ≡ intervals_verdict intervals.now }
{
    check_even(intervals, 0)?;
    count_rows(intervals)?;
    Ok(())
}

// inner: whether words are in pairs, on a side; else 1.
pub fn check_even(words: &[u64], side: u32) -> Result<(), Refusal>
    ensures { result ≡ even_verdict side words.now }
{
    if !words.len().is_multiple_of(2) {
        return refuse(Reason::Malformed, side, 0);
    }
    Ok(())
}

// inner: how many rows words in pairs cover, in one pass that checks them: each pair is nonempty and starts above the end of the one before it;
// else 9. The first has none before it. No sum wraps: it is never above the last end.
pub fn count_rows(intervals: &[u64]) -> Result<RowCount, Refusal>
    ensures { length_of result ≡ rows_answer (intervals_of intervals.now) }
{
    let count = intervals.len() / 2;
    if count == 0 {
        return Ok(RowCount(0));
    }
    if intervals[1] <= intervals[0] {
        return refuse(Reason::NotCanonical, 0, 0);
    }
    let mut end = intervals[1];
    let mut rows = end - intervals[0];
    for i in 1..count {
        let s = intervals[2 * i];
        let e = intervals[2 * i + 1];
        if !((end < s) & (s < e)) {
            return refuse(Reason::NotCanonical, 0, i);
        }
        rows += e - s;
        end = e;
    }
    Ok(RowCount(rows))
}

// inner: whether words are intervals, and the positions proved of them ascend strictly.
pub fn check_proved(intervals: &[u64], proved: &[u64]) -> Result<(), Refusal>
    ensures { result ≡ proved_verdict intervals.now proved.now }
{
    check_intervals(intervals)?;
    check_ascending(proved)
}

// inner: whether each position is above the one before it; else 8.
pub fn check_ascending(proved: &[u64]) -> Result<(), Refusal>
    ensures { result ≡ ascending_verdict proved.now }
{
    for i in 1..proved.len() {
        if proved[i] <= proved[i - 1] {
            return refuse(Reason::NotAscending, 1, i);
        }
    }
    Ok(())
}
