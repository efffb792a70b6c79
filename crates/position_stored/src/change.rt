// Covering one more half-open range in a stored list, and uncovering one.
ghost use Rattle.std.specs.Prelude.{◌≡◌, ◌<◌, Ok};
ghost use Rattle.pairs_sort.specs.Pairs.{finish};
ghost use Rattle.position_given.specs.Answers.{stored_of};
ghost use Rattle.position_stored.specs.Stored.{cover_answer, cover_words, uncover_answer, uncover_words};
ghost use Rattle.position_stored.specs.Inner.{Place, Passed, Grew, Gone, Raised};

use crate::tail::{place, place_piece};
use crate::total::check_stored;
use item_check::{Reason, Refusal, refuse};
use position_given::{LogPosition, RowCount, Stored};

// Words and count are no struct with the list's facts: `raise` and `place` change the words, and it would end there.

// Covers the rows from a start on, below an end. The answer is the new number of pairs and the new total; where it is a refusal no word
// has changed (02 §4.2, §4.4, §4.9, §4.11).
pub fn cover(
    words: &mut [u64],
    count: usize,
    total: RowCount,
    start: LogPosition,
    end: LogPosition,
) -> Result<Stored, Refusal>
    ensures result_value { stored_of result ≡ cover_answer words.old count total.0 start.0 end.0 }
    ensures words_after { words.new ≡ cover_words words.old count total.0 start.0 end.0 }
{
    check_stored(words, count, total)?;
    if end.0 <= start.0 {
        return stored(count, total.0);
    }
    let at = ends_below(words, count, start.0);
    let grown = grow(words, count, at, start.0, end.0);
    let after = at + 1 + (count - grown.from);
    if words.len() / 2 < after {
        return refuse(Reason::NoRoom, 0, 0);
    }
    place(words, count, at, grown.from, grown.start, grown.end);
    stored(after, total.0 - grown.gone + (grown.end - grown.start))
}

// Uncovers the rows from a start on, below an end; the rest as `cover` (02 §4.3, §4.7).
pub fn uncover(
    words: &mut [u64],
    count: usize,
    total: RowCount,
    start: LogPosition,
    end: LogPosition,
) -> Result<Stored, Refusal>
    ensures result_value { stored_of result ≡ uncover_answer words.old count total.0 start.0 end.0 }
    ensures words_after { words.new ≡ uncover_words words.old count total.0 start.0 end.0 }
{
    check_stored(words, count, total)?;
    if end.0 <= start.0 {
        return stored(count, total.0);
    }
    let at = ends_below(words, count, start.0 + 1);
    if at == count {
        return stored(count, total.0);
    }
    let first = words[2 * at];
    let whole = gone_whole(words, count, at, end.0);
    let left = total.0 - whole.gone;
    let after = usize::from(first < start.0) + at + (count - whole.from);
    if words.len() / 2 < after {
        return refuse(Reason::NoRoom, 0, 0);
    }
    let cut = raise(words, count, whole.from, end.0);
    place_piece(words, count, at, whole.from, first, start.0);
    stored(after, left - cut + start.0.saturating_sub(first))
}

// ---- covering

// A range that has taken in pairs up to an index, and how many rows those have.
#[derive(Clone, Copy)]
struct Grown {
    from: usize,
    start: u64,
    end: u64,
    gone: u64,
}

// Takes into a range the pairs that it overlaps or touches, from an index on.
fn grow(words: &[u64], count: usize, from: usize, s: u64, e: u64) -> Grown
    requires { Place words.now count from × (s < e) }
    ensures { Grew words.now count from s e result.from result.start result.end result.gone }
{
    let mut grown = Grown {
        from,
        start: s,
        end: e,
        gone: 0,
    };
    for i in from..count {
        let t = words[2 * i];
        let f = words[2 * i + 1];
        if grown.end < t {
            break;
        }
        grown = Grown {
            from: i + 1,
            start: grown.start.min(t),
            end: grown.end.max(f),
            gone: grown.gone + (f - t),
        };
    }
    grown
}

// ---- uncovering

// Pairs up to an index that go whole, and how many rows they have.
#[derive(Clone, Copy)]
struct Whole {
    from: usize,
    gone: u64,
}

// The pairs from an index on that end at or below e.
fn gone_whole(words: &[u64], count: usize, from: usize, e: u64) -> Whole
    requires { Place words.now count from }
    ensures { Gone words.now count from e result.from result.gone }
{
    let mut whole = Whole { from, gone: 0 };
    for i in from..count {
        let t = words[2 * i];
        let f = words[2 * i + 1];
        if e < f {
            break;
        }
        whole = Whole {
            from: i + 1,
            gone: whole.gone + (f - t),
        };
    }
    whole
}

// Takes what lies below e away from the pairs from an index on, of which the first ends past it: how many rows.
fn raise(words: &mut [u64], count: usize, from: usize, e: u64) -> u64
    requires { Place words.old count from × (from < count → e < finish words.old from) }
    ensures { Raised words.old count from e words.new result }
{
    if from == count {
        return 0;
    }
    let t = words[2 * from];
    let raised = t.max(e);
    words[2 * from] = raised;
    raised - t
}

// ---- both

// How many pairs at the front of a canonical list end below x: half of what is left is told by one of them.
fn ends_below(words: &[u64], count: usize, x: u64) -> usize
    requires { Place words.now count 0 }
    ensures { Passed words.now count x result }
{
    words[..2 * count]
        .as_chunks::<2>()
        .0
        .partition_point(|pair| pair[1] < x)
}

fn stored(pairs: usize, total: u64) -> Result<Stored, Refusal>
    ensures { stored_of result ≡ Ok (pairs, total) }
{
    let rows = RowCount(total);
    Ok(Stored { pairs, rows })
}
