// What intervals are asked: whether they hold a position, how many they hold, whether they hold none.
ghost use Rattle.std.specs.Prelude.{◌≡◌};
ghost use Rattle.intervals.specs.Intervals.{holds};
ghost use Rattle.item_check.specs.Checks.{accepted};
ghost use Rattle.position_given.specs.Given.{intervals_of, intervals_verdict};
ghost use Rattle.position_given.specs.Inner.{Sound};
ghost use Rattle.position_given.specs.Answers.{length_of};
ghost use Rattle.position_intervals.specs.Asked.{contains_answer, len_answer, is_empty_answer};

use item_check::Refusal;
use position_given::{LogPosition, RowCount, check_even, check_intervals, count_rows};

// Whether a position lies in one of the intervals (01 m6.3, m6.8, form.2, form.3).
pub fn contains(intervals: &[u64], position: LogPosition) -> Result<bool, Refusal>
    ensures { result ≡ contains_answer intervals.now position.0 }
{
    check_intervals(intervals)?;
    Ok(in_one_of(intervals, position))
}

// The same of canonical intervals: asks one half of them, the one that starts at or below the position where there is a choice.
// It calls itself, and not `partition_point` over the pairs, since 01 form.3 asks for recursion.
fn in_one_of(intervals: &[u64], position: LogPosition) -> bool
    requires { Sound intervals.now }
    ensures { result ≡ holds (intervals_of intervals.now) position.0 }
{
    let len = intervals.len();
    if len == 0 {
        return false;
    }
    let p = position.0;
    if len == 2 {
        return (intervals[0] <= p) & (p < intervals[1]);
    }
    let cut = 2 * (len / 4);
    if p < intervals[cut] {
        return in_one_of(&intervals[..cut], position);
    }
    in_one_of(&intervals[cut..], position)
}

// inner: the same, unchecked: it ends on any words, and of intervals that are accepted it answers rightly, by halves too. The two stand side by
// side (docs/DECISIONS.md).
pub fn contains_accepted(intervals: &[u64], position: LogPosition) -> bool
    ensures { intervals_verdict intervals.now ≡ accepted → result ≡ holds (intervals_of intervals.now) position.0 }
{
    let pairs = intervals.len() / 2;
    if pairs == 0 {
        return false;
    }
    if pairs == 1 {
        return (intervals[0] <= position.0) & (position.0 < intervals[1]);
    }
    let half = 2 * (pairs / 2);
    if position.0 < intervals[half] {
        return contains_accepted(&intervals[..half], position);
    }
    contains_accepted(&intervals[half..], position)
}

// How many positions are covered (01 m6.9).
pub fn len(intervals: &[u64]) -> Result<RowCount, Refusal>
    ensures { length_of result ≡ len_answer intervals.now }
{
    check_even(intervals, 0)?;
    count_rows(intervals)
}

// Whether no position is covered (01 m6.9).
pub fn is_empty(intervals: &[u64]) -> Result<bool, Refusal>
    ensures { result ≡ is_empty_answer intervals.now }
{
    check_intervals(intervals)?;
    Ok(intervals.is_empty())
}
