// How covered and proved positions compare: which are missing, and which are extra.
ghost use Rattle.std.specs.Prelude.{◌≡◌};
ghost use Rattle.position_given.specs.Given.{intervals_of};
ghost use Rattle.position_given.specs.Inner.{Sound, Ascends};
ghost use Rattle.position_mismatch.specs.Reports.{missing, extra, GivesCompared, missing_answer, extra_answer};
ghost use Rattle.position_mismatch.specs.Inner.{compared};
ghost use Rattle.position_report.specs.Reports.{report_of};

use crate::gaps::{first_past, starts_by};
use crate::{Compared, Walk};
use item_check::Refusal;
use position_given::{LAST_WORD, check_proved};
use position_report::PositionMismatch;

impl Compared {
    // The report, or a refusal beside the empty report.
    pub(crate) fn of(answer: Result<PositionMismatch, Refusal>) -> Self
        ensures { result ≡ compared answer }
    {
        match answer {
            Ok(report) => Self {
                checked: Ok(()),
                report,
            },
            Err(r) => Self {
                checked: Err(r),
                report: PositionMismatch::empty(),
            },
        }
    }
}

// Which covered positions are not proved (01 m6.10, change.4).
pub fn missing_from(intervals: &[u64], proved: &[u64]) -> Compared
    ensures { GivesCompared result (missing_answer intervals.now proved.now) }
{
    Compared::of(missing(intervals, proved))
}

// Which proved positions are not covered (01 m6.10, change.4).
pub fn extra_in(intervals: &[u64], proved: &[u64]) -> Compared
    ensures { GivesCompared result (extra_answer intervals.now proved.now) }
{
    Compared::of(extra(intervals, proved))
}

fn missing(intervals: &[u64], proved: &[u64]) -> Result<PositionMismatch, Refusal>
    ensures { result ≡ missing_answer intervals.now proved.now }
{
    check_proved(intervals, proved)?;
    Ok(missing_positions(intervals, proved))
}

fn extra(intervals: &[u64], proved: &[u64]) -> Result<PositionMismatch, Refusal>
    ensures { result ≡ extra_answer intervals.now proved.now }
{
    check_proved(intervals, proved)?;
    Ok(extra_positions(intervals, proved))
}

// Walks along the intervals from one proved position to the next: each is a span of one, and the last u64, which nothing covers, an empty one.
// Linear in intervals and positions.
fn missing_positions(intervals: &[u64], proved: &[u64]) -> PositionMismatch
    requires sound { Sound intervals.now × Ascends 0 proved.now }
    ensures { result ≡ report_of (missing (intervals_of intervals.now) proved.now) }
{
    let mut walk = Walk::begin();
    for p in proved {
        walk.over_span(intervals, *p, p.saturating_add(1));
    }
    walk.report_until(intervals, LAST_WORD);
    walk.report
}

// Asks of each proved position the first pair that ends above it. Linear in intervals and positions: the pair only moves on.
fn extra_positions(intervals: &[u64], proved: &[u64]) -> PositionMismatch
    requires sound { Sound intervals.now × Ascends 0 proved.now }
    ensures { result ≡ report_of (extra (intervals_of intervals.now) proved.now) }
{
    let mut report = PositionMismatch::empty();
    let mut pair: usize = 0;
    for p in proved {
        pair = first_past(intervals, pair, *p);
        if !starts_by(intervals, pair, *p) {
            report.push_one(*p);
        }
    }
    report
}
