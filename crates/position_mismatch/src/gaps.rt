// A walk along intervals that reports what stands between proved positions. What a turn costs does not grow with a gap's width.
ghost use Rattle.std.specs.Prelude.{◌≡◌, ◌&&◌, ◌/◌, [], length, leb, ltb};
ghost use Rattle.pairs_sort.specs.Pairs.{start};
ghost use Rattle.position_report.specs.Reports.{report_of};
ghost use Rattle.position_mismatch.specs.Inner.{walk_at, report_until, pairs_left, over_span, FirstPast};

use crate::Walk;
use position_report::PositionMismatch;

impl Walk {
    // Nothing is dealt with yet.
    pub(crate) fn begin() -> Self
        ensures { result ≡ walk_at 0 0 (report_of []) }
    {
        Self {
            pair: 0,
            from: 0,
            report: PositionMismatch::empty(),
        }
    }

    // Below a span's start everything that is left is reported; the span's own positions are passed over.
    pub(crate) fn over_span(&mut self, intervals: &[u64], start: u64, end: u64)
        ensures { self.new ≡ over_span intervals.now self.old start end }
    {
        self.report_until(intervals, start);
        self.from = end;
    }

    // Reports what is left of the intervals below a position. A turn passes a pair, or is the last.
    pub(crate) fn report_until(&mut self, intervals: &[u64], to: u64)
        ensures { self.new ≡ report_until (pairs_left intervals.now self.old) self.old to }
    {
        for i in self.pair..intervals.len() / 2 {
            let e = intervals[2 * i + 1];
            self.report
                .push_run(intervals[2 * i].max(self.from), e.min(to));
            if to < e {
                return;
            }
            self.pair = i + 1;
        }
    }
}

// The first pair, from pair i on, that ends above a position.
pub(crate) fn first_past(intervals: &[u64], from: usize, p: u64) -> usize
    ensures { FirstPast intervals.now from p result }
{
    let count = intervals.len() / 2;
    // no `find`: a position costs 1.4 times as many instructions with it
    for i in from..count {
        if p < intervals[2 * i + 1] {
            return i;
        }
    }
    from.max(count)
}

// Whether pair i is there and starts at or below a position.
pub(crate) fn starts_by(intervals: &[u64], i: usize, p: u64) -> bool
    ensures { result ≡ ltb i (length intervals.now / 2) && leb (start intervals.now i) p }
{
    i < intervals.len() / 2 && intervals[2 * i] <= p
}
