// The core of `missing_from_spans`: a walk over spans, one start and end at a time. `start`, a `step` for each span in order, and
// `finish` give what `missing_from` gives on the positions that the spans contain: `spans_answer_lem` in proofs/Laws.antt. On spans as words in pairs
// `missing_from_span_words` is the whole of it.
ghost use Rattle.std.specs.Prelude.{◌≡◌};
ghost use Rattle.position_given.specs.Given.{intervals_of};
ghost use Rattle.position_mismatch.specs.Reports.{GivesCompared, spans_answer};
ghost use Rattle.position_mismatch.specs.Inner.{start_of, step_of, finish_of};

use crate::{Compared, SpanWalk, Walk};
use item_check::{Reason, refuse};
use position_given::{LAST_WORD, check_intervals};
use position_report::PositionMismatch;

// inner: which covered positions no span contains, of spans as words in pairs. An odd last word is no span (01 m6.11, form.9).
pub fn missing_from_span_words(intervals: &[u64], spans: &[u64]) -> Compared
    ensures { GivesCompared result (spans_answer intervals.now (intervals_of spans.now)) }
{
    let mut walk = SpanWalk::start(intervals);
    for i in 0..spans.len() / 2 {
        walk.step(intervals, spans[2 * i], spans[2 * i + 1]);
    }
    walk.finish(intervals)
}

impl SpanWalk {
    // inner: before the first span: the intervals are checked.
    pub fn start(intervals: &[u64]) -> Self
        ensures { result ≡ start_of intervals.now }
    {
        Self {
            checked: check_intervals(intervals),
            seen: 0,
            walk: Walk::begin(),
        }
    }

    // inner: the next span. Empty spans and touching ones are accepted. A walk that is refused stays so.
    pub fn step(&mut self, intervals: &[u64], start: u64, end: u64)
        ensures { self.new ≡ step_of intervals.now self.old start end }
    {
        if self.checked.is_err() {
            return;
        }
        if !((self.walk.from <= start) & (start <= end)) {
            self.checked = refuse(Reason::NotAscending, 1, self.seen);
            return;
        }
        self.walk.over_span(intervals, start, end);
        self.seen = self.seen.saturating_add(1);
    }

    // inner: after the last span: what is left of the intervals is missing.
    pub fn finish(self, intervals: &[u64]) -> Compared
        ensures { result ≡ finish_of intervals.now self }
    {
        match self.checked {
            Err(r) => Compared::of(Err(r)),
            Ok(()) => {
                // part by part: a walk that is copied whole asks C's library for memcpy
                let examples = self.walk.report.examples;
                let report = PositionMismatch {
                    total: self.walk.report.total,
                    count: self.walk.report.count,
                    examples,
                };
                let mut walk = Walk {
                    pair: self.walk.pair,
                    from: self.walk.from,
                    report,
                };
                walk.report_until(intervals, LAST_WORD);
                Compared::of(Ok(walk.report))
            }
        }
    }
}
