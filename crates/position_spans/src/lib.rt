// Module 6 of document 01: `missing_from_spans`, on a lent slice of spans. It is thin: the work is the core of `position_mismatch`, which
// takes one span after the other.
// Definitions: specs/Spans.antt (a span as an interval); the answer is `position_mismatch`'s `spans_answer`, and its laws stand there.
#![tactic(auto)]

ghost use Rattle.position_mismatch.specs.Reports.{GivesCompared, spans_answer};
ghost use Rattle.position_spans.specs.Spans.{span_pairs};

use position_mismatch::{Compared, SpanWalk};

// The positions from a start on, below an end. For C it is two words.
#[repr(C)]
#[derive(Clone, Copy)]
pub struct Span {
    pub start: u64,
    pub end: u64,
}

// Which covered positions no span contains. Linear in intervals and spans (01 m6.11, form.9).
pub fn missing_from_spans(intervals: &[u64], spans: &[Span]) -> Compared
    ensures { GivesCompared result (spans_answer intervals.now (span_pairs spans.now)) }
{
    let mut walk = SpanWalk::start(intervals);
    for span in spans {
        walk.step(intervals, span.start, span.end);
    }
    walk.finish(intervals)
}
