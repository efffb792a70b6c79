// Module 6 of document 01: how the positions that intervals cover compare with those that a proof carries: which are missing and which are
// extra, reported by their total and the smallest of them (`position_report`). Nothing here grows with the width of a gap.
// Definitions: specs/Reports.antt (missing, extra, the check of spans, the answers), specs/Inner.antt (what inner and private functions
// promise). Laws: proofs/Laws.antt; among them covered = present + missing, and proved = present + extra.
//
// A function marked "inner" is public only because other crates need it. It checks nothing: its definition covers every input.
#![tactic(auto)]

pub mod compare;
mod gaps;
pub mod spans;

use item_check::Refusal;
use position_report::PositionMismatch;

// What `missing_from`, `missing_from_spans` and `extra_in` answer. It is no `Result`, since where the call is refused the report is promised too: it
// is the empty one (01 form.4).
#[derive(Clone, Copy)]
pub struct Compared {
    pub checked: Result<(), Refusal>,
    pub report: PositionMismatch,
}

// inner: where a walk along intervals stands: positions below from are dealt with, pairs before pair are passed, and report has what is off
// so far.
#[derive(Clone, Copy)]
pub struct Walk {
    pub pair: usize,
    pub from: u64,
    pub report: PositionMismatch,
}

// inner: where a walk over spans stands: whether something is refused, and how many spans are seen.
#[derive(Clone, Copy)]
pub struct SpanWalk {
    pub checked: Result<(), Refusal>,
    pub seen: usize,
    pub walk: Walk,
}
