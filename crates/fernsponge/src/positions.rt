// Module 6. Intervals are pairs of words, and a report is three parts: the total, how many examples it has, and the places for them.
ghost use Rattle.std.specs.Prelude.{◌≡◌, [], length, Ok};
ghost use Rattle.intervals.specs.Intervals.{holds};
ghost use Rattle.item_check.specs.Checks.{accepted};
ghost use Rattle.position_given.specs.Given.{intervals_of, intervals_verdict};
ghost use Rattle.position_intervals.specs.Asked.{contains_answer, len_answer, is_empty_answer};
ghost use Rattle.position_key.specs.Keys.{position_answer};
ghost use Rattle.position_report.specs.Reports.{report_at, report_of};
ghost use Rattle.position_mismatch.specs.Reports.{compared_of, missing_answer, extra_answer, spans_answer};
ghost use Rattle.position_spans.specs.Spans.{span_pairs};
ghost use Rattle.position_describe.specs.Text.{describe_answer, described_in};
ghost use Rattle.fernsponge.specs.Answers.{bool_number, returned, left, itself};
ghost use Rattle.fernsponge.specs.Positions.{GivesReport, GivesPairs};

use crate::numbers::{bool_number, refusal_number};
use crate::stored::give_stored;
use item_check::Refusal;
use position_given::{LogPosition, RowCount};
use position_mismatch::Compared;
use position_report::PositionMismatch;
use position_spans::Span;

// A key that is no position: number 7, side 0, index 0.
const NO_POSITION: u64 = 7;

// The position of a key (01 m6.2, form.7).
#[unsafe(no_mangle)]
pub extern "C" fn fernsponge_be_u64(key: &[u8], position: &mut u64) -> u64
    ensures value { result ≡ returned (position_answer key.now) }
    ensures position_after { position.new ≡ left itself (position_answer key.now) position.old }
{
    let Ok(p) = position_key::be_u64(key) else {
        return NO_POSITION;
    };
    *position = p.0;
    0
}

// Writes the positions below count that items cover, as canonical pairs at the front of out, and tells how many pairs they are and how many rows
// they cover (01 m6.4, m6.5, 02 §4.5).
#[unsafe(no_mangle)]
pub extern "C" fn fernsponge_from_query_items(
    pool: &[u8],
    items: &[u32],
    count: u64,
    out: &mut [u64],
    pairs: &mut u64,
    total: &mut u64,
) -> u64
    ensures { GivesPairs pool.now items.now count out.old pairs.old
        total.old result out.new pairs.new total.new }
{
    give_stored(
        position_query::query::from_query_items(pool, items, RowCount(count), out),
        pairs,
        total,
    )
}

// Whether a position lies in one of the intervals: 1 for yes and 0 for no (01 m6.8).
#[unsafe(no_mangle)]
pub extern "C" fn fernsponge_contains(intervals: &[u64], position: u64, yes: &mut u32) -> u64
    ensures value { result ≡ returned (contains_answer intervals.now position) }
    ensures yes_after { yes.new ≡ left bool_number (contains_answer intervals.now position) yes.old }
{
    give_yes(
        position_intervals::ask::contains(intervals, LogPosition(position)),
        yes,
    )
}

// inner: the same, unchecked, of intervals that a call has accepted before. It ends on any words, and says nothing of others, so that no header has
// it: it is for a type that holds accepted intervals alone (01 m6.8).
#[unsafe(no_mangle)]
pub extern "C" fn fernsponge_contains_accepted(intervals: &[u64], position: u64) -> u32
    ensures { intervals_verdict intervals.now ≡ accepted → result ≡ bool_number (holds (intervals_of intervals.now) position) }
{
    bool_number(position_intervals::ask::contains_accepted(intervals, LogPosition(position)))
}

// How many positions are covered (01 m6.9).
#[unsafe(no_mangle)]
pub extern "C" fn fernsponge_len(intervals: &[u64], rows: &mut u64) -> u64
    ensures value { result ≡ returned (len_answer intervals.now) }
    ensures rows_after { rows.new ≡ left itself (len_answer intervals.now) rows.old }
{
    match position_intervals::ask::len(intervals) {
        Ok(n) => {
            *rows = n.0;
            0
        }
        Err(refusal) => refusal_number(refusal),
    }
}

// Whether no position is covered: 1 for yes and 0 for no (01 m6.9).
#[unsafe(no_mangle)]
pub extern "C" fn fernsponge_is_empty(intervals: &[u64], yes: &mut u32) -> u64
    ensures value { result ≡ returned (is_empty_answer intervals.now) }
    ensures yes_after { yes.new ≡ left bool_number (is_empty_answer intervals.now) yes.old }
{
    give_yes(position_intervals::ask::is_empty(intervals), yes)
}

pub(crate) fn give_yes(answer: Result<bool, Refusal>, yes: &mut u32) -> u64
    ensures value { result ≡ returned answer }
    ensures yes_after { yes.new ≡ left bool_number answer yes.old }
{
    match answer {
        Ok(b) => {
            *yes = bool_number(b);
            0
        }
        Err(refusal) => refusal_number(refusal),
    }
}

// The report that nothing is off. It refuses nothing (01 form.4).
#[unsafe(no_mangle)]
pub extern "C" fn fernsponge_empty_report(
    total: &mut u64,
    count: &mut u64,
    examples: &mut [u64; PositionMismatch::MAX_REPORTED_POSITIONS],
) -> u64
    ensures { GivesReport (Ok (report_of [])) total.old count.old examples.old result
        total.new count.new examples.new }
{
    let report = PositionMismatch::empty();
    let compared = Compared {
        checked: Ok(()),
        report,
    };
    give_report(compared, total, count, examples)
}

// Which covered positions are not proved (01 m6.10).
#[unsafe(no_mangle)]
pub extern "C" fn fernsponge_missing_from(
    intervals: &[u64],
    proved: &[u64],
    total: &mut u64,
    count: &mut u64,
    examples: &mut [u64; PositionMismatch::MAX_REPORTED_POSITIONS],
) -> u64
    ensures { GivesReport (missing_answer intervals.now proved.now) total.old count.old
        examples.old result total.new count.new examples.new }
{
    give_report(
        position_mismatch::compare::missing_from(intervals, proved),
        total,
        count,
        examples,
    )
}

// Which covered positions no span contains. A span is two words, its start and its end (01 m6.11).
#[unsafe(no_mangle)]
pub extern "C" fn fernsponge_missing_from_spans(
    intervals: &[u64],
    spans: &[Span],
    total: &mut u64,
    count: &mut u64,
    examples: &mut [u64; PositionMismatch::MAX_REPORTED_POSITIONS],
) -> u64
    ensures { GivesReport (spans_answer intervals.now (span_pairs spans.now)) total.old
        count.old examples.old result total.new count.new examples.new }
{
    give_report(
        position_spans::missing_from_spans(intervals, spans),
        total,
        count,
        examples,
    )
}

// Which proved positions are not covered (01 m6.10).
#[unsafe(no_mangle)]
pub extern "C" fn fernsponge_extra_in(
    intervals: &[u64],
    proved: &[u64],
    total: &mut u64,
    count: &mut u64,
    examples: &mut [u64; PositionMismatch::MAX_REPORTED_POSITIONS],
) -> u64
    ensures { GivesReport (extra_answer intervals.now proved.now) total.old count.old
        examples.old result total.new count.new examples.new }
{
    give_report(
        position_mismatch::compare::extra_in(intervals, proved),
        total,
        count,
        examples,
    )
}

fn give_report(
    compared: Compared,
    total: &mut u64,
    count: &mut u64,
    examples: &mut [u64; PositionMismatch::MAX_REPORTED_POSITIONS],
) -> u64
    ensures { GivesReport (compared_of compared) total.old count.old examples.old result
        total.new count.new examples.new }
{
    let checked = compared.checked;
    let report = compared.report;
    match checked {
        Ok(()) => {
            *total = report.total.0;
            *count = report.count as u64;
            let shown = report.examples;
            *examples = shown;
            0
        }
        Err(refusal) => refusal_number(refusal),
    }
}

// Writes a report's text to the front of out, and tells its length (01 m6.13).
#[unsafe(no_mangle)]
pub extern "C" fn fernsponge_describe(
    total: u64,
    count: u64,
    examples: &[u64; PositionMismatch::MAX_REPORTED_POSITIONS],
    out: &mut [u8],
    written: &mut u64,
) -> u64
    ensures value { result ≡ returned (describe_answer (report_at total count examples.now) (length out.old)) }
    ensures out_after { out.new ≡ described_in
        (describe_answer (report_at total count examples.now) (length out.old))
        (report_at total count examples.now) out.old }
    ensures written_after { written.new ≡ left itself (describe_answer (report_at total count examples.now) (length out.old)) written.old }
{
    let shown = *examples;
    let report = PositionMismatch {
        total: RowCount(total),
        count: count as usize,
        examples: shown,
    };
    match position_describe::describe(report, out) {
        Ok(n) => {
            *written = n as u64;
            0
        }
        Err(refusal) => refusal_number(refusal),
    }
}
