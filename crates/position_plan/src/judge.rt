// The check of a plan, whoever made it.
ghost use Rattle.std.specs.Prelude.{◌≡◌, ◌&&◌, ltb, eqb};
ghost use Rattle.position_given.specs.Given.{intervals_of};
ghost use Rattle.position_mismatch.specs.Reports.{missing};
ghost use Rattle.position_plan.specs.Plans as plans;
ghost use Rattle.position_plan.specs.Plans.{check_answer};

use crate::log::Log;
use crate::runs::Run;
use item_check::Refusal;
use position_given::{RowCount, check_even, check_intervals};

// Whether a plan for the missing rows is accepted: its windows as pairs (02 §9.2, §9.9).
pub fn check_plan(
    intervals: &[u64],
    proved: &[u64],
    most: RowCount,
    windows: &[u64],
) -> Result<bool, Refusal>
    ensures { result ≡ check_answer intervals.now proved.now most.0 windows.now }
{
    check_intervals(intervals)?;
    check_even(windows, 1)?;
    let log = Log::ask(intervals, proved, most)?;
    Ok(log.accepts(windows))
}

impl Log<'_> {
    // Each window starts at the first missing row that the windows before it do not contain, and its last row is missing; no missing row is left.
    fn accepts(self, windows: &[u64]) -> bool
        ensures { result ≡ plans.accepts self.entry.most (missing (intervals_of self.entry.intervals.now) self.entry.proved.now) (intervals_of windows.now) }
    {
        let mut first = self.next_missing(Run::START, 0);
        for i in 0..windows.len() / 2 {
            let s = windows[2 * i];
            let e = windows[2 * i + 1];
            if e <= s {
                return false;
            }
            if self.most < e - s {
                return false;
            }
            if !starts_at(first, s) {
                return false;
            }
            let last = self.next_missing(first, e - 1);
            if !starts_at(last, e - 1) {
                return false;
            }
            first = self.next_missing(last, e);
        }
        first.end <= first.start
    }
}

// Whether a run of missing rows starts at a row.
fn starts_at(run: Run, row: u64) -> bool
    ensures { result ≡ eqb run.start row && ltb run.start run.end }
{
    (run.start == row) & (run.start < run.end)
}
