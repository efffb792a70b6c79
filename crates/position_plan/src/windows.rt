// Our planner: it writes its windows only where they fit.
ghost use Rattle.std.specs.Prelude.{◌≡◌, true, ◌+◌, ◌/◌, ◌≤◌, ◌<◌, length, leb};
ghost use Rattle.position_given.specs.Given.{intervals_of};
ghost use Rattle.position_given.specs.Positions.{positions_of};
ghost use Rattle.position_plan.specs.Plans.{plan_of, PlanRefetch};
ghost use Rattle.position_plan.specs.Inner.{Opens, NextWindow, cut_at, WriteWindows};

use crate::log::Log;
use crate::runs::Run;
use item_check::{Reason, Refusal, refuse};
use position_given::RowCount;
use position_intervals::ask::len;

// The end of a window, and the run of missing rows that is left after it.
#[derive(Clone, Copy)]
pub(crate) struct Window {
    pub(crate) end: u64,
    pub(crate) next: Run,
}

// Writes the windows for the missing rows, of at most `most` rows each, as pairs (02 §9.1, §9.7, §9.9).
pub fn plan_refetch(
    intervals: &[u64],
    proved: &[u64],
    most: RowCount,
    out: &mut [u64],
) -> Result<usize, Refusal>
    ensures { PlanRefetch intervals.now proved.now most.0 out.old result out.new }
{
    let covered = len(intervals)?;
    let log = Log::ask(intervals, proved, most)?;
    if log.has_room(covered.0, out.len() / 2) {
        return Ok(log.write_windows(out));
    }
    refuse(Reason::NoRoom, 0, 0)
}

impl Log<'_> {
    // Whether there are no more windows than there is room for. They are counted only where more could be.
    fn has_room(self, covered: u64, room: usize) -> bool
        requires { covered ≡ length (positions_of (intervals_of self.intervals.now)) }
        ensures { result ≡ leb (length (plan_of self.entry.most self.entry.intervals.now self.entry.proved.now)) room }
    {
        always_fit(covered, self.most, self.intervals.len() / 2, room) || self.windows_fit(room)
    }

    // Counts the windows by where they open: each at the first missing row past the reach of the one before it, which is the last u64 at the
    // most, since no row from there on is covered. It stops as soon as the room is passed.
    fn windows_fit(self, room: usize) -> bool
        ensures { result ≡ leb (length (plan_of self.entry.most self.entry.intervals.now self.entry.proved.now)) room }
    {
        let mut run = self.next_missing(Run::START, 0);
        let mut n: usize = 0;
        // where a window opens shows only as the one before it is passed, here and in `write_windows`, so that no `for` has them
        while run.start < run.end {
            if n == room {
                return false;
            }
            n += 1;
            let limit = run.start.saturating_add(self.most);
            run = self.next_missing(run, limit);
        }
        true
    }

    // Writes the windows, for which there is room: how many.
    fn write_windows(self, out: &mut [u64]) -> usize
        requires { length (plan_of self.most self.intervals.now self.proved.now) ≤ length out.old / 2 }
        ensures { WriteWindows self.entry.intervals.now self.entry.proved.now self.entry.most out.old result out.new }
    {
        let mut run = self.next_missing(Run::START, 0);
        let mut n: usize = 0;
        while run.start < run.end {
            let w = self.next_window(run);
            out[2 * n] = run.start;
            out[2 * n + 1] = w.end;
            run = w.next;
            n += 1;
        }
        n
    }

    // The window that opens at a run of missing rows: it closes at the last missing row within `most`. Where a second run is within its reach,
    // the search goes on at its limit, so that what lies between is passed over, and goes back from there.
    fn next_window(self, first: Run) -> Window
        requires { Opens self.intervals.now self.proved.now first }
        ensures { NextWindow self.entry.intervals.now self.entry.proved.now self.entry.most first result }
    {
        let limit = first.start.saturating_add(self.most);
        if limit < first.end {
            return cut(first, limit);
        }
        let second = self.next_missing(first, first.end);
        if limit <= second.start {
            return Window {
                end: first.end,
                next: second,
            };
        }
        let next = self.next_missing(second, limit);
        let end = self.last_missing(next, limit);
        Window { end, next }
    }
}

// Windows open at least `most` rows apart, so that each interval has one for each `most` rows of it, and one more, at the most.
fn always_fit(covered: u64, most: u64, pairs: usize, room: usize) -> bool
    requires { 0 < most }
    ensures { result ≡ true → covered / most + pairs ≤ room }
{
    pairs <= room && covered / most <= (room - pairs) as u64
}

// The window that ends within a run, whose other rows are left.
fn cut(run: Run, limit: u64) -> Window
    ensures { result ≡ cut_at run limit }
{
    let next = Run {
        start: limit,
        ..run
    };
    Window { end: limit, next }
}
