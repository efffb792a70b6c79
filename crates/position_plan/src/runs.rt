// The search for missing rows: a run at a time, whatever its width.
ghost use Rattle.std.specs.Prelude.{◌≡◌, cond, ◌≤◌, min, length, get_or, ltb};
ghost use Rattle.position_plan.specs.Inner.{Behind, NextRun, Ahead, LastRow, FirstFrom, GoesOn, LastBelow, GoesBack};

use crate::log::Log;

// Missing rows, from start on, below end; where end is not above start, no row from start on is missing. The pairs before `pair`, and the
// proved positions before `seen`, are below start.
#[derive(Clone, Copy)]
pub(crate) struct Run {
    pub(crate) start: u64,
    pub(crate) end: u64,
    pub(crate) pair: usize,
    pub(crate) seen: usize,
}

impl Run {
    // Where a search starts: nothing is passed.
    pub(crate) const START: Self = Self {
        start: 0,
        end: 0,
        pair: 0,
        seen: 0,
    };
}

impl Log<'_> {
    // The first run of missing rows from row `from` on, which is at or above what a run has passed. A turn finds it or passes a pair: the places only move on.
    pub(crate) fn next_missing(self, run: Run, from: u64) -> Run
        requires { Behind self.intervals.now self.proved.now run.pair run.seen from }
        ensures { NextRun self.entry.intervals.now self.entry.proved.now from result }
    {
        let count = self.intervals.len() / 2;
        let mut j = run.seen;
        let mut x = from;
        for i in run.pair..count {
            let s = self.intervals[2 * i].max(x);
            let e = self.intervals[2 * i + 1];
            let at = first_from(self.proved, j, s);
            j = goes_on(self.proved, at, s, e);
            x = s + (j - at) as u64;
            if x < e {
                return Run {
                    start: x,
                    end: stop_at(self.proved, j, e),
                    pair: i,
                    seen: j,
                };
            }
        }
        Run {
            start: x,
            end: x,
            pair: count,
            seen: first_from(self.proved, j, x),
        }
    }

    // The end of the last missing row below row x, or 0 where there is none; pairs past a run's, and proved positions from those that it has seen
    // on, are not below x. A turn finds it or passes a pair: the places only move back.
    pub(crate) fn last_missing(self, run: Run, x: u64) -> u64
        requires { Ahead self.intervals.now self.proved.now run.pair run.seen x }
        ensures { LastRow self.entry.intervals.now self.entry.proved.now x result }
    {
        let past = run.pair.saturating_add(1).min(self.intervals.len() / 2);
        let mut j = run.seen.min(self.proved.len());
        let mut t = x;
        for i in (0..past).rev() {
            let s = self.intervals[2 * i];
            let e = self.intervals[2 * i + 1].min(t);
            let at = last_below(self.proved, j, e);
            j = goes_back(self.proved, at, s, e);
            t = e - (at - j) as u64;
            if s < t {
                return t;
            }
        }
        0
    }
}

// How many proved positions, of those before an index, are up to the last one below a row.
fn last_below(proved: &[u64], to: usize, x: u64) -> usize
    requires { to ≤ length proved.now }
    ensures { LastBelow proved.now to x result }
{
    for i in (0..to).rev() {
        if proved[i] < x {
            return i + 1;
        }
    }
    0
}

// The index from which on the proved positions, up to an index, are the rows just before e, none of them before s.
fn goes_back(proved: &[u64], to: usize, s: u64, e: u64) -> usize
    requires { to ≤ length proved.now }
    ensures { GoesBack proved.now to s e result }
{
    let mut x = e;
    for i in (0..to).rev() {
        if x <= s || proved[i] != x - 1 {
            return i + 1;
        }
        x -= 1;
    }
    0
}

// The first proved position, from an index on, at or above a row.
fn first_from(proved: &[u64], from: usize, x: u64) -> usize
    ensures { FirstFrom proved.now from x result }
{
    if proved.len() <= from {
        return from;
    }
    // no `find`, as in `first_past` of position_mismatch
    for i in from..proved.len() {
        if x <= proved[i] {
            return i;
        }
    }
    proved.len()
}

// The first index, from an index on, at which the proved positions do not go on with row s, the row after it, and so on below e.
fn goes_on(proved: &[u64], from: usize, s: u64, e: u64) -> usize
    ensures { GoesOn proved.now from s e result }
{
    if proved.len() <= from {
        return from;
    }
    let mut x = s;
    for i in from..proved.len() {
        if !((x < e) & (proved[i] == x)) {
            return i;
        }
        x += 1;
    }
    proved.len()
}

// Where a run that would end at e stops: at proved position j where that is below.
fn stop_at(proved: &[u64], j: usize, e: u64) -> u64
    ensures { result ≡ cond (ltb j (length proved.now)) (min e (get_or proved.now j 0)) e }
{
    proved.get(j).map_or(e, |p| e.min(*p))
}
