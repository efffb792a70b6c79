// Module 6 of document 01: reports of positions that are off: their total and the smallest of them, and how they grow. What that costs does
// not grow with a run's width.
// Definitions: specs/Reports.antt (reports), specs/Inner.antt (what inner and private functions promise). Laws: proofs/Runs.antt; among them
// that a report which grows by a run is that of the longer list (`run_report`).
//
// A function marked "inner" is public only because other crates need it. It checks nothing: its definition covers every input.
#![tactic(auto)]

ghost use Rattle.std.specs.Prelude.{◌≡◌, [], ◌+◌, ◌-◌, ◌≤◌, min};
ghost use Rattle.std.proofs.lemmas.List.Edits.{sets};
ghost use Rattle.position_given.specs.Positions.{count_up};
ghost use Rattle.position_given.specs.Inner.{last_word};
ghost use Rattle.position_report.specs.Reports.{most_reported, report_of};
ghost use Rattle.position_report.specs.Inner.{with_run};

use position_given::RowCount;

// How many positions are off, and the smallest of them: the first count places of examples. Unused places are 0.
#[derive(Clone, Copy)]
pub struct PositionMismatch {
    pub total: RowCount,
    pub count: usize,
    pub examples: [u64; PositionMismatch::MAX_REPORTED_POSITIONS],
}

impl PositionMismatch {
    // How many positions a report names at most: the first places, and the length of its array.
    pub const MAX_REPORTED_POSITIONS: usize = 16;

    // The report that nothing is off (01 form.4).
    pub fn empty() -> Self
        ensures { result ≡ report_of [] }
    {
        Self {
            total: RowCount(0),
            count: 0,
            examples: [0; PositionMismatch::MAX_REPORTED_POSITIONS],
        }
    }

    // inner: adds the positions from `from` on, below `to`.
    pub fn push_run(&mut self, from: u64, to: u64)
        ensures { self.new ≡ with_run self.old from (to - from) }
    {
        let total = self.total.0;
        if from < to {
            let shown = show_run(&mut self.examples, self.count, from, to - from);
            self.total = RowCount(total.saturating_add(to - from));
            self.count += shown as usize;
        }
    }

    // inner: adds one position, which may be the last u64.
    pub fn push_one(&mut self, p: u64)
        ensures { self.new ≡ with_run self.old p 1 }
    {
        let shown = show_run(&mut self.examples, self.count, p, 1);
        self.total = RowCount(self.total.0.saturating_add(1));
        self.count += shown as usize;
    }
}

// Stores the first positions of a run after n examples, as many as there are places: how many these are.
fn show_run(
    examples: &mut [u64; PositionMismatch::MAX_REPORTED_POSITIONS],
    n: usize,
    from: u64,
    width: u64,
) -> u64
    requires { from + width ≤ last_word + 1 }
    ensures value { result ≡ min (most_reported - n) width }
    ensures examples_after { examples.new ≡ sets examples.old n (count_up from (min (most_reported - n) width)) }
{
    // in a long report most runs come when there is no place left
    if n >= PositionMismatch::MAX_REPORTED_POSITIONS {
        return 0;
    }
    let shown = width.min((PositionMismatch::MAX_REPORTED_POSITIONS - n) as u64);
    for k in 0..shown {
        examples[n + k as usize] = from + k;
    }
    shown
}
