// What both calls go over, once it is asked.
ghost use Rattle.std.specs.Prelude.{MatchResult, Err, ◌≡◌, ℕ, ◌≤◌, slice_index};
ghost use Rattle.item_check.specs.Checks.{accepted};
ghost use Rattle.position_given.specs.Given.{intervals_verdict};
ghost use Rattle.position_given.specs.Inner.{last_word};
ghost use Rattle.position_plan.specs.Plans.{asked_verdict, plan_verdict};

use item_check::{Reason, Refusal, refuse};
use position_given::{RowCount, check_ascending};

// Accepted intervals and proved positions, and how many rows a window may have.
#[derive(Clone, Copy)]
pub(crate) struct Log<'a> {
    pub(crate) intervals: &'a [u64],
    pub(crate) proved: &'a [u64],
    pub(crate) most: u64,
    ghost accepted: { plan_verdict intervals.now proved.now most ≡ accepted },
    ghost words: { (k : ℕ) → slice_index intervals.now k ≤ last_word },
}

impl<'a> Log<'a> {
    // What both calls ask once the intervals are accepted: 8, then 16.
    pub(crate) fn ask(
        intervals: &'a [u64],
        proved: &'a [u64],
        most: RowCount,
    ) -> Result<Log<'a>, Refusal>
        requires { intervals_verdict intervals.now ≡ accepted }
        ensures { MatchResult result
            (λ l. (l.intervals.now ≡ intervals.now) × (l.proved.now ≡ proved.now) × (l.most ≡ most.0))
            (λ r. asked_verdict proved.now most.0 ≡ Err r) }
    {
        check_ascending(proved)?;
        let most = most.0;
        if most == 0 {
            return refuse(Reason::EmptyWindows, 0, 0);
        }
        Ok(Log {
            intervals,
            proved,
            most,
        })
    }
}
