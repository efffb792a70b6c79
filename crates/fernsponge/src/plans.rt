// Section 9 of document 02. A plan's windows are pairs of words, as intervals are.
ghost use Rattle.std.specs.Prelude.{◌≡◌};
ghost use Rattle.position_plan.specs.Plans.{check_answer};
ghost use Rattle.fernsponge.specs.Answers.{bool_number, returned, left};
ghost use Rattle.fernsponge.specs.Plans.{GivesPlan};

use crate::numbers::refusal_number;
use crate::positions::give_yes;
use position_given::RowCount;

// Writes the windows for the missing rows, of at most `most` rows each, as the first pairs of out, and tells how many they are (02 §9.7, §9.9).
#[unsafe(no_mangle)]
pub extern "C" fn fernsponge_plan_refetch(
    intervals: &[u64],
    proved: &[u64],
    most: u64,
    out: &mut [u64],
    windows: &mut u64,
) -> u64
    ensures { GivesPlan intervals.now proved.now most out.old windows.old result out.new windows.new }
{
    match position_plan::windows::plan_refetch(intervals, proved, RowCount(most), out) {
        Ok(n) => {
            *windows = n as u64;
            0
        }
        Err(refusal) => refusal_number(refusal),
    }
}

// Whether a plan for the missing rows is accepted: 1 for yes and 0 for no (02 §9.2, §9.9).
#[unsafe(no_mangle)]
pub extern "C" fn fernsponge_check_plan(
    intervals: &[u64],
    proved: &[u64],
    most: u64,
    plan: &[u64],
    yes: &mut u32,
) -> u64
    ensures value { result ≡ returned (check_answer intervals.now proved.now most plan.now) }
    ensures yes_after { yes.new ≡ left bool_number (check_answer intervals.now proved.now most plan.now) yes.old }
{
    give_yes(
        position_plan::judge::check_plan(intervals, proved, RowCount(most), plan),
        yes,
    )
}
