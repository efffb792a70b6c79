// Module 4. The three counts have a place of their own, which is always large enough.
ghost use Rattle.fernsponge.specs.Intersect.{GivesMany};

use crate::numbers::refusal_number;
use intersect_many::intersect_many_ordered;

// What two lists share, what ours keeps without theirs, and what theirs keeps without ours, as items at the front of shared_out, ours_out
// and theirs_out, and how many items each of these has, as three numbers (01 m4.1, m4.2, m4.3).
#[unsafe(no_mangle)]
pub extern "C" fn fernsponge_intersect_many(
    pool: &[u8],
    ours: &[u32],
    theirs: &[u32],
    shared_out: &mut [u32],
    ours_out: &mut [u32],
    theirs_out: &mut [u32],
    counts: &mut [u64; 3],
) -> u64
    ensures { GivesMany pool.now ours.now theirs.now
        shared_out.old ours_out.old theirs_out.old counts.old
        result shared_out.new ours_out.new theirs_out.new counts.new }
{
    match intersect_many_ordered(pool, ours, theirs, shared_out, ours_out, theirs_out) {
        Ok(n) => {
            *counts = [n.shared as u64, n.ours as u64, n.theirs as u64];
            0
        }
        Err(refusal) => refusal_number(refusal),
    }
}
