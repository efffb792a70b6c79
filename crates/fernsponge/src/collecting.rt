// Section 6 of document 02.
ghost use Rattle.fernsponge.specs.Collecting.{GivesCollected};

use crate::numbers::refusal_number;

// Packs the keys that two lists name to the front of a fresh pool, rewrites the lists' offsets, and tells how many bytes are used (02 §6.5, §6.8).
#[unsafe(no_mangle)]
pub extern "C" fn fernsponge_collect(
    pool: &[u8],
    fresh: &mut [u8],
    ours: &mut [u32],
    theirs: &mut [u32],
    used: &mut u64,
) -> u64
    ensures { GivesCollected pool.now fresh.old ours.old theirs.old used.old
        result fresh.new ours.new theirs.new used.new }
{
    match pool_collect::collect(pool, fresh, ours, theirs) {
        Ok(n) => {
            *used = n as u64;
            0
        }
        Err(refusal) => refusal_number(refusal),
    }
}
