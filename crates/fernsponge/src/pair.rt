// Module 3.
ghost use Rattle.query_item.specs.Items.{item_at};
ghost use Rattle.intersect.specs.Pair.{pair_answer};
ghost use Rattle.fernsponge.specs.Intersect.{GivesPair};

use crate::numbers::{MAYBE_SIZE, maybe_numbers, refusal_number};
use intersect::pair::intersect_items;
use item_words::{ITEM_SIZE, item_at};

// What two items share, what is left over of ours on the left and on the right, and so of theirs: five items, each of which may be missing (01 m3.6).
#[unsafe(no_mangle)]
pub extern "C" fn fernsponge_intersect_items(
    pool: &[u8],
    ours: &[u32; ITEM_SIZE],
    theirs: &[u32; ITEM_SIZE],
    in_both: &mut [u32; MAYBE_SIZE],
    ours_left: &mut [u32; MAYBE_SIZE],
    ours_right: &mut [u32; MAYBE_SIZE],
    theirs_left: &mut [u32; MAYBE_SIZE],
    theirs_right: &mut [u32; MAYBE_SIZE],
) -> u64
    ensures { GivesPair (pair_answer pool.now (item_at ours.now 0) (item_at theirs.now 0))
        in_both.old ours_left.old ours_right.old theirs_left.old theirs_right.old
        result in_both.new ours_left.new ours_right.new theirs_left.new theirs_right.new }
{
    match intersect_items(pool, item_at(ours, 0), item_at(theirs, 0)) {
        Ok(parts) => {
            let shared = parts.in_both;
            let a = parts.ours_left;
            let b = parts.ours_right;
            let c = parts.theirs_left;
            let d = parts.theirs_right;
            *in_both = maybe_numbers(shared);
            *ours_left = maybe_numbers(a);
            *ours_right = maybe_numbers(b);
            *theirs_left = maybe_numbers(c);
            *theirs_right = maybe_numbers(d);
            0
        }
        Err(refusal) => refusal_number(refusal),
    }
}
