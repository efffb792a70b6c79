// The call on two items.
use intersect::pair;
use vectors::{Reader, Recorded};

// Inputs: a pool, our item and theirs. The answer is the shared item, ours left and right, theirs left and right, or none of each.
pub(crate) fn intersect_items(mut x: Reader<'_>, recorded: Recorded<'_>) -> bool {
    let pool = x.block();
    let ours = x.item();
    let theirs = x.item();
    match pair::intersect_items(pool, ours, theirs) {
        Ok(parts) => recorded.answers(|held| {
            held.maybe(pool, parts.in_both)
                .maybe(pool, parts.ours_left)
                .maybe(pool, parts.ours_right)
                .maybe(pool, parts.theirs_left)
                .maybe(pool, parts.theirs_right)
        }),
        Err(refusal) => recorded.refuses(refusal),
    }
}
