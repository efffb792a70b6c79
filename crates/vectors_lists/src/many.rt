// The call on two lists. Inputs: a pool, the words lent for each of the three lists (2 bytes each), and our list and theirs, each after the
// number of its items (2 bytes).
use intersect_many::intersect_many_ordered;
use item_words::ITEM_SIZE;
use vectors::lent::{front, is_kept, room};
use vectors::{Reader, Recorded};

// The answer is the three lists, each after its number of items. Words past their items are kept.
pub(crate) fn intersect_many(mut x: Reader<'_>, recorded: Recorded<'_>) -> bool {
    let mut ours = room();
    let pool = x.block();
    let lent = Lent::read(&mut x);
    let count = x.items(&mut ours);
    with_ours(pool, lent, front(&ours, count * ITEM_SIZE), x, recorded)
}

// The answer is our list as it is after the call.
pub(crate) fn ours_after(mut x: Reader<'_>, recorded: Recorded<'_>) -> bool {
    let mut ours = room();
    let pool = x.block();
    let lent = Lent::read(&mut x);
    let count = x.items(&mut ours);
    with_ours(pool, lent, front(&ours, count * ITEM_SIZE), x, recorded);
    recorded.answers(|held| held.items(pool, &ours, count))
}

// How many words are lent for each list.
#[derive(Clone, Copy)]
struct Lent {
    shared: usize,
    ours: usize,
    theirs: usize,
}

impl Lent {
    fn read(x: &mut Reader<'_>) -> Lent {
        let shared = x.short() as usize;
        let ours = x.short() as usize;
        let theirs = x.short() as usize;
        Lent {
            shared,
            ours,
            theirs,
        }
    }
}

fn with_ours<'a>(
    pool: &'a [u8],
    lent: Lent,
    ours: &[u32],
    mut x: Reader<'_>,
    recorded: Recorded<'a>,
) -> bool {
    let mut shared_out = room();
    let mut ours_out = room();
    let mut theirs_out = room();
    let mut theirs = room();
    let count = x.items(&mut theirs);
    let p = lent.shared.min(shared_out.len());
    let q = lent.ours.min(ours_out.len());
    let r = lent.theirs.min(theirs_out.len());
    let answer = intersect_many_ordered(
        pool,
        ours,
        front(&theirs, count * ITEM_SIZE),
        &mut shared_out[..p],
        &mut ours_out[..q],
        &mut theirs_out[..r],
    );
    match answer {
        Ok(n) => {
            let is_answer = recorded.answers(|held| {
                held.items(pool, &shared_out, n.shared)
                    .items(pool, &ours_out, n.ours)
                    .items(pool, &theirs_out, n.theirs)
            });
            is_answer
                & is_kept(&shared_out, n.shared)
                & is_kept(&ours_out, n.ours)
                & is_kept(&theirs_out, n.theirs)
        }
        Err(refusal) => {
            recorded.refuses(refusal)
                & is_kept(&shared_out, 0)
                & is_kept(&ours_out, 0)
                & is_kept(&theirs_out, 0)
        }
    }
}
