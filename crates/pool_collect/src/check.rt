// What is refused before anything is looked for: both pools, then ours entirely before theirs; items need be neither upright nor in order.
ghost use Rattle.std.specs.Prelude.{◌≡◌};
ghost use Rattle.pool_collect.specs.Collected.{named_verdict, collect_verdict};

use item_check::{Refusal, check_formed, check_pool, check_shape};
use item_words::{ITEM_SIZE, item_at};

pub(crate) fn check_collect(
    pool: &[u8],
    fresh: &[u8],
    ours: &[u32],
    theirs: &[u32],
) -> Result<(), Refusal>
    ensures { result ≡ collect_verdict pool.now fresh.now ours.now theirs.now }
{
    check_pool(pool)?;
    check_pool(fresh)?;
    check_named(pool, ours, 0)?;
    check_named(pool, theirs, 1)
}

fn check_named(pool: &[u8], words: &[u32], side: u32) -> Result<(), Refusal>
    ensures { result ≡ named_verdict pool.now words.now side }
{
    check_shape(words, side)?;
    for i in 0..words.len() / ITEM_SIZE {
        check_formed(pool, item_at(words, i), side, i)?;
    }
    Ok(())
}
