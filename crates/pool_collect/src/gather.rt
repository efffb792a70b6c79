// The first pass: the keys of a list, in order of use, start before end. Where each goes is noted in `places`, two numbers an item.
ghost use Rattle.std.specs.Prelude.{◌∷◌, [], ◌*◌, ◌/◌, length};
ghost use Rattle.query_item.specs.Items.{bytes_of, item_size};
ghost use Rattle.item_check.specs.Checks.{items_of};
ghost use Rattle.pool_collect.specs.Collected.{keys_of};
ghost use Rattle.pool_collect.specs.Table.{GathersAll, ReadyAll, BothInside, AllInside};

use crate::table::Keys;
use item_words::{ITEM_SIZE, item_at};
use query_item::ItemWords;

// The two keys of an item, noted from `at` on.
fn gather_item(pool: &[u8], keys: &mut Keys, places: &mut [u32], at: usize, item: ItemWords)
    requires { ReadyAll pool.now keys.old.order.now keys.old.table.now places.old keys.old.known keys.old.used at 2 × BothInside pool.now item }
    ensures { GathersAll pool.now keys.old.order.now places.old keys.old.known keys.old.used at
        (bytes_of pool.now item.start ∷ bytes_of pool.now item.end ∷ []) 2
        keys.new.order.now keys.new.table.now places.new keys.new.known keys.new.used }
{
    places[at] = keys.gather_key(pool, item.start);
    places[at + 1] = keys.gather_key(pool, item.end);
}

// The keys of a list, noted from `at` on.
pub(crate) fn gather_list(
    pool: &[u8],
    words: &[u32],
    keys: &mut Keys,
    places: &mut [u32],
    at: usize,
)
    requires { ReadyAll pool.now keys.old.order.now keys.old.table.now places.old keys.old.known keys.old.used at (2 * (length words.now / item_size))
        × AllInside pool.now words.now }
    ensures { GathersAll pool.now keys.old.order.now places.old keys.old.known keys.old.used at
        (keys_of pool.now (items_of words.now)) (2 * (length words.now / item_size))
        keys.new.order.now keys.new.table.now places.new keys.new.known keys.new.used }
{
    for i in 0..words.len() / ITEM_SIZE {
        gather_item(pool, keys, places, at + 2 * i, item_at(words, i));
    }
}
