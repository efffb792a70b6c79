// The items' offsets, rewritten by where the first pass has noted that each key goes.
ghost use Rattle.std.specs.Prelude.{◌≡◌, ◌+◌, ◌<◌, length};
ghost use Rattle.query_item.specs.Items.{flat_all};
ghost use Rattle.item_check.specs.Checks.{items_of};
ghost use Rattle.pool_collect.specs.Table.{placed_item, placed_items, Noted};

use item_words::{ITEM_SIZE, item_at, with_keys, write_item};
use query_item::{ItemWords, KeyAt};

// An item with the offsets that are noted for its keys.
fn placed_item(places: &[u32], at: usize, item: ItemWords) -> ItemWords
    requires { at + 1 < length places.now }
    ensures { result ≡ placed_item places.now at item }
{
    let old_start = item.start;
    let old_end = item.end;
    let start = KeyAt {
        offset: places[at],
        length: old_start.length,
    };
    let end = KeyAt {
        offset: places[at + 1],
        length: old_end.length,
    };
    with_keys(item, start, end)
}

// Each item in its place.
pub(crate) fn rewrite_list(places: &[u32], at: usize, words: &mut [u32])
    requires { Noted places.now at words.old }
    ensures { words.new ≡ flat_all (placed_items places.now at (items_of words.old)) }
{
    for i in 0..words.len() / ITEM_SIZE {
        let item = item_at(words, i);
        write_item(words, i, placed_item(places, at + 2 * i, item));
    }
}
