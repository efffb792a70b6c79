// Lists of items in lent words: the room that they need, and items written one after another.
// Definitions: specs/Written.antt, and specs/Lists.antt, by which other crates speak of lists. Laws: proofs/Accepted.antt, proofs/Written.antt,
// proofs/Read.antt, by which a written list is read back, and proofs/Words.antt, of an item written among others.
//
// Every function is inner: it is public only because other crates need it, checks nothing, and its definition covers every input.
#![tactic(auto)]

ghost use Rattle.std.specs.Prelude.{◌≡◌, length};
ghost use Rattle.item_lists.specs.Written.{as_items, passes, put_all};

use item_words::{ITEM_SIZE, words_of, write_item};
use query_item::QueryItem;

// inner: whether items, so many of them, need more room than a list has.
pub fn passes_room(count: usize, out: &[u32]) -> bool
    ensures { result ≡ passes count out.now }
{
    out.len() / ITEM_SIZE < count
}

// inner: writes an item, if there is one, at an index, and says how many that is. Where it has no room nothing is written.
pub fn put_item(out: &mut [u32], i: usize, item: Option<QueryItem>) -> usize
    ensures { (result ≡ length (as_items item)) × (out.new ≡ put_all out.old i (as_items item)) }
{
    match item {
        None => 0,
        Some(q) => {
            write_item(out, i, words_of(0, q));
            1
        }
    }
}
