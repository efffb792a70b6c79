// The call of an insertion. Inputs: a pool, the words lent besides the list (2 bytes), the new item, and the list, after the number of its
// items (2 bytes).
use item_words::ITEM_SIZE;
use vectors::lent::{is_freed, is_kept, room};
use vectors::{Reader, Recorded};

// The answer is the list, after its number of items. Freed words up to the old count are 0, and later ones are kept; a refusal keeps all.
pub(crate) fn insert_item(mut x: Reader<'_>, recorded: Recorded<'_>) -> bool {
    let mut words = room();
    let pool = x.block();
    let besides = x.short() as usize;
    let item = x.item();
    let count = x.items(&mut words);
    let given = words;
    let lent = words.len().min(count * ITEM_SIZE + besides);
    match insert::insert_item(pool, &mut words[..lent], count, item) {
        Ok(n) => recorded.answers(|held| held.items(pool, &words, n)) & is_left(&words, n, count),
        Err(refusal) => recorded.refuses(refusal) & (words == given),
    }
}

fn is_left(words: &[u32], after: usize, before: usize) -> bool {
    if after < before {
        return is_freed(words, after, before) & is_kept(words, before);
    }
    is_kept(words, after)
}
