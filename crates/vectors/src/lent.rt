// Words lent for writing, which are marked, so that those which a call keeps show.
ghost use Rattle.std.specs.Prelude.{◌≡◌, ◌≤◌, length};

use item_words::ITEM_SIZE;

const MARK: u32 = 4278190080;

// Room for the items that two lists of 2,048 can share. The `ensures` gives its length, which lending it as a slice needs.
pub fn room() -> [u32; 24576]
    ensures { 24576 ≡ length result }
{
    [MARK; 24576]
}

// Whether all words after so many items are marked.
pub fn is_kept(words: &[u32], items: usize) -> bool {
    words
        .iter()
        .skip(words_of(words, items))
        .all(|word| *word == MARK)
}

// Whether the words of the items from one number to another are 0.
pub fn is_freed(words: &[u32], from: usize, to: usize) -> bool {
    let end = words_of(words, to);
    words[..end]
        .iter()
        .skip(words_of(words, from))
        .all(|word| *word == 0)
}

// How many words so many items have, or those that there are.
fn words_of(words: &[u32], items: usize) -> usize
    ensures { result ≤ length words.now }
{
    items.min(words.len() / ITEM_SIZE) * ITEM_SIZE
}

// So many words or numbers of a list, or those that there are.
pub fn front<T>(list: &[T], count: usize) -> &[T] {
    &list[..count.min(list.len())]
}
