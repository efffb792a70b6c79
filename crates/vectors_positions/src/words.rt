// Numbers of 8 bytes: answered and lent.
ghost use Rattle.std.specs.Prelude.{◌≡◌, length};

use vectors::Held;

const MARK: u64 = 18302628885633695744;

// Marked room for the most numbers of a call.
pub(crate) fn room() -> [u64; 4096]
    ensures { 4096 ≡ length result }
{
    [MARK; 4096]
}

// The numbers.
pub(crate) fn holds_all<'a>(held: Held<'a>, words: &[u64]) -> Held<'a> {
    let mut so_far = held;
    for word in words {
        so_far = so_far.long(*word);
    }
    so_far
}

// Whether the numbers from one on are 0 up to another, and marked from there on.
pub(crate) fn is_left(words: &[u64], from: usize, to: usize) -> bool {
    words
        .iter()
        .enumerate()
        .skip(from)
        .all(|(i, word)| *word == if i < to { 0 } else { MARK })
}
