// The tail of a stored list, from the first changed pair on: how it is rewritten (02 §4.8).
ghost use Rattle.std.specs.Prelude.{◌≡◌, ◌∷◌, ◌++◌, ◌+◌, ◌-◌, ◌*◌, ◌/◌, ◌≤◌, length};
ghost use Rattle.std.proofs.lemmas.List.Edits.{sets};
ghost use Rattle.intervals.specs.Intervals.{piece};
ghost use Rattle.pairs_sort.specs.Pairs.{pairs_from, pairs, flat_pairs};
ghost use Rattle.position_stored.specs.Stored.{laid};

use pairs_sort::clear;

// Puts one pair in the place of those from an index up to another, moves the later ones up or down to it, and sets freed words to 0. Where it is
// put in the place of one, none moves.
pub(crate) fn place(words: &mut [u64], count: usize, at: usize, from: usize, s: u64, e: u64)
    requires { (at ≤ from) × (from ≤ count) × (count ≤ length words.old / 2) × (at + 1 + (count - from) ≤ length words.old / 2) }
    ensures { words.new ≡ laid words.old count (pairs words.old at ++ (s, e) ∷ pairs_from words.old from (count - from)) }
{
    if from != at + 1 {
        words.copy_within(2 * from..2 * count, 2 * (at + 1));
    }
    words[2 * at] = s;
    words[2 * at + 1] = e;
    clear(words, 2 * (at + 1 + (count - from)), 2 * count);
}

// The same with a pair that may be none: then the first of the later ones is put.
pub(crate) fn place_piece(words: &mut [u64], count: usize, at: usize, from: usize, s: u64, e: u64)
    requires { (at ≤ from) × (from ≤ count) × (count ≤ length words.old / 2) × (length (piece s e) + at + (count - from) ≤ length words.old / 2) }
    ensures { words.new ≡ laid words.old count (pairs words.old at ++ (piece s e ++ pairs_from words.old from (count - from))) }
{
    if s < e {
        place(words, count, at, from, s, e);
        return;
    }
    if from == count {
        clear(words, 2 * at, 2 * count);
        return;
    }
    let t = words[2 * from];
    let f = words[2 * from + 1];
    place(words, count, at, from + 1, t, f);
}
