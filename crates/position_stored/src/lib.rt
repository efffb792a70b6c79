// Section 4 of document 02: the row total beside the interval list. A stored list is a buffer lent for rewriting, how many pairs of it the list
// has, and how many rows those cover: reading the total, covering one more range, uncovering one. `from_query_items` of `position_query` builds
// one, with its total.
// Definitions: specs/Stored.antt (the checks, answers and words), over `cover` and `uncover` of `intervals` (the list after a change).
// specs/Inner.antt has what private functions promise. Laws: proofs/Laws.antt, and of any sequence of changes proofs/Sequences.antt; among them that
// the total is what counting afresh gives, and that no list of half-open pairs that covers the same rows has fewer than are kept (02 §14.1, §14.3).
//
// The check counts the rows afresh. A change finds its place by halving, works out the new numbers from the pairs that it touches, and only then
// writes: the tail behind these is moved once, where it moves at all, and freed words are set to 0.
#![tactic(auto)]

pub mod change;
mod tail;
pub mod total;
