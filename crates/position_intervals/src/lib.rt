// Module 6 of document 01: log positions as half-open intervals, which are lent as words: what they are asked. `position_given` checks
// and counts them, `position_query` makes them of query items, `position_stored` changes them, `position_mismatch` compares them with the positions
// that a proof carries, and `position_joined` has the laws of these calls one after the other. Intervals are accepted where they are canonical:
// of any positions there is at most one such list, and no list of half-open pairs that covers them has fewer (02 §14.1, §14.2).
// Definitions: specs/Asked.antt. Laws on halves: proofs/Halves.antt.
#![tactic(auto)]

pub mod ask;
