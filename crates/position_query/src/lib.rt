// Module 6 of document 01: from query items to log positions: the positions that items cover, written as half-open intervals, and their
// number. Nothing here grows with the count of rows.
// Definitions: specs/Covered.antt (coverage, the checks of position items, the promise), specs/Ranges.antt (the pairs, computed),
// specs/Inner.antt (what private functions promise). Laws: proofs/Laws.antt; among them that there is one answer, that it is the computed
// one, and that fewer pairs would not do: no list of half-open pairs that covers the same positions has fewer than are answered (02 §14.1).
#![tactic(auto)]

pub mod query;
