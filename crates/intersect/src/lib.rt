// Module 3 of document 01: what two items share and what is left over of each. `intersect_many` has the three lists of two lists of items.
// Definitions: specs/Pair.antt. Laws: proofs/Laws.antt (which keys the pair holds), proofs/Ranked.antt (the pair in ranks).
//
// A function marked "inner" is public only because other crates need it. Its definition covers every input.
#![tactic(auto)]

pub mod pair;

use query_item::QueryItem;

// What two items share, and what is left over of each to the left and to the right.
#[derive(Clone, Copy, PartialEq, Eq)]
pub struct QueryItemIntersectionResult {
    pub in_both: Option<QueryItem>,
    pub ours_left: Option<QueryItem>,
    pub ours_right: Option<QueryItem>,
    pub theirs_left: Option<QueryItem>,
    pub theirs_right: Option<QueryItem>,
}
