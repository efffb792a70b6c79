// Boundaries of module 2 of document 01, as a kind beside lent bytes: their order, and `invert`. `query_item` has those whose keys are parts of
// a pool.
// Definitions: specs/Kinds.antt, specs/Rungs.antt; the order itself is `compare_boundaries` of `key_order`. Laws: proofs/Rungs.antt.
//
// A function marked "inner" is public only because other crates need it. It checks nothing: its definition covers every input.
#![tactic(auto)]

ghost use Rattle.std.specs.Prelude.{◌≡◌};
ghost use Rattle.key_order.specs.Boundary.{compare_boundaries};
ghost use Rattle.boundary.specs.Kinds.{boundary, invert_kind};
ghost use Rattle.boundary.specs.Rungs.{rung, bounded};

use std::cmp::Ordering;

// What a boundary is, where its key is lent as bytes beside it, in the order of boundaries at one key. An unbounded one does without a key.
#[derive(Clone, Copy, PartialEq, Eq, PartialOrd, Ord)]
pub enum BoundaryKind {
    UnboundedStart,
    ExclusiveEnd, // just before the key
    Inclusive, // at the key
    ExclusiveStart, // just past the key
    UnboundedEnd,
}

// How a boundary of the kind left at the key a stands to one of the kind right at the key b (01 m2.1, keys.7, keys.8).
pub fn compare_boundaries(left: BoundaryKind, a: &[u8], right: BoundaryKind, b: &[u8]) -> Ordering
    ensures { result ≡ compare_boundaries (boundary left a.now) (boundary right b.now) }
{
    let kinds = left.cmp(&right);
    if left.is_bounded() & right.is_bounded() {
        return key_order::compare(a, b).then(kinds);
    }
    kinds
}

impl BoundaryKind {
    // inner: whether a boundary of the kind has a key.
    pub fn is_bounded(self) -> bool
        ensures { result ≡ bounded (rung self) }
    {
        !matches!(
            self,
            BoundaryKind::UnboundedStart | BoundaryKind::UnboundedEnd
        )
    }

    // The kind of the inverted boundary, whose key stays: Inclusive becomes the exclusive one of the asked side (01 m2.2).
    pub fn invert(self, is_start: bool) -> BoundaryKind
        ensures { result ≡ invert_kind self is_start }
    {
        match self {
            BoundaryKind::UnboundedStart => BoundaryKind::UnboundedStart,
            BoundaryKind::UnboundedEnd => BoundaryKind::UnboundedEnd,
            BoundaryKind::Inclusive => {
                if is_start {
                    BoundaryKind::ExclusiveStart
                } else {
                    BoundaryKind::ExclusiveEnd
                }
            }
            BoundaryKind::ExclusiveStart => BoundaryKind::Inclusive,
            BoundaryKind::ExclusiveEnd => BoundaryKind::Inclusive,
        }
    }
}
