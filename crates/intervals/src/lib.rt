// Lists of half-open intervals of natural numbers: what two lists share, what one keeps without the other, what they hold, one
// more range covered, and one uncovered. Definitions and laws alone, no functions. Definitions: specs/Lists.antt, over things of any type,
// specs/Intervals.antt and specs/Cover.antt. Laws: proofs/Laws.antt; among them that there is one canonical list of what is held, and that no
// list of intervals that holds it is shorter; and how to reason of a list in another order, whatever is in it (proofs/Reordered.antt).
#![tactic(auto)]
