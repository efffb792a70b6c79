// Module 6 of document 01, joined: what `from_query_items` writes is accepted by the calls that ask of intervals, compare them, plan and check the
// refetch of what is missing, and keep a stored list, and they answer what the items cover (proofs/Laws.antt); and after building and any covering and
// uncovering no list of half-open pairs that covers the same rows has fewer than are kept. It has no functions and no specs/.
#![tactic(auto)]
