// Document 01's rows to prove: one table of what the definitions give and what the document says (specs/Rows.antt), under one statement
// (proofs/Held.antt). It has no functions.
#![tactic(auto)]
