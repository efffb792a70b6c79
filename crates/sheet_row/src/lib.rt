// Section 1 of document 02: rows of comma-separated text under RFC 4180, as lanes, and lanes as text. Definitions and laws alone, no functions.
// Definitions: specs/Fields.antt (the grammar), specs/Lanes.antt (rows as lanes, sheets, writing). Laws: proofs/Laws.antt.
#![tactic(auto)]
