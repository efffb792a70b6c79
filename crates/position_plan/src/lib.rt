// Request 9 of document 02: windows that refetch the missing rows, at most W rows each, and the check of such a plan, whoever made it.
// Definitions: specs/Plans.antt (which plans are accepted, our plan, the answers), specs/Inner.antt (what private functions require and
// promise). Laws: proofs/Laws.antt: our plans are accepted, no accepted plan has fewer windows, and how much room is always enough.
//
// No step is taken for each row: the search goes by runs of missing rows, the passes by windows.
#![tactic(auto)]

pub mod judge;
mod log;
mod runs;
pub mod windows;
