// Document 01's marked cases, those of later requests, and the boxes that are shut out, held against the definitions of
// the crates below; no code.
#![tactic(auto)]
