#![tactic(auto)]

// Cases A to K and M of document 01 as one table (specs/Table.antt) with one claim (proofs/Computed.antt).
