#![tactic(auto)]

// Document 01, and what is built of document 02, as definitions (specs/) and the theorems about them (proofs/). There is no code here.
