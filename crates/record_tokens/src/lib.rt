// The writer: document 01, "Records". The tokens of a record stand in specs/; proofs/ shows that they are those that were read.
#![tactic(auto)]
